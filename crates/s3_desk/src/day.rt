//! A day, from a pack and two decks to what both levels print and the pack.
ghost use Rattle.std.specs.Prelude.{◌≡◌, ◌≢◌, ◌+◌, ℕ, [], List, true, false, None, Some, Ok, Err, IfOk, OnOk};
ghost use Rattle.s3_cards.specs.declared.levels.LevelId.{LevelId};
ghost use Rattle.s3_store.specs.Inner.State.{KeepsInStep};
ghost use Rattle.s3_slots.specs.Header.{mounted};
ghost use Rattle.s3_slots.specs.declared.header.Header.{Header};
ghost use Rattle.s3_labels.specs.Contents.{contents_of};
ghost use Rattle.s3_solo.specs.Solo.{solo};
ghost use Rattle.s3_solo.specs.World.{World};
ghost use Rattle.s3_bureau.specs.declared.stop.Stop.TheVariants.{Stopped};
ghost use Rattle.s3_bureau.specs.Entries.{own};
ghost use Rattle.s3_bureau.specs.Script.{entries_of};
ghost use Rattle.s3_bureau.specs.Sharing.{IsCommon, IsOwn};
ghost use Rattle.s3_bureau.specs.Inner.Held.{HoldsFor, State, header_of, held_by, is_open};
ghost use Rattle.s3_bureau.specs.Inner.Stops.{failed_stop};
ghost use Rattle.s3_bureau.specs.Inner.Underway.{HasTexts, HaveFiles, HaveSlots, ReadsDeck};
ghost use Rattle.s3_bureau.specs.Inner.Unwritten.{LinesOver, RunsLines, texts_at};
ghost use Rattle.s3_desk.specs.declared.ends.End.TheVariants.{Cut, OutOfReplies};
ghost use Rattle.s3_desk.specs.Inner.Days.{EndSo, HasPrinted, IsAnswered, LeavesLines, run_of, starts_in};
ghost use Rattle.s3_desk.specs.Inner.Desk.{EndsAs, HasReached, HasReplied, IsPastReply};
ghost use Rattle.s3_desk.specs.Inner.Printing.{Goes, MeetsPrinting};
ghost use Rattle.s3_desk.specs.Inner.Rounds.{SitsFrom};

use crate::desk::operate;
use crate::ends::{Bounds, Ends};
use crate::operator::Operator;
use crate::printing::Printing;
use s3_bureau::{
    Bureau, RunFault, RunLines, Stop, Unwritten, fault_of, fault_of_refusal, finish_halts,
    read_deck,
};
use s3_cards::{Deck, LevelId};
use s3_labels::RefusedStore;
use s3_replay::Performed;
use s3_store::{MemoryStore, PackStore};
use std::alloc::{AllocError, Global};
use std::io::Write;

/// What came of a day.
#[derive(Drop)]
pub struct Day {
    /// What both levels have printed, and the pack that they leave.
    pub run: RunLines,
    /// Where both levels were left.
    pub ends: Ends,
}

/// A deck that was read.
#[derive(Drop)]
pub struct ReadDeck {
    /// Its cards; none if it can't be read.
    pub cards: Deck,
    /// The number of the card in error, from 1, and of its fault, if it can't be read.
    pub refusal: Option<(u16, u8)>,
}

impl ReadDeck {
    /// Reads a deck from its text; refused only if memory runs out.
    pub fn read(alloc: Global, text: &[u8]) -> Result<ReadDeck, AllocError>
        ensures { IfOk result (λ deck. ReadsDeck text.now deck.cards deck.refusal) }
    {
        let (cards, refusal) = read_deck(alloc, text)?;
        Ok(ReadDeck { cards, refusal })
    }
}

/// A day at the desk over a pack, each level over its own deck: the run of a script of the entries that were performed. It keeps its
/// printed lines, and no report is made of them. What was performed before is forgotten.
///
/// A pack that isn't mounted is refused. A deck that can't be read counts as empty, and its level's halt text begins with its fault, as
/// of job 000. If memory runs out, the pack is lost.
pub fn operate_day<O: Operator<Bureau<MemoryStore>>>(
    alloc: Global,
    pack: Vec<u8>,
    one: ReadDeck,
    two: ReadDeck,
    operator: &mut O,
    bounds: Bounds,
    performed: &mut Performed,
) -> Result<Day, RunFault>
    // It is the run of each script that asks for what was performed, and of texts of these decks.
    ensures runs { (deck1 deck2 script : List ℕ) → ReadsDeck deck1 one.cards one.refusal → ReadsDeck deck2 two.cards two.refusal → entries_of script ≡ Ok performed.new → RunsLines pack.items deck1 deck2 script (run_of result) }

    // It has printed what each level's own world has, once it is closed.
    ensures printed { IfOk result (λ day. (header : Header) → mounted (contents_of pack.items) ≡ Ok header → HasPrinted (starts_in header (contents_of pack.items) one.cards two.cards) one.refusal performed.new day.run) }

    // Each level was left so; one that was cut has taken as many turns as it may, or as many lines were drained.
    ensures ends { IfOk result (λ day. (header : Header) → mounted (contents_of pack.items) ≡ Ok header → EndSo (starts_in header (contents_of pack.items) one.cards two.cards) performed.new day.ends) }
    ensures one_cut { IfOk result (λ day. day.ends.one ≡ Cut → HasReached LevelId.One [] performed.new bounds) }
    ensures two_cut { IfOk result (λ day. day.ends.two ≡ Cut → HasReached LevelId.Two [] performed.new bounds) }

    ensures one_out { IfOk result (λ day. day.ends.one ≡ OutOfReplies → HasReplied LevelId.One [] performed.new) }
    ensures two_out { IfOk result (λ day. day.ends.two ≡ OutOfReplies → HasReplied LevelId.Two [] performed.new) }

    // The day is a list of moments: each halt is shown as it comes, and asked about at rest; what is performed are turns, drains, and
    // each reply at its own question. The operator follows after turns up to the end of a job, after a level's first turn after a reply,
    // and after lines, before anything else.
    ensures answered { IfOk result (λ day. (header : Header) → mounted (contents_of pack.items) ≡ Ok header → IsAnswered O.meets (starts_in header (contents_of pack.items) one.cards two.cards) bounds performed.new day.ends operator.old operator.new) }
{
    let store = MemoryStore::from_bytes(pack);
    *performed = Performed::new(alloc);
    day_over(alloc, store, one, two, operator, bounds, performed)
}

/// A day at the desk, as `operate_day` has it, whose reports are written as lines are printed.
pub fn operate_printing<O: Operator<Bureau<MemoryStore>> + Drop, W: Write + Drop>(
    alloc: Global,
    pack: Vec<u8>,
    one: ReadDeck,
    two: ReadDeck,
    printing: &mut Printing<O, W>,
    bounds: Bounds,
    performed: &mut Performed,
) -> Result<Day, RunFault>
    // It is the run of each script that asks for what was performed, and of texts of these decks.
    ensures runs { (deck1 deck2 script : List ℕ) → ReadsDeck deck1 one.cards one.refusal → ReadsDeck deck2 two.cards two.refusal → entries_of script ≡ Ok performed.new → RunsLines pack.items deck1 deck2 script (run_of result) }

    // It has printed what each level's own world has, once it is closed.
    ensures printed { IfOk result (λ day. (header : Header) → mounted (contents_of pack.items) ≡ Ok header → HasPrinted (starts_in header (contents_of pack.items) one.cards two.cards) one.refusal performed.new day.run) }

    // Each level was left so; one that was cut has taken as many turns as it may, or as many lines were drained.
    ensures ends { IfOk result (λ day. (header : Header) → mounted (contents_of pack.items) ≡ Ok header → EndSo (starts_in header (contents_of pack.items) one.cards two.cards) performed.new day.ends) }
    ensures one_cut { IfOk result (λ day. day.ends.one ≡ Cut → HasReached LevelId.One [] performed.new bounds) }
    ensures two_cut { IfOk result (λ day. day.ends.two ≡ Cut → HasReached LevelId.Two [] performed.new bounds) }

    ensures one_out { IfOk result (λ day. day.ends.one ≡ OutOfReplies → HasReplied LevelId.One [] performed.new) }
    ensures two_out { IfOk result (λ day. day.ends.two ≡ OutOfReplies → HasReplied LevelId.Two [] performed.new) }

    // The day is a list of moments, as `operate_day` has it. Each time that the operator follows, all lines that level 1 has printed are
    // written, and those of level 2 if level 1 is over and its deck was read.
    ensures answered { IfOk result (λ day. (header : Header) → mounted (contents_of pack.items) ≡ Ok header → IsAnswered
        (λ old event new. MeetsPrinting (O.meets old.operator event new.operator) old.is_one_read new.is_one_read event (record { contents = W.contents old.reports.output.writer; has_failed = old.reports.output.has_failed; place = old.reports.place }) (record { contents = W.contents new.reports.output.writer; has_failed = new.reports.output.has_failed; place = new.reports.place }))
        (starts_in header (contents_of pack.items) one.cards two.cards) bounds performed.new day.ends printing.old printing.new) }

    // What was written of the reports is what it has printed, as far as they have come.
    ensures written { IfOk result (λ day. (header : Header) → mounted (contents_of pack.items) ≡ Ok header → (printing.old.is_one_read ≡ true → one.refusal ≡ None)
        → Goes (record { contents = W.contents printing.old.reports.output.writer; has_failed = printing.old.reports.output.has_failed; place = printing.old.reports.place }) (record { contents = W.contents printing.new.reports.output.writer; has_failed = printing.new.reports.output.has_failed; place = printing.new.reports.place }) day.run.one.lines.items day.run.two.lines.items day.run.one.halts.items) }
{
    operate_day(alloc, pack, one, two, printing, bounds, performed)
}

/// A day over a store in memory.
fn day_over<O: Operator<Bureau<MemoryStore>>>(
    alloc: Global,
    store: MemoryStore,
    one: ReadDeck,
    two: ReadDeck,
    operator: &mut O,
    bounds: Bounds,
    performed: &mut Performed,
) -> Result<Day, RunFault>
    requires { performed.old ≡ [] }
    ensures runs { (deck1 deck2 : List ℕ) → ReadsDeck deck1 one.cards one.refusal → ReadsDeck deck2 two.cards two.refusal → LinesOver store deck1 deck2 performed.new (run_of result) }
    ensures printed { IfOk result (λ day. (header : Header) → mounted store ≡ Ok header → HasPrinted (starts_in header store one.cards two.cards) one.refusal performed.new day.run) }
    ensures ends { IfOk result (λ day. (header : Header) → mounted store ≡ Ok header → EndSo (starts_in header store one.cards two.cards) performed.new day.ends) }
    ensures one_cut { IfOk result (λ day. day.ends.one ≡ Cut → HasReached LevelId.One [] performed.new bounds) }
    ensures two_cut { IfOk result (λ day. day.ends.two ≡ Cut → HasReached LevelId.Two [] performed.new bounds) }
    ensures one_out { IfOk result (λ day. day.ends.one ≡ OutOfReplies → HasReplied LevelId.One [] performed.new) }
    ensures two_out { IfOk result (λ day. day.ends.two ≡ OutOfReplies → HasReplied LevelId.Two [] performed.new) }
    ensures answered { IfOk result (λ day. (header : Header) → mounted store ≡ Ok header → IsAnswered O.meets (starts_in header store one.cards two.cards) bounds performed.new day.ends operator.old operator.new) }
{
    let ReadDeck {
        cards: cards1,
        refusal: refusal1,
    } = one;
    let ReadDeck {
        cards: cards2,
        refusal: refusal2,
    } = two;
    let mut bureau = match Bureau::open(alloc, store, cards1, cards2) {
        Ok(bureau) => bureau,
        Err(RefusedStore { store: _, fault }) => return Err(fault_of_refusal(fault)),
    };
    let day = operate_to_end(
        alloc,
        &mut bureau,
        operator,
        bounds,
        performed,
        refusal1,
        refusal2,
    );
    match day {
        Ok((ends, (halts1, halts2))) => {
            let unwritten = Unwritten {
                bureau,
                halts1,
                halts2,
            };
            let run = unwritten.into_lines();
            Ok(Day { run, ends })
        }
        Err(stop) => {
            let _store = bureau.into_store();
            Err(fault_of(stop))
        }
    }
}

/// Where both levels were left, and their halt texts, whether or not a level's deck was refused.
fn operate_to_end<S: PackStore, O: Operator<Bureau<S>>>(
    alloc: Global,
    bureau: &mut Bureau<S>,
    operator: &mut O,
    bounds: Bounds,
    performed: &mut Performed,
    refusal1: Option<(u16, u8)>,
    refusal2: Option<(u16, u8)>,
) -> Result<(Ends, (Vec<u8>, Vec<u8>)), Stop>
    requires takes_more { is_open bureau.old ≡ true }
    requires none { performed.old ≡ [] }
    ensures texts { IfOk result (λ day. HasTexts refusal1 refusal2 performed.new (held_by bureau.old) (texts_at bureau.new day.1.0.items day.1.1.items)) }
    ensures lines { IfOk result (λ day. LeavesLines refusal1 performed.new bureau.old bureau.new day.1.0.items) }
    ensures files { OnOk result (HaveFiles performed.new (held_by bureau.old) bureau.new.beside.state.contents) }
    ensures slots { OnOk result (HaveSlots performed.new bureau.old bureau.new.beside.state.contents) }
    ensures flushed { OnOk result (bureau.new.beside.state.stored ≡ bureau.new.beside.state.contents) }
    ensures common { KeepsInStep (IsCommon (header_of bureau.old)) bureau.old.beside.state bureau.new.beside.state }
    ensures idle { OnOk result ((level : LevelId) (w : World) → own level performed.new ≡ [] → HoldsFor level bureau.old w → w.job ≡ None → KeepsInStep (IsOwn level (header_of bureau.old)) bureau.old.beside.state bureau.new.beside.state) }
    ensures one { IfOk result (λ day. (w : World) → HoldsFor LevelId.One bureau.old w → EndsAs day.0.one (solo w (own LevelId.One performed.new))) }
    ensures two { IfOk result (λ day. (w : World) → HoldsFor LevelId.Two bureau.old w → EndsAs day.0.two (solo w (own LevelId.Two performed.new))) }
    ensures one_cut { IfOk result (λ day. day.0.one ≡ Cut → HasReached LevelId.One [] performed.new bounds) }
    ensures two_cut { IfOk result (λ day. day.0.two ≡ Cut → HasReached LevelId.Two [] performed.new bounds) }
    ensures one_out { IfOk result (λ day. day.0.one ≡ OutOfReplies → HasReplied LevelId.One [] performed.new) }
    ensures two_out { IfOk result (λ day. day.0.two ≡ OutOfReplies → HasReplied LevelId.Two [] performed.new) }
    ensures sits { IfOk result (λ day. SitsFrom (λ (b : State) (level : LevelId) (w : World). HoldsFor level b w) O.meets (λ level entries. IsPastReply level [] entries) (λ level entries. HasReached level [] entries bounds) [] performed.new bureau.old operator.old operator.new false false false false (Some day.0)) }
    ensures failures { bureau.new.beside.state.failures ≡ bureau.old.beside.state.failures + failed_stop result }
    ensures not_stopped { result ≢ Err Stopped }
{
    let ends = operate(alloc, bureau, operator, bounds, performed)?;
    let halts = finish_halts(alloc, bureau, refusal1, refusal2)?;
    Ok((ends, halts))
}
