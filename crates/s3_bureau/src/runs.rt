//! A run: a pack, two decks and a script, from bytes to texts and the pack.
ghost use Rattle.std.specs.Prelude.{◌≡◌, ◌≢◌, ◌≤◌, ◌<◌, ◌+◌, Ok, Err, IfOk, OnOk, replicate, true};
ghost use Rattle.std.specs.List.{flat_map};
ghost use Rattle.s3_bureau.specs.Inner.Faults.{fault_of_stop, told_as};
ghost use Rattle.s3_bureau.specs.Script.{entries_by};
ghost use Rattle.s3_bureau.specs.declared.stop.Stop.TheVariants.{Stopped};
ghost use Rattle.s3_bureau.specs.Inner.Stops.{failed_stop};
ghost use Rattle.s3_bureau.specs.Inner.Held.{HoldsFor, IsSaid, header_of, held_by, is_open, rests};
ghost use Rattle.s3_bureau.specs.Runs.{Runs};
ghost use Rattle.s3_bureau.specs.Sharing.{IsCommon, IsOwn};
ghost use Rattle.s3_bureau.specs.Texts.{halt_text_of};
ghost use Rattle.s3_bureau.specs.Inner.Underway.{HasTexts, HaveFiles, HaveSlots, KeepSaying, Leaves, LeavesSectors, Performs, ReadsDeck, left_after};
ghost use Rattle.s3_bureau.specs.Inner.Unwritten.{RunsUnwritten, UnwrittenOver, texts_at};
ghost use Rattle.s3_cards.specs.declared.levels.LevelId.{LevelId};
ghost use Rattle.s3_store.specs.Inner.State.{KeepsInStep};
ghost use Rattle.s3_slots.specs.Header.{region_of};
ghost use Rattle.s3_slots.specs.Slots.{slots_of};
ghost use Rattle.s3_labels.specs.Areas.{area_of};
ghost use Rattle.s3_labels.specs.Untangled.{IsUntangled};
ghost use Rattle.s3_solo.specs.Solo.{closed};
ghost use Rattle.s3_solo.specs.World.{World};

use crate::bureau::Bureau;
use crate::entry::Entry;
use crate::halts::halt_text;
use crate::outcome::Outcome;
use crate::run_fault::RunFault;
use crate::script::{Command, read_script};
use crate::stop::Stop;
use crate::unwritten::Unwritten;
use s3_cards::{Deck, LevelId};
use s3_labels::{Refusal, RefusedStore};
use s3_level::{Did, Taken};
use s3_store::{MemoryStore, PackStore, SectorFault};
use std::alloc::{AllocError, Global};
use std::num::NonZeroU16;

/// The texts of both levels after a script's entries over a pack, each level over its own deck, and the pack that they leave. It makes
/// the run of `run_unwritten` over a copy of the pack's bytes, and then both reports.
///
/// A script with a malformed line is refused before anything else, then a pack that isn't mounted. A deck that can't be
/// read counts as empty, and its level's halt text begins with its fault, as of job 000.
pub fn run(
    alloc: Global,
    pack: &[u8],
    deck1: &[u8],
    deck2: &[u8],
    script: &[u8],
) -> Result<Outcome, RunFault>
    ensures { Runs pack.now deck1.now deck2.now script.now result }
{
    let bytes = Vec::from_slice(alloc, pack)?;
    let unwritten = run_unwritten(alloc, bytes, deck1, deck2, script)?;
    let outcome = unwritten.written(alloc)?;
    Ok(outcome)
}

/// The run of `run`, with no report made yet: it hands out the printed lines that a report is made of. So a caller that writes them
/// needs no memory for a whole report. The pack is handed over, and so isn't copied.
pub fn run_unwritten(
    alloc: Global,
    pack: Vec<u8>,
    deck1: &[u8],
    deck2: &[u8],
    script: &[u8],
) -> Result<Unwritten, RunFault>
    ensures { RunsUnwritten pack.items deck1.now deck2.now script.now result }
{
    let commands = read_script(alloc, script)?;
    let store = MemoryStore::from_bytes(pack);
    unwritten(alloc, store, deck1, deck2, &commands)
}

/// The bureau after the entries of all commands, finished, and the halt texts of both levels.
fn unwritten(
    alloc: Global,
    store: MemoryStore,
    deck1: &[u8],
    deck2: &[u8],
    commands: &[Command],
) -> Result<Unwritten, RunFault>
    ensures { UnwrittenOver store deck1.now deck2.now (flat_map entries_by commands.now) result }
{
    let (cards1, refusal1) = read_deck(alloc, deck1)?;
    let (cards2, refusal2) = read_deck(alloc, deck2)?;
    let mut bureau = match Bureau::open(alloc, store, cards1, cards2) {
        Ok(bureau) => bureau,
        Err(RefusedStore { store: _, fault }) => return Err(fault_of_refusal(fault)),
    };
    let halts = served(alloc, &mut bureau, commands, refusal1, refusal2);
    match halts {
        Ok((halts1, halts2)) => Ok(Unwritten {
            bureau,
            halts1,
            halts2,
        }),
        Err(stop) => {
            let _store = bureau.into_store();
            Err(fault_of(stop))
        }
    }
}

/// What the refusal of a pack is to a run.
pub fn fault_of_refusal(refusal: Refusal) -> RunFault
    ensures { result ≡ told_as refusal }
{
    match refusal {
        Refusal::BadPack(fault) => RunFault::Mount(fault),
        Refusal::Sectors(SectorFault::Device) => RunFault::Device,
        Refusal::Sectors(SectorFault::NoMemory) => RunFault::NoMemory,
    }
}

/// What a stop of a bureau that was open is to a run.
pub fn fault_of(stop: Stop) -> RunFault
    requires { stop ≢ Stopped }
    ensures { result ≡ fault_of_stop stop }
{
    match stop {
        Stop::NoMemory => RunFault::NoMemory,
        Stop::Device => RunFault::Device,
        Stop::Stopped => unreachable!(),
    }
}

/// Finishes a bureau after the entries of all commands, and gives the halt texts of both levels, whether each level's deck was refused
/// or not.
fn served<S: PackStore>(
    alloc: Global,
    bureau: &mut Bureau<S>,
    commands: &[Command],
    refusal1: Option<(u16, u8)>,
    refusal2: Option<(u16, u8)>,
) -> Result<(Vec<u8>, Vec<u8>), Stop>
    requires { is_open bureau.old ≡ true }
    ensures texts { IfOk result (λ halts. HasTexts refusal1 refusal2 (flat_map entries_by commands.now) (held_by bureau.old) (texts_at bureau.new halts.0.items halts.1.items)) }
    ensures files { OnOk result (HaveFiles (flat_map entries_by commands.now) (held_by bureau.old) bureau.new.beside.state.contents) }
    ensures slots { OnOk result (HaveSlots (flat_map entries_by commands.now) bureau.old bureau.new.beside.state.contents) }
    ensures flushed { OnOk result (bureau.new.beside.state.stored ≡ bureau.new.beside.state.contents) }
    ensures leaves { LeavesSectors (flat_map entries_by commands.now) bureau.old bureau.new }
    ensures failures { bureau.new.beside.state.failures ≡ bureau.old.beside.state.failures + failed_stop result }
    ensures not_stopped { result ≢ Err Stopped }
{
    perform(bureau, commands)?;
    finish_halts(alloc, bureau, refusal1, refusal2)
}

/// Finishes a bureau, and gives the halt texts of both levels, whether or not a level's deck was refused.
pub fn finish_halts<S: PackStore>(
    alloc: Global,
    bureau: &mut Bureau<S>,
    refusal1: Option<(u16, u8)>,
    refusal2: Option<(u16, u8)>,
) -> Result<(Vec<u8>, Vec<u8>), Stop>
    ensures closes { OnOk result ((level : LevelId) (w : World) → HoldsFor level bureau.old w → HoldsFor level bureau.new (closed w)) }
    ensures one { IfOk result (λ halts. (w : World) → HoldsFor LevelId.One bureau.new w → halts.0.items ≡ halt_text_of refusal1 w.halts) }
    ensures two { IfOk result (λ halts. (w : World) → HoldsFor LevelId.Two bureau.new w → halts.1.items ≡ halt_text_of refusal2 w.halts) }
    ensures flushed { OnOk result (bureau.new.beside.state.stored ≡ bureau.new.beside.state.contents) }
    ensures mounts { OnOk result ((level : LevelId) (w : World) → IsSaid level bureau.old → HoldsFor level bureau.new w → slots_of (header_of bureau.new).format (region_of level (header_of bureau.new)) (area_of level) bureau.new.beside.state.contents ≡ w.pack.own.slots) }
    ensures untangled { OnOk result ((level : LevelId) → IsSaid level bureau.old → IsUntangled (header_of bureau.new).format (region_of level (header_of bureau.new)) (area_of level) bureau.new.beside.state.contents) }
    ensures unchanged { KeepsInStep (IsCommon (header_of bureau.old)) bureau.old.beside.state bureau.new.beside.state }
    ensures rest { (level : LevelId) → rests level bureau.old → KeepsInStep (IsOwn level (header_of bureau.old)) bureau.old.beside.state bureau.new.beside.state }
    ensures header { header_of bureau.new ≡ header_of bureau.old }
    ensures failures { bureau.new.beside.state.failures ≡ bureau.old.beside.state.failures + failed_stop result }
    ensures not_stopped { is_open bureau.old ≡ true → result ≢ Err Stopped }
{
    bureau.finish()?;
    let one = level_halts(alloc, bureau, LevelId::One, refusal1)?;
    let two = level_halts(alloc, bureau, LevelId::Two, refusal2)?;
    Ok((one, two))
}

/// The cards of a deck. If the deck is refused, it counts as empty, with the number of the card in error and of its fault.
pub fn read_deck(alloc: Global, text: &[u8]) -> Result<(Deck, Option<(u16, u8)>), AllocError>
    ensures { IfOk result (λ read. ReadsDeck text.now read.0 read.1) }
{
    match Deck::read(alloc, text) {
        Ok(deck) => Ok((deck, None)),
        Err(fault) => match fault.detail() {
            Some(detail) => Ok((Deck::empty(alloc), Some(detail))),
            None => Err(AllocError),
        },
    }
}

/// Performs the entries of all commands, in order.
fn perform<S: PackStore>(bureau: &mut Bureau<S>, commands: &[Command]) -> Result<(), Stop>
    requires { is_open bureau.old ≡ true }
    ensures worlds { OnOk result (Performs (flat_map entries_by commands.now) (held_by bureau.old) (held_by bureau.new)) }
    ensures said { OnOk result (KeepSaying bureau.old bureau.new) }
    ensures goes_on { OnOk result (is_open bureau.new ≡ true) }
    ensures leaves { Leaves (flat_map entries_by commands.now) bureau.old bureau.new }
    ensures failures { bureau.new.beside.state.failures ≡ bureau.old.beside.state.failures + failed_stop result }
    ensures not_stopped { result ≢ Err Stopped }
{
    for command in commands {
        repeat(bureau, command.entry, command.count)?;
    }
    Ok(())
}

/// Performs an entry so many times.
fn repeat<S: PackStore>(bureau: &mut Bureau<S>, entry: Entry, count: u16) -> Result<(), Stop>
    requires { is_open bureau.old ≡ true }
    ensures worlds { OnOk result (Performs (replicate count entry) (held_by bureau.old) (held_by bureau.new)) }
    ensures said { OnOk result (KeepSaying bureau.old bureau.new) }
    ensures goes_on { OnOk result (is_open bureau.new ≡ true) }
    ensures leaves { Leaves (replicate count entry) bureau.old bureau.new }
    ensures failures { bureau.new.beside.state.failures ≡ bureau.old.beside.state.failures + failed_stop result }
    ensures not_stopped { result ≢ Err Stopped }
{
    let mut left = count;
    while let Some(most) = NonZeroU16::new(left) {
        // What the entries did is kept nowhere: a turn, a reply or a drain that was idle or refused leaves no mark in the texts.
        let taken = bureau.repeat(entry, most)?;
        left = left_behind(taken, left);
    }
    Ok(())
}

/// How many of a command's entries are left to be performed after these. None are left if these did nothing: nothing has changed
/// then, and so the others would do nothing either.
fn left_behind(taken: Taken, left: u16) -> u16
    requires some { 1 ≤ taken.times }
    requires few { taken.times ≤ left }
    ensures value { result ≡ left_after taken left }
    ensures fewer { result < left }
{
    match taken.did {
        Did::Acted => left - taken.times,
        Did::Idle | Did::Refused(_) => 0,
    }
}

/// A level's halt text.
fn level_halts<S: PackStore>(
    alloc: Global,
    bureau: &Bureau<S>,
    level: LevelId,
    refusal: Option<(u16, u8)>,
) -> Result<Vec<u8>, AllocError>
    ensures { IfOk result (λ halts. (w : World) → HoldsFor level bureau.now w → halts.items ≡ halt_text_of refusal w.halts) }
{
    halt_text(alloc, refusal, bureau.halts(level))
}
