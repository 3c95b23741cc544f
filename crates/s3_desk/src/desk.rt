//! A day at the desk, over two levels that take turns.
ghost use Rattle.std.specs.Prelude.{◌≡◌, ◌≢◌, ◌⊎◌, ◌+◌, ◌<◌, ◌≤◌, ℕ, List, None, Some, Err, true, false, is_some, IfOk, IfSome, OnOk};
ghost use Rattle.std.specs.Int.NonZero.{non_zero_u16_get};
ghost use Rattle.s3_operator.specs.Inner.Halts.{halt_of};
ghost use Rattle.s3_operator.specs.Halts.{is_waiting, last_halt, waiting as waiting_spec};
ghost use Rattle.s3_operator.specs.Replies.{is_allowed};
ghost use Rattle.s3_operator.specs.declared.halt_code.HaltCode.{HaltCode};
ghost use Rattle.s3_solo.specs.World.{World};
ghost use Rattle.s3_bureau.specs.declared.entry.Entry.{Entry};
ghost use Rattle.s3_bureau.specs.declared.stop.Stop.TheVariants.{Stopped};
ghost use Rattle.s3_bureau.specs.Inner.Stops.{failed_stop};
ghost use Rattle.s3_cards.specs.declared.levels.LevelId.{LevelId};
ghost use Rattle.s3_desk.specs.declared.desk.Went.TheVariants.{Cut, On, Rests};
ghost use Rattle.s3_desk.specs.declared.ends.Bounds.{Bounds};
ghost use Rattle.s3_desk.specs.declared.ends.End.TheVariants.{Cut as CutOff, Halted, OutOfReplies};
ghost use Rattle.s3_desk.specs.Inner.Calls.{GoesAfter, KeepsFrom, NeverStopped};
ghost use Rattle.s3_desk.specs.Inner.Desk.{AsksLevel, Counts, DayEnds, DrainsQueue, EndsAs, Follows, GivesReply, HasReached, HasReplied, IsLeft, IsPastReply, IsSpent, Keeps, LevelGoesOn, RepliesLast, RoundEnds, Spends, StepsAlike, TakesLines, TakesTurns, Uses, replies_left, with_reply, work_left};
ghost use Rattle.s3_desk.specs.Inner.Rounds.{Asks, Serves, ShowsHalt, SitsFrom, at_level};

use crate::ends::{Bounds, End, Ends};
use crate::machine::Machine;
use crate::operator::{Operator, Papers};
use s3_bureau::{Action, Did, Entry, Halt, Stop};
use s3_cards::LevelId;
use s3_replay::Performed;
use std::alloc::{AllocError, Global};
use std::num::NonZeroU16;

/// The most turns that a level takes before the other one has its own: both show their first halts early so.
const STRIDE: u16 = 1_000;

/// The most replies that a level takes with no turn and no line between them.
const MOST_ANSWERS: u16 = u16::MAX;

/// What came of a level's going on.
#[derive(Clone, Copy, PartialEq, Eq)]
enum Went {
    /// It has gone on.
    On,
    /// It is at rest.
    Rests,
    /// It may take no more turns, or print no more lines.
    Cut,
}

/// A level at the desk.
#[derive(Clone, Copy)]
struct Seat {
    /// How far it may still go.
    left: Bounds,
    /// The halt that waits was shown.
    is_shown: bool,
    /// How many replies were taken since the level went on last: one can lead to the next halt at once. There is a most of them,
    /// so that a day ends whatever the machine does.
    answers: u16,
}

impl Seat {
    ghost use Rattle.std.specs.Prelude.{◌≡◌, false};
    ghost use Rattle.std.specs.Int.NonZero.{non_zero_u16_get};
    ghost use Rattle.s3_desk.specs.Inner.Desk.{stride_of};

    /// A level before its first turn.
    fn new(bounds: Bounds) -> Seat
        ensures left { result.left ≡ bounds }
        ensures unshown { result.is_shown ≡ false }
        ensures none { result.answers ≡ 0 }
    {
        Seat {
            left: bounds,
            is_shown: false,
            answers: 0,
        }
    }

    /// How many turns the level takes at most before the other one has its own, and before it is followed. After a reply it is one:
    /// that may have ended a job, and the next one prints nothing in its first turn. Else turns end with a job by themselves.
    fn stride(&self) -> NonZeroU16
        ensures { non_zero_u16_get result ≡ stride_of self.now.answers }
    {
        if self.answers == 0 {
            NonZeroU16::new(STRIDE).unwrap_or(NonZeroU16::MIN)
        } else {
            NonZeroU16::MIN
        }
    }
}

/// Takes turns, as many as act, up to a stride of them.
#[tactic(auto, using(crate::proofs::Sittings::alike_none))]
fn take_turns<M: Machine>(
    bureau: &mut M,
    level: LevelId,
    stride: NonZeroU16,
    left: &mut Bounds,
    performed: &mut Performed,
) -> Result<Went, Stop>
    ensures goes { TakesTurns M.holds level performed.old performed.new bureau.old bureau.new result }
    ensures alike { OnOk result (StepsAlike M.holds (non_zero_u16_get stride) level performed.old performed.new bureau.old) }
    ensures idle { IfOk result (λ went. went ≢ On → performed.new ≡ performed.old) }
    ensures uses { IfOk result (λ went. Uses level performed.old performed.new left.old left.new went) }
    ensures after { OnOk result (GoesAfter M.after performed.old performed.new bureau.old bureau.new) }
    ensures kept { KeepsFrom M.keeps bureau.old bureau.new }
    ensures failed { M.failures bureau.new ≡ M.failures bureau.old + failed_stop result }
    ensures not_stopped { NeverStopped M.after performed.old bureau.old result }
{
    let Some(most) = NonZeroU16::new(left.turns.min(u32::from(stride.get())) as u16) else {
        return Ok(Went::Cut);
    };
    let entry = Entry {
        level,
        action: Action::Turn,
    };
    let taken = bureau.repeat(entry, most)?;
    match taken.did {
        Did::Acted => {
            let times = u32::from(taken.times);
            performed.note(entry, times)?;
            left.turns -= times;
            Ok(Went::On)
        }
        Did::Idle => Ok(Went::Rests),
        Did::Refused(_number) => Ok(Went::Rests),
    }
}

/// Drains the queue of a level to its end.
#[tactic(auto, using(crate::proofs::Sittings::no_lines))]
fn drain_queue<M: Machine>(
    bureau: &mut M,
    level: LevelId,
    left: &mut Bounds,
    performed: &mut Performed,
) -> Result<Went, Stop>
    ensures goes { DrainsQueue M.holds level performed.old performed.new bureau.old bureau.new result }
    ensures lines { OnOk result (TakesLines level performed.old performed.new) }
    ensures idle { IfOk result (λ went. went ≢ On → performed.new ≡ performed.old) }
    ensures uses { IfOk result (λ went. Uses level performed.old performed.new left.old left.new went) }
    ensures after { OnOk result (GoesAfter M.after performed.old performed.new bureau.old bureau.new) }
    ensures kept { KeepsFrom M.keeps bureau.old bureau.new }
    ensures failed { M.failures bureau.new ≡ M.failures bureau.old + failed_stop result }
    ensures not_stopped { NeverStopped M.after performed.old bureau.old result }
{
    let entry = Entry {
        level,
        action: Action::Drain,
    };
    let mut went = Went::Rests;
    while left.lines > 0 {
        match bureau.step(entry)? {
            Did::Acted => {
                performed.note(entry, 1)?;
                left.lines -= 1;
                went = Went::On;
            }
            Did::Idle => return Ok(went),
            Did::Refused(_number) => return Ok(went),
        }
    }
    Ok(cut_unless_on(went))
}

/// Where a level was left that may print no more lines: it has gone on if it printed some until then.
fn cut_unless_on(went: Went) -> Went
    ensures on { went ≡ On → result ≡ On }
    ensures cut { went ≢ On → result ≡ Cut }
{
    match went {
        Went::On => Went::On,
        Went::Rests => Went::Cut,
        Went::Cut => Went::Cut,
    }
}

/// A level goes on by turns; where none acts, its queue is drained.
#[tactic(auto, using(crate::proofs::Sittings::alike_lines, crate::proofs::Sittings::alike_none, crate::proofs::Sittings::cut_idle, crate::proofs::Sittings::idle_then))]
fn go_on<M: Machine>(
    bureau: &mut M,
    level: LevelId,
    stride: NonZeroU16,
    left: &mut Bounds,
    performed: &mut Performed,
) -> Result<Went, Stop>
    ensures goes { LevelGoesOn M.holds level performed.old performed.new bureau.old bureau.new result }
    ensures alike { OnOk result (StepsAlike M.holds (non_zero_u16_get stride) level performed.old performed.new bureau.old) }
    ensures idle { IfOk result (λ went. went ≢ On → performed.new ≡ performed.old) }
    ensures uses { IfOk result (λ went. Uses level performed.old performed.new left.old left.new went) }
    ensures after { OnOk result (GoesAfter M.after performed.old performed.new bureau.old bureau.new) }
    ensures kept { KeepsFrom M.keeps bureau.old bureau.new }
    ensures failed { M.failures bureau.new ≡ M.failures bureau.old + failed_stop result }
    ensures not_stopped { NeverStopped M.after performed.old bureau.old result }
{
    if left.lines == 0 {
        return Ok(Went::Cut);
    }
    match take_turns(bureau, level, stride, left, performed)? {
        Went::On => Ok(Went::On),
        Went::Cut => Ok(Went::Cut),
        Went::Rests => drain_queue(bureau, level, left, performed),
    }
}

/// The halt that waits in a level, if one waits.
fn waiting<M: Machine>(bureau: &M, level: LevelId) -> Option<&Halt>
    ensures some { (w : World) → M.holds bureau.now level w → is_waiting w.halts ≡ is_some result }
    ensures unanswered { IfSome result (λ halt. (halt_of halt.now).reply ≡ None) }
    ensures last { IfSome result (λ halt. (w : World) → M.holds bureau.now level w → last_halt w.halts ≡ Some (halt_of halt.now)) }
{
    let halt = bureau.halts(level).last()?;
    match halt.reply {
        None => Some(halt),
        Some(_digit) => None,
    }
}

/// Whether no halt must be shown: the halt that waits was shown, or none waits.
fn has_no_new_halt<M: Machine>(bureau: &M, level: LevelId, is_shown: bool) -> bool
    ensures yes { result ≡ true → (w : World) → M.holds bureau.now level w → (is_shown ≡ true) ⊎ (is_waiting w.halts ≡ false) }
    ensures no { result ≡ false → (is_shown ≡ false) × ((w : World) → M.holds bureau.now level w → is_waiting w.halts ≡ true) }
{
    if is_shown {
        return true;
    }
    waiting(bureau, level).is_none()
}

/// Shows the halt that waits in a level, if one waits that wasn't shown.
fn show<M: Machine, O: Operator<M>>(
    alloc: Global,
    bureau: &mut M,
    level: LevelId,
    seat: &mut Seat,
    operator: &mut O,
) -> Result<(), Stop>
    ensures held { OnOk result (Keeps M.holds bureau.old bureau.new) }
    ensures shows { OnOk result (ShowsHalt M.holds O.meets level bureau.old operator.old operator.new seat.old.is_shown seat.new.is_shown) }
    ensures same_left { seat.new.left ≡ seat.old.left }
    ensures same_answers { seat.new.answers ≡ seat.old.answers }
    ensures after { OnOk result ((was : List Entry) → GoesAfter M.after was was bureau.old bureau.new) }
    ensures kept { KeepsFrom M.keeps bureau.old bureau.new }
    ensures failed { M.failures bureau.new ≡ M.failures bureau.old + failed_stop result }
    ensures not_stopped { (was : List Entry) → NeverStopped M.after was bureau.old result }
{
    if has_no_new_halt(bureau, level, seat.is_shown) {
        return Ok(());
    }
    let evidence = bureau.look(alloc, level)?;
    seat.is_shown = true;
    let Some(halt) = waiting(bureau, level) else {
        return Ok(());
    };
    operator.show(bureau, level, halt, &evidence)?;
    Ok(())
}

/// Gives the operator what both levels have printed, and what was performed, when a level has gone on.
fn hand_over<M: Machine, O: Operator<M>>(
    bureau: &M,
    level: LevelId,
    operator: &mut O,
    performed: &Performed,
) -> Result<(), AllocError>
    ensures { OnOk result (Follows M.holds O.meets level performed.now bureau.now operator.old operator.new) }
{
    let papers = Papers {
        one: bureau.lines(LevelId::One),
        two: bureau.lines(LevelId::Two),
        is_one_over: bureau.is_over(LevelId::One),
    };
    operator.follow(bureau, level, papers, performed)
}

/// Has the operator follow a level, unless that rests.
fn follow<M: Machine, O: Operator<M>>(
    bureau: &M,
    level: LevelId,
    went: Went,
    seat: &mut Seat,
    operator: &mut O,
    performed: &Performed,
) -> Result<(), Stop>
    ensures met { OnOk result (went ≢ Rests → Follows M.holds O.meets level performed.now bureau.now operator.old operator.new) }
    ensures rests { went ≡ Rests → operator.new ≡ operator.old }
    ensures same_left { seat.new.left ≡ seat.old.left }
    ensures same_shown { seat.new.is_shown ≡ seat.old.is_shown }
    ensures same_answers { went ≢ On → seat.new.answers ≡ seat.old.answers }
    ensures none { went ≡ On → seat.new.answers ≡ 0 }
    ensures answers { went ≢ On → replies_left seat.new ≡ replies_left seat.old }
    ensures no_device { failed_stop result ≡ 0 }
    ensures not_stopped { result ≢ Err Stopped }
{
    match went {
        Went::On => {
            seat.answers = 0;
            hand_over(bureau, level, operator, performed)?;
            Ok(())
        }
        Went::Cut => {
            hand_over(bureau, level, operator, performed)?;
            Ok(())
        }
        Went::Rests => Ok(()),
    }
}

/// Continues a level; the operator follows it, and a new halt is shown.
fn serve<M: Machine, O: Operator<M>>(
    alloc: Global,
    bureau: &mut M,
    level: LevelId,
    seat: &mut Seat,
    operator: &mut O,
    performed: &mut Performed,
) -> Result<Went, Stop>
    ensures goes { LevelGoesOn M.holds level performed.old performed.new bureau.old bureau.new result }
    ensures serves { OnOk result (Serves M.holds O.meets level seat.old.answers performed.old performed.new bureau.old bureau.new operator.old operator.new seat.old.is_shown seat.new.is_shown) }
    ensures uses { IfOk result (λ went. Uses level performed.old performed.new seat.old.left seat.new.left went) }
    ensures counts { OnOk result (Counts level performed.old performed.new seat.old.answers seat.new.answers) }
    ensures answers { IfOk result (λ went. went ≢ On → replies_left seat.new ≡ replies_left seat.old) }
    ensures after { OnOk result (GoesAfter M.after performed.old performed.new bureau.old bureau.new) }
    ensures kept { KeepsFrom M.keeps bureau.old bureau.new }
    ensures failed { M.failures bureau.new ≡ M.failures bureau.old + failed_stop result }
    ensures not_stopped { NeverStopped M.after performed.old bureau.old result }
{
    let went = go_on(bureau, level, seat.stride(), &mut seat.left, performed)?;
    follow(bureau, level, went, seat, operator, performed)?;
    show(alloc, bureau, level, seat, operator)?;
    Ok(went)
}

/// Gives a reply. One of two digits is one that no halt allows, and no script has. Whether it was taken.
fn give<M: Machine>(
    bureau: &mut M,
    level: LevelId,
    digit: u8,
    performed: &mut Performed,
) -> Result<bool, Stop>
    ensures goes { GivesReply M.holds level digit performed.old performed.new bureau.old bureau.new result }
    ensures allowed { IfOk result (λ is_taken. (w : World) (code : HaltCode) → M.holds bureau.old level w → waiting_spec w.halts ≡ Some code → is_allowed code digit ≡ is_taken) }
    ensures spends { OnOk result ((left : Bounds) → Spends level performed.old performed.new left left) }
    ensures after { OnOk result (GoesAfter M.after performed.old performed.new bureau.old bureau.new) }
    ensures kept { KeepsFrom M.keeps bureau.old bureau.new }
    ensures failed { M.failures bureau.new ≡ M.failures bureau.old + failed_stop result }
    ensures not_stopped { NeverStopped M.after performed.old bureau.old result }
{
    if digit > 9 {
        return Ok(false);
    }
    let entry = Entry {
        level,
        action: Action::Reply(digit),
    };
    match bureau.step(entry)? {
        Did::Acted => {
            performed.note(entry, 1)?;
            Ok(true)
        }
        Did::Idle => Ok(false),
        Did::Refused(_number) => Ok(false),
    }
}

/// Asks the operator for the reply to a level's halt, if one waits, and gives it. Whether it was taken.
fn ask<M: Machine, O: Operator<M>>(
    bureau: &mut M,
    level: LevelId,
    operator: &mut O,
    performed: &mut Performed,
) -> Result<bool, Stop>
    ensures goes { AsksLevel M.holds level performed.old performed.new bureau.old bureau.new result }
    ensures asks { IfOk result (λ is_taken. (answers : ℕ) → Asks M.holds O.meets level Rests answers performed.old performed.new bureau.old operator.old operator.new is_taken) }
    ensures spends { OnOk result ((left : Bounds) → Spends level performed.old performed.new left left) }
    ensures counts { IfOk result (λ is_taken. (answers : ℕ) → Counts level performed.old performed.new answers (with_reply is_taken answers)) }
    ensures after { OnOk result (GoesAfter M.after performed.old performed.new bureau.old bureau.new) }
    ensures kept { KeepsFrom M.keeps bureau.old bureau.new }
    ensures failed { M.failures bureau.new ≡ M.failures bureau.old + failed_stop result }
    ensures not_stopped { NeverStopped M.after performed.old bureau.old result }
{
    let Some(halt) = waiting(bureau, level) else {
        return Ok(false);
    };
    let Some(digit) = operator.reply(bureau, level, halt) else {
        return Ok(false);
    };
    give(bureau, level, digit, performed)
}

/// Whether a level that went so, and counts so many replies, isn't asked about.
fn isnt_asked(went: Went, answers: u16) -> bool
    ensures yes { result ≡ true → (went ≢ Rests) ⊎ (answers ≡ 65535) }
    ensures no { result ≡ false → (went ≡ Rests) × (answers ≢ 65535) }
{
    match went {
        Went::On => true,
        Went::Cut => true,
        Went::Rests => answers == MOST_ANSWERS,
    }
}

/// Asks for a level that is at rest. Whether a reply was taken.
fn ask_at_rest<M: Machine, O: Operator<M>>(
    bureau: &mut M,
    level: LevelId,
    went: Went,
    seat: &mut Seat,
    operator: &mut O,
    performed: &mut Performed,
) -> Result<bool, Stop>
    ensures goes { AsksLevel M.holds level performed.old performed.new bureau.old bureau.new result }
    ensures asks { IfOk result (λ is_taken. Asks M.holds O.meets level went seat.old.answers performed.old performed.new bureau.old operator.old operator.new is_taken) }
    ensures spends { OnOk result (Spends level performed.old performed.new seat.old.left seat.new.left) }
    ensures same_left { seat.new.left ≡ seat.old.left }
    ensures taken { IfOk result (λ is_taken. is_taken ≡ true → replies_left seat.new < replies_left seat.old) }
    ensures not_taken { IfOk result (λ is_taken. is_taken ≡ false → seat.new.answers ≡ seat.old.answers) }
    ensures shown_anew { IfOk result (λ is_taken. is_taken ≡ true → seat.new.is_shown ≡ false) }
    ensures still_shown { IfOk result (λ is_taken. is_taken ≡ false → seat.new.is_shown ≡ seat.old.is_shown) }
    ensures counts { OnOk result (Counts level performed.old performed.new seat.old.answers seat.new.answers) }
    ensures after { OnOk result (GoesAfter M.after performed.old performed.new bureau.old bureau.new) }
    ensures kept { KeepsFrom M.keeps bureau.old bureau.new }
    ensures failed { M.failures bureau.new ≡ M.failures bureau.old + failed_stop result }
    ensures not_stopped { NeverStopped M.after performed.old bureau.old result }
{
    if isnt_asked(went, seat.answers) {
        return Ok(false);
    }
    let is_taken = ask(bureau, level, operator, performed)?;
    if is_taken {
        seat.answers += 1;
        seat.is_shown = false;
        return Ok(true);
    }
    Ok(false)
}

/// Where a level was left at a halt.
fn end_at_halt(answers: u16) -> End
    ensures few { result ≡ Halted → answers ≢ 65535 }
    ensures out { result ≡ OutOfReplies → answers ≡ 65535 }
    ensures either { (result ≡ Halted) ⊎ (result ≡ OutOfReplies) }
{
    if answers == MOST_ANSWERS {
        End::OutOfReplies
    } else {
        End::Halted
    }
}

/// The point at which a level was left whose seat counts so many replies.
fn end_of<M: Machine>(bureau: &M, level: LevelId, went: Went, answers: u16) -> End
    ensures ends { (w : World) → M.holds bureau.now level w → (went ≡ Rests → IsLeft w) → EndsAs result w }
    ensures cut { result ≡ CutOff → went ≢ Rests }
    ensures halted { result ≡ Halted → (went ≡ Rests) × ((answers ≢ 65535) × ((w : World) → M.holds bureau.now level w → is_waiting w.halts ≡ true)) }
    ensures out { result ≡ OutOfReplies → answers ≡ 65535 }
{
    match went {
        Went::On => End::Cut,
        Went::Cut => End::Cut,
        Went::Rests => match waiting(bureau, level) {
            Some(_halt) => end_at_halt(answers),
            None => End::Done,
        },
    }
}

/// Whether one of two levels has gone on.
fn has_gone_on(one: Went, two: Went) -> bool
    ensures yes { result ≡ true → (one ≡ On) ⊎ (two ≡ On) }
    ensures no { result ≡ false → (one ≢ On) × (two ≢ On) }
{
    match (one, two) {
        (Went::On, _) => true,
        (_, Went::On) => true,
        _ => false,
    }
}

/// Continues each level; if no level can continue, the operator is asked. Answers where both were left, if no reply was taken.
fn round<M: Machine, O: Operator<M>>(
    alloc: Global,
    bureau: &mut M,
    operator: &mut O,
    seat_one: &mut Seat,
    seat_two: &mut Seat,
    performed: &mut Performed,
) -> Result<Option<Ends>, Stop>
    ensures ends { RoundEnds M.holds performed.old performed.new bureau.old bureau.new result }
    ensures sits { IfOk result (λ ends. SitsFrom M.holds O.meets
        (λ level entries. (first : List Entry) → RepliesLast level first performed.old (at_level seat_one.old.answers seat_two.old.answers level) → IsPastReply level first entries)
        (λ level entries. HasReached level performed.old entries (at_level seat_one.old.left seat_two.old.left level)) performed.old performed.new bureau.old operator.old operator.new seat_one.old.is_shown seat_two.old.is_shown seat_one.new.is_shown seat_two.new.is_shown ends) }
    ensures one_spends { OnOk result (Spends LevelId.One performed.old performed.new seat_one.old.left seat_one.new.left) }
    ensures two_spends { OnOk result (Spends LevelId.Two performed.old performed.new seat_two.old.left seat_two.new.left) }
    ensures one_cut { IfOk result (λ ends. IfSome ends (λ ends. ends.one ≡ CutOff → IsSpent seat_one.new.left)) }
    ensures two_cut { IfOk result (λ ends. IfSome ends (λ ends. ends.two ≡ CutOff → IsSpent seat_two.new.left)) }
    ensures one_counts { OnOk result (Counts LevelId.One performed.old performed.new seat_one.old.answers seat_one.new.answers) }
    ensures two_counts { OnOk result (Counts LevelId.Two performed.old performed.new seat_two.old.answers seat_two.new.answers) }
    ensures one_out { IfOk result (λ ends. IfSome ends (λ ends. ends.one ≡ OutOfReplies → seat_one.new.answers ≡ 65535)) }
    ensures two_out { IfOk result (λ ends. IfSome ends (λ ends. ends.two ≡ OutOfReplies → seat_two.new.answers ≡ 65535)) }
    ensures less_work { IfOk result (λ ends. ends ≡ None → work_left seat_one.new seat_two.new < work_left seat_one.old seat_two.old) }
    ensures after { OnOk result (GoesAfter M.after performed.old performed.new bureau.old bureau.new) }
    ensures kept { KeepsFrom M.keeps bureau.old bureau.new }
    ensures failed { M.failures bureau.new ≡ M.failures bureau.old + failed_stop result }
    ensures not_stopped { NeverStopped M.after performed.old bureau.old result }
{
    let one = serve(alloc, bureau, LevelId::One, seat_one, operator, performed)?;
    let two = serve(alloc, bureau, LevelId::Two, seat_two, operator, performed)?;
    if has_gone_on(one, two) {
        return Ok(None);
    }
    let first = ask_at_rest(bureau, LevelId::One, one, seat_one, operator, performed)?;
    if first {
        return Ok(None);
    }
    let second = ask_at_rest(bureau, LevelId::Two, two, seat_two, operator, performed)?;
    if second {
        return Ok(None);
    }
    Ok(Some(Ends {
        one: end_of(bureau, LevelId::One, one, seat_one.answers),
        two: end_of(bureau, LevelId::Two, two, seat_two.answers),
    }))
}

/// Continues both levels until neither can; then the operator is asked, and so on, until no reply is taken.
pub fn operate<M: Machine, O: Operator<M>>(
    alloc: Global,
    bureau: &mut M,
    operator: &mut O,
    bounds: Bounds,
    performed: &mut Performed,
) -> Result<Ends, Stop>
    // Each world has taken what was performed of its level, and each level was left so.
    ensures ends { DayEnds M.holds performed.old performed.new bureau.old bureau.new result }
    // Whatever the day was before, what happened since is a list of moments: each in its time, and each reply at its own question.
    ensures sits { IfOk result (λ ends. SitsFrom M.holds O.meets (λ level entries. IsPastReply level performed.old entries) (λ level entries. HasReached level performed.old entries bounds) performed.old performed.new bureau.old operator.old operator.new false false false false (Some ends)) }
    // One that was cut has taken as many turns as it may, or as many lines were drained.
    ensures one_cut { IfOk result (λ ends. ends.one ≡ CutOff → HasReached LevelId.One performed.old performed.new bounds) }
    ensures two_cut { IfOk result (λ ends. ends.two ≡ CutOff → HasReached LevelId.Two performed.old performed.new bounds) }
    // The last entries of one that is out of replies are 65,535 of them, with no turn and no line between them.
    ensures one_out { IfOk result (λ ends. ends.one ≡ OutOfReplies → HasReplied LevelId.One performed.old performed.new) }
    ensures two_out { IfOk result (λ ends. ends.two ≡ OutOfReplies → HasReplied LevelId.Two performed.old performed.new) }
    // What the machine's own relations say.
    ensures after { OnOk result (GoesAfter M.after performed.old performed.new bureau.old bureau.new) }
    ensures kept { KeepsFrom M.keeps bureau.old bureau.new }
    ensures failed { M.failures bureau.new ≡ M.failures bureau.old + failed_stop result }
    ensures not_stopped { NeverStopped M.after performed.old bureau.old result }
{
    let mut seat_one = Seat::new(bounds);
    let mut seat_two = Seat::new(bounds);
    loop {
        if let Some(ends) = round(
            alloc,
            bureau,
            operator,
            &mut seat_one,
            &mut seat_two,
            performed,
        )? {
            return Ok(ends);
        }
    }
}
