//! The operator of a desk.
ghost use Rattle.std.specs.Prelude.{OnOk};
ghost use Rattle.s3_operator.specs.Inner.Halts.{halt_of};
ghost use Rattle.s3_desk.specs.Inner.Events.{Asked, Event, Followed, Shown};

use crate::machine::Machine;
use s3_bureau::Halt;
use s3_cards::{LevelId, PrintLine};
use s3_replay::Performed;
use std::alloc::AllocError;

/// What both levels have printed by the time that one of them has gone on.
#[derive(Clone, Copy)]
pub struct Papers<'a> {
    /// The lines of level 1, in order: all that were drained.
    pub one: &'a [PrintLine],
    /// The lines of level 2.
    pub two: &'a [PrintLine],
    /// Level 1 has no job left and no line queued, and has shown no halt: it prints and shows nothing more.
    pub is_one_over: bool,
}

/// The operator of a desk. No call changes what is operated.
pub trait Operator<M: Machine> {
    /// By this it may come from one state to the other.
    ghost meets: { Self → Event → Self → Type 0 };

    /// A level has gone on, by turns or by drained lines. The operator gets all lines that both levels have printed by then, and all
    /// entries that were performed by then: those of the calls before, and more after them. It follows before anything else is
    /// performed, shown or asked. A turn that ends a job is followed before the level takes another one, and so is the level's first
    /// turn after a reply.
    fn follow(
        &mut self,
        machine: &M,
        level: LevelId,
        papers: Papers<'_>,
        performed: &Performed,
    ) -> Result<(), AllocError>
        ensures { OnOk result (meets self.old (Followed level papers.entry.one.now papers.entry.two.now papers.entry.is_one_over performed.now) self.new) };

    /// A halt now waits in a level: it is shown once, as it comes, with what the pack has about that level.
    fn show(
        &mut self,
        machine: &M,
        level: LevelId,
        halt: &Halt,
        evidence: &M::Evidence,
    ) -> Result<(), AllocError>
        requires { M.about machine.now level evidence.now }
        ensures { meets self.old (Shown level (halt_of halt.now)) self.new };

    /// The reply to a halt that waits in a level; without one the halt is left waiting. It is asked for only if no level can continue.
    /// A reply that the halt allows is performed at once, before anything else; any other counts as none.
    fn reply(&mut self, machine: &M, level: LevelId, halt: &Halt) -> Option<u8>
        ensures { meets self.old (Asked level (halt_of halt.now) result) self.new };
}
