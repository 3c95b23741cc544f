//! Turns of one level, by themselves.
ghost use Rattle.std.specs.Prelude.{◌≡◌};
ghost use Rattle.s3_labels.specs.Inner.Areas.{areas_on, IsReady as IsPackReady};
ghost use Rattle.s3_job_files.specs.Inner.Holds.{seen};
ghost use Rattle.s3_level.specs.Inner.Holds.{AreAll, IsReady};

use crate::bureau::decks::LISTER;
use crate::packs::new_pack;
use s3_cards::{Deck, LevelId};
use s3_labels::{Pack, Refused};
use s3_level::{Did, Level};
use s3_spool::Spool;
use s3_store::{MemoryStore, SectorFault, Sectors};
use std::alloc::Global;
use std::test::Fail;

/// Takes two turns of a level, one after the other.
fn two_turns<P: Sectors>(
    level: &mut Level,
    pack: &mut Pack<P>,
    spool: &mut Spool,
) -> Result<(Did, Did), SectorFault>
    requires ready { IsReady level.old (seen pack.old.areas (P.state pack.old.pool).contents) }
    requires blocks { AreAll spool.old }
{
    let first = level.turn(pack, spool)?;
    let second = level.turn(pack, spool)?;
    Ok((first, second))
}

/// Takes two turns of level 1 over a pack that was just mounted.
#[tactic(auto, using(crate::proofs::FirstTurns::ready_at_start))]
fn turns_over<P: Sectors>(
    alloc: Global,
    pack: &mut Pack<P>,
    deck: Deck,
) -> Result<(Did, Did), SectorFault>
    requires areas { pack.old.areas ≡ areas_on pack.old.areas.header (P.state pack.old.pool).contents }
    requires ready { IsPackReady pack.old.areas (P.state pack.old.pool).contents }
{
    let quota_one = pack.areas.quota(LevelId::One);
    let quota_two = pack.areas.quota(LevelId::Two);
    let mut spool = Spool::new(alloc, quota_one, quota_two)?;
    let mut level = Level::new(alloc, LevelId::One, deck);
    two_turns(&mut level, pack, &mut spool)
}

/// What two turns of level 1 with this deck come to, over a new pack.
fn turns_of(alloc: Global, deck: &[u8]) -> Result<(Did, Did), Fail> {
    let deck = Deck::read(alloc, deck)?;
    let store = MemoryStore::from_bytes(new_pack(alloc, 1)?);
    match Pack::over(alloc, store) {
        Ok(mut pack) => {
            let turns = turns_over(alloc, &mut pack, deck);
            let Pack { pool: _, areas: _ } = pack;
            Ok(turns?)
        }
        Err(Refused { pool: _, fault: _ }) => Err(Fail::new("the pack isn't mounted")),
    }
}

/// A turn begins a job, and the next one performs the job's request.
#[test]
fn turns_act(rt: HostRuntime) -> Result<(), Fail> {
    let turns = turns_of(rt.alloc(), LISTER)?;
    assert!(rt; matches!(turns, (Did::Acted, Did::Acted)));
    Ok(())
}

/// A turn is idle if a halt waits, such as the halt of a faulty job.
#[test]
fn turns_are_idle(rt: HostRuntime) -> Result<(), Fail> {
    let turns = turns_of(rt.alloc(), b"// RUN\n")?;
    assert!(rt; matches!(turns, (Did::Acted, Did::Idle)));
    Ok(())
}
