//! Runs by `run`.

use crate::bureau::decks::{FIVE_RECORDS, LISTER, THREE_RECORDS};
use crate::packs::new_pack;
use s3_bureau::{Outcome, RunFault, run};
use s3_labels::MountFault;
use std::alloc::Global;
use std::test::Fail;

/// What level 1 and level 2 have in a run.
#[derive(Clone, Copy)]
struct Decks {
    one: &'static [u8],
    two: &'static [u8],
}

/// Runs a script over a pack.
fn run_over(alloc: Global, pack: &[u8], decks: Decks, script: &[u8]) -> Result<Outcome, RunFault> {
    run(alloc, pack, decks.one, decks.two, script)
}

/// Whether a run has these reports and no halts, and leaves a pack of so many bytes.
fn has_reports(
    ran: Result<Outcome, RunFault>,
    one: &'static [u8],
    two: &'static [u8],
    length: usize,
) -> bool {
    match ran {
        Ok(outcome) => {
            outcome.one.report.as_slice() == one
                && outcome.two.report.as_slice() == two
                && outcome.one.halts.is_empty()
                && outcome.two.halts.is_empty()
                && outcome.pack.len() == length
        }
        Err(_) => false,
    }
}

/// The fault of a run.
fn fault_of(ran: Result<Outcome, RunFault>) -> Option<RunFault> {
    match ran {
        Ok(_) => None,
        Err(fault) => Some(fault),
    }
}

#[test]
fn the_card_lister_runs(rt: HostRuntime) -> Result<(), Fail> {
    let pack = new_pack(rt.alloc(), 1)?;
    let decks = Decks {
        one: LISTER,
        two: b"",
    };
    let ran = run_over(rt.alloc(), pack.as_slice(), decks, b"T1 8\n");
    assert!(rt; has_reports(ran, b"0001 01 ABC\n0001 02 DEF\n", b"", pack.len()));
    Ok(())
}

/// Each department makes a file DATA of its own and lists it.
#[test]
fn two_departments_run(rt: HostRuntime) -> Result<(), Fail> {
    let pack = new_pack(rt.alloc(), 2)?;
    let decks = Decks {
        one: FIVE_RECORDS,
        two: THREE_RECORDS,
    };
    let ran = run_over(rt.alloc(), pack.as_slice(), decks, b"T1 14\nT2 20\nT1 14\n");
    let one = b"0001 01 ANT\n0001 02 BEE\n0001 03 CAT\n0001 04 DOG\n0001 05 EEL\n";
    assert!(rt;
        has_reports(
            ran,
            one,
            b"0001 01 FOX\n0001 02 GNU\n0001 03 HEN\n",
            pack.len()
        )
    );
    Ok(())
}

/// A pack whose region of level 2 begins inside that of level 1.
fn meeting_pack(alloc: Global) -> Result<Vec<u8>, Fail> {
    let mut pack = new_pack(alloc, 2)?;
    if let Some(start) = pack.get_mut(19) {
        *start = 1;
    }
    Ok(pack)
}

/// A malformed line of the script is reported before the pack is looked at, and a pack is refused for its header, its regions or its size.
#[test]
fn a_run_is_refused(rt: HostRuntime) -> Result<(), Fail> {
    let decks = Decks {
        one: LISTER,
        two: b"",
    };
    let blank = vec![in rt.alloc(); 0u8; 168 * 256]?;
    let script = fault_of(run_over(rt.alloc(), b"", decks, b"T1 8\nT3\n"));
    let header = fault_of(run_over(rt.alloc(), blank.as_slice(), decks, b"T1 8\n"));
    let meeting = meeting_pack(rt.alloc())?;
    let regions = fault_of(run_over(rt.alloc(), meeting.as_slice(), decks, b"T1 8\n"));
    let short = fault_of(run_over(rt.alloc(), b"", decks, b"T1 8\n"));
    assert!(rt; matches!(script, Some(RunFault::Script { line: 2 })));
    assert!(rt; matches!(header, Some(RunFault::Mount(MountFault::BadHeader))));
    assert!(rt; matches!(regions, Some(RunFault::Mount(MountFault::BadRegions))));
    assert!(rt; matches!(short, Some(RunFault::Mount(MountFault::Short))));
    Ok(())
}
