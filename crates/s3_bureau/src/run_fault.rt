//! Why a run has no outcome.

ghost use Rattle.std.specs.Prelude.{◌≡◌};
ghost use Rattle.s3_bureau.specs.Inner.Faults.{mount_number as mount_number_spec};

use super::script::ScriptFault;
use s3_slots::MountFault;
use std::alloc::AllocError;
use thiserror::Error;

/// Why a run has no outcome.
#[derive(Clone, Copy, Debug, Error)]
pub enum RunFault {
    /// The script has an ill-formed line; the first one's number, from 1.
    #[error("script {line}")]
    Script { line: usize },
    /// The pack isn't mounted, for what its header and its size say.
    #[error("mount {}", mount_number(*.0))]
    Mount(MountFault),
    /// A transfer of the store failed.
    #[error("device")]
    Device,
    /// Memory ran out: a growth was refused.
    #[error("memory")]
    NoMemory,
}

/// The number of a mount's refusal, from 1, as the line `bureau: mount N` has it (docs/RUNNING.md, "Refusals").
pub fn mount_number(fault: MountFault) -> u8
    ensures { result ≡ mount_number_spec fault }
{
    match fault {
        MountFault::BadHeader => 1,
        MountFault::BadRegions => 2,
        MountFault::Short => 3,
    }
}

impl From<AllocError> for RunFault {
    ghost use Rattle.std.specs.Prelude.{◌≡◌};
    ghost use Rattle.s3_bureau.specs.declared.run_fault.RunFault.TheVariants.{NoMemory};

    ghost from_gives = { λ _ fault. fault ≡ NoMemory };

    fn from(_: AllocError) -> RunFault {
        RunFault::NoMemory
    }
}

impl From<ScriptFault> for RunFault {
    ghost use Rattle.std.specs.Prelude.{◌≡◌};
    ghost use Rattle.s3_bureau.specs.Inner.Faults.{fault_of_script};

    ghost from_gives = { λ fault given. given ≡ fault_of_script fault };

    fn from(fault: ScriptFault) -> RunFault {
        match fault {
            ScriptFault::NoMemory => RunFault::NoMemory,
            ScriptFault::Line(line) => RunFault::Script { line },
        }
    }
}
