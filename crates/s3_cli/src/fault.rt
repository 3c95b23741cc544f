//! What the program refuses, and how it says so.

ghost use Rattle.std.specs.Prelude.{◌≡◌};
ghost use Rattle.s3_cli.specs.Inner.Faults.{status_of};
ghost use Rattle.s3_cli.specs.Inner.Packs.{fault_of_list};
ghost use Rattle.s3_bureau.specs.declared.run_fault.RunFault.TheVariants.{NoMemory as RunNoMemory};
ghost use Rattle.s3_cli.specs.declared.fault.SessionFault.TheVariants.{Run};

use s3_bureau::{RunFault, mount_number};
use s3_labels::{ImageFault, MigrateFault};
use s3_listing::ListFault;
use std::alloc::AllocError;
use std::io;
use std::io::Write;
use thiserror::Error;

/// Why a session did nothing, or not all that it was to do.
#[derive(Clone, Copy, Debug, Error)]
pub enum SessionFault {
    /// The run itself was refused.
    #[error(transparent)]
    Run(RunFault),
    /// A marker is missing or out of order, or the input is too long.
    #[error("input")]
    Input,
    /// A read or the write failed.
    #[error("file")]
    File,
}

impl From<AllocError> for SessionFault {
    ghost from_gives = { λ _ fault. fault ≡ Run RunNoMemory };

    fn from(_error: AllocError) -> SessionFault {
        SessionFault::Run(RunFault::NoMemory)
    }
}

impl From<RunFault> for SessionFault {
    ghost from_gives = { λ reason fault. fault ≡ Run reason };

    fn from(reason: RunFault) -> SessionFault {
        SessionFault::Run(reason)
    }
}

impl From<ListFault> for SessionFault {
    ghost from_gives = { λ reason fault. fault ≡ fault_of_list reason };

    fn from(reason: ListFault) -> SessionFault {
        match reason {
            ListFault::Mount(fault) => SessionFault::Run(RunFault::Mount(fault)),
            ListFault::NoMemory => SessionFault::Run(RunFault::NoMemory),
            ListFault::File => SessionFault::File,
        }
    }
}

/// Why the program ended without its work done.
#[derive(Clone, Copy, Debug, Error)]
pub enum CliFault {
    /// `run` or `list` was refused, or a file failed.
    #[error(transparent)]
    Session(SessionFault),
    /// `init` was refused.
    #[error("{}", image_words(*.0))]
    Image(ImageFault),
    /// `migrate` was refused.
    #[error("{}", migrate_words(*.0))]
    Migrate(MigrateFault),
}

/// What a refused pack's line says.
#[derive(Clone, Copy, Debug, Error)]
enum PackWords {
    #[error("mount {0}")]
    Mount(u8),
    #[error("size")]
    Size,
    #[error("quota")]
    Quota,
    #[error("format")]
    Format,
    #[error("memory")]
    Memory,
}

fn image_words(fault: ImageFault) -> PackWords {
    match fault {
        ImageFault::Mount(fault) => PackWords::Mount(mount_number(fault)),
        ImageFault::TooLarge => PackWords::Size,
        ImageFault::BadQuota => PackWords::Quota,
        ImageFault::NoMemory => PackWords::Memory,
    }
}

fn migrate_words(fault: MigrateFault) -> PackWords {
    match fault {
        MigrateFault::Mount(fault) => PackWords::Mount(mount_number(fault)),
        MigrateFault::AlreadyNew => PackWords::Format,
        MigrateFault::NoMemory => PackWords::Memory,
    }
}

impl CliFault {
    /// The exit status of the refusal: 3 for a file, an input or an output that failed, else 1.
    pub fn status(&self) -> u8
        ensures { result ≡ status_of self.now }
    {
        match self {
            CliFault::Session(SessionFault::File) => 3,
            CliFault::Session(_) | CliFault::Image(_) | CliFault::Migrate(_) => 1,
        }
    }
}

/// Writes a refusal's line, `bureau: ` and its text, and returns its exit status whatever the writer answers.
pub fn tell<W: Write>(writer: &mut W, fault: &CliFault) -> u8
    ensures { result ≡ status_of fault.now }
{
    let _ = write_line(writer, fault);
    fault.status()
}

fn write_line<W: Write>(writer: &mut W, fault: &CliFault) -> io::Result<()> {
    writeln!(writer, "bureau: {fault}")
}
