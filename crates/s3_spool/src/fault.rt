//! Why a queue refuses a call.
ghost use Rattle.std.specs.Prelude.{◌≡◌};
ghost use Rattle.s3_spool.specs.declared.fault.SpoolFault.TheVariants.{Sectors as SectorsFault};

use s3_store::SectorFault;

/// Why a queue of printed lines refuses a call.
#[derive(Clone, Copy)]
pub enum SpoolFault {
    /// The level has as many lines queued as its quota allows.
    QuotaFull,
    /// The level has no line queued.
    Empty,
    /// A transfer failed, or memory was refused.
    Sectors(SectorFault),
}

impl From<SectorFault> for SpoolFault {
    ghost from_gives = { λ fault e. e ≡ SectorsFault fault };

    fn from(fault: SectorFault) -> Self {
        SpoolFault::Sectors(fault)
    }
}
