//! Entries that are taken at once.
ghost use Rattle.std.specs.Prelude.{◌≡◌, ◌≤◌};
ghost use Rattle.s3_solo.specs.declared.action.Did.TheVariants.{Acted};
ghost use Rattle.s3_level.specs.Inner.Holds.{once as once_spec};

use s3_solo::Did;
use s3_store::SectorFault;

/// So many entries of a level, one after the other, that did the same.
#[derive(Clone, Copy)]
pub struct Taken {
    /// What each of them did.
    pub did: Did,
    /// How many they are, one at least.
    pub times: u16,
}

impl Taken {
    /// So many entries that acted.
    pub fn acted(times: u16) -> Taken
        ensures { result ≡ record { did = Acted; times = times } }
    {
        Taken {
            did: Did::Acted,
            times,
        }
    }

    /// These entries; or, if other entries acted right before them, `acted` in number, only those.
    pub fn behind(self, acted: u16) -> Taken
        ensures none { acted ≡ 0 → result ≡ self }
        ensures some { 1 ≤ acted → result ≡ record { did = Acted; times = acted } }
    {
        if acted == 0 {
            return self;
        }
        Taken::acted(acted)
    }

    /// One entry with this answer, or its fault.
    pub fn once(answer: Result<Did, SectorFault>) -> Result<Taken, SectorFault>
        ensures { result ≡ once_spec answer }
    {
        match answer {
            Ok(did) => Ok(Taken { did, times: 1 }),
            Err(fault) => Err(fault),
        }
    }
}
