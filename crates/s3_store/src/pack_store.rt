//! A store of sectors, by what it contains and how often it has failed.
ghost use Rattle.std.specs.Prelude.{◌≡◌, ◌+◌, ◌<◌, ℕ, List, length, slice_get, slice_set, Some, OnOk, OnErr};
ghost use Rattle.s3_store.specs.Inner.Failures.{failed_calls};

/// The refusal of a store's call: the transfer failed.
#[derive(Clone, Copy, PartialEq, Eq)]
pub struct StoreFault;

/// Sectors of 256 bytes on some device, numbered from 0.
///
/// A call that fails has changed no sector.
pub trait PackStore {
    /// The sectors, each as a read would give it.
    ghost contents: { Self → List (List ℕ) };

    /// How many calls have failed.
    ghost failures: { Self → ℕ };

    /// What one read or write may make of the store: anything, unless a store says more.
    ghost steps_to: { Self → Self → Type 0 } = { λ _ _. Unit {0} };

    /// How many sectors there are, which never changes.
    fn sectors(&self) -> u16
        ensures { result ≡ length (contents self.now) };

    /// Reads sector `n`, which must be there. No sector changes; refused if the transfer fails.
    fn read(&mut self, n: u16, bytes: &mut [u8; 256]) -> Result<(), StoreFault>
        requires { n < length (contents self.old) }
        ensures ok { OnOk result (slice_get (contents self.old) n ≡ Some bytes.new) }
        ensures contents { contents self.new ≡ contents self.old }
        ensures failures { failures self.new ≡ failures self.old + failed_calls result }
        ensures step { steps_to self.old self.new };

    /// Sets sector `n`, which must be there, to these bytes. Refused if the transfer fails; then no sector changes.
    fn write(&mut self, n: u16, bytes: &[u8; 256]) -> Result<(), StoreFault>
        requires { n < length (contents self.old) }
        ensures ok { OnOk result (contents self.new ≡ slice_set (contents self.old) n bytes.now) }
        ensures err { OnErr result (contents self.new ≡ contents self.old) }
        ensures failures { failures self.new ≡ failures self.old + failed_calls result }
        ensures step { steps_to self.old self.new };
}
