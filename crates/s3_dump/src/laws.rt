//! A dump, and the pack that is restored from it.
ghost use Rattle.std.specs.Prelude.{◌≡◌, ℕ, List, Some};
ghost use Rattle.s3_dump.specs.Inner.Dumps.{IsNoDump, restored};

/// What is restored from the dump of a pack has the bytes of that pack, and no line of the dump is wrong.
pub fn a_dump_is_restored()
    ensures same { (text pack again : List ℕ) → restored text ≡ Some pack → restored text ≡ Some again → again ≡ pack }
    ensures whole { (text pack : List ℕ) (line : ℕ) → restored text ≡ Some pack → IsNoDump text line → ⊥ }
{}
