//! What the definitions say of themselves.
ghost use Rattle.std.specs.Prelude.{◌≡◌, None, Some, codes};
ghost use Rattle.s3_cards.specs.declared.levels.LevelId.TheVariants.{One, Two};
ghost use Rattle.s3_replies.specs.declared.typed.Typed.TheVariants.{Help, Lines, Nothing, Reply, Stop, Unknown};
ghost use Rattle.s3_replies.specs.Inner.Rules.{AnswersAreAllowed};
ghost use Rattle.s3_replies.specs.Inner.Typed.{typed_of};

/// Whatever the rules are, the digit of one that answers is one that the halt allows.
#[tactic(auto, using(crate::proofs::Answering::allows))]
pub fn answers_are_allowed()
    ensures { AnswersAreAllowed }
{}

/// What some lines say, as docs/OPERATING.md has them.
#[tactic(auto, unfolding(crate::specs::Inner::Words::words))]
pub fn lines_say()
    ensures digit { typed_of (codes "0") ≡ Reply None 0 }
    ensures level { typed_of (codes "2 3") ≡ Reply (Some Two) 3 }
    ensures comment { typed_of (codes "  1  9 # not allowed, and asked again") ≡ Reply (Some One) 9 }
    ensures help { typed_of (codes "?") ≡ Help }
    ensures stop { typed_of (codes "Stop") ≡ Stop }
    ensures lines { typed_of (codes "lines") ≡ Lines None 10 }
    ensures more { typed_of (codes "lines 30") ≡ Lines None 30 }
    ensures both { typed_of (codes "lines 2 30") ≡ Lines (Some Two) 30 }
    ensures nothing { typed_of (codes "# only a comment") ≡ Nothing }
    ensures too_many { typed_of (codes "1 2 3") ≡ Unknown }
    ensures no_level { typed_of (codes "3 0") ≡ Unknown }
    ensures no_digit { typed_of (codes "22") ≡ Unknown }
{}
