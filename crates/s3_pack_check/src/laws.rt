//! What the definitions say of themselves.
ghost use Rattle.std.specs.Prelude.{ℕ, List, ◌≡◌, []};
ghost use Rattle.s3_labels.specs.Inner.Areas.{Areas};
ghost use Rattle.s3_pack_check.specs.Inner.Wrongs.{IsSoundPack, wrongs_on};

/// Nothing is reported of a pack exactly if each of its used slots is sound and each index good.
pub fn nothing_is_told_of_a_sound_pack()
    ensures sound { (areas : Areas) (contents : List (List ℕ)) → IsSoundPack areas contents → wrongs_on areas contents ≡ [] }
    ensures nothing { (areas : Areas) (contents : List (List ℕ)) → wrongs_on areas contents ≡ [] → IsSoundPack areas contents }
{}
