//! What the definitions say of themselves: worked lines.
ghost use Rattle.std.specs.Prelude.{◌≡◌, [], ◌∷◌, codes, Some, None};
ghost use Rattle.s3_cards.specs.Names.{name_of};
ghost use Rattle.s3_cards.specs.declared.retention.Retention.TheVariants.{Permanent, Scratch, Temporary};
ghost use Rattle.s3_slots.specs.declared.label.Organization.TheVariants.{Direct, Indexed, Sequential};
ghost use Rattle.s3_slots.specs.declared.slot.Slot.TheVariants.{Damaged, Free, Sound};
ghost use Rattle.s3_listing.specs.Inner.Lines.{slot_line};
ghost use Rattle.s3_listing.specs.Inner.Listing.{area_text};
ghost use Rattle.s3_listing.specs.Inner.Samples.{file};

/// Lines: of files, of damaged slots with and without a name, and none of a free slot.
pub fn slots_are_shown()
    ensures sequential { slot_line 1 (Sound (file Sequential Temporary 10 3)) ≡ codes "1 DATA     S T 0010 00000010 00000003\n" }
    ensures indexed { slot_line 0 (Sound (file Indexed Permanent 1024 0)) ≡ codes "0 DATA     I P 1024 00000010 00000000\n" }
    ensures direct { slot_line 2 (Sound (file Direct Scratch 96 10)) ≡ codes "2 DATA     D S 0096 00000010 00000010\n" }
    ensures damaged { slot_line 2 (Damaged (Some (name_of (0xc1 ∷ 0x7b ∷ [])))) ≡ codes "2 A#       DAMAGED\n" }
    ensures nameless { slot_line 0 (Damaged None) ≡ codes "0 ???????? DAMAGED\n" }
    ensures free { area_text 1 (Free ∷ Damaged None ∷ Free ∷ []) ≡ codes "1 ???????? DAMAGED\n" }
{}
