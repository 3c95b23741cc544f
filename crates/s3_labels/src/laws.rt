//! Laws and worked examples of new packs and migrated ones, and of what labels say.
ghost use Rattle.std.specs.Prelude.{ℕ, List, ◌≡◌, ◌≤◌, ◌/◌, [], ◌∷◌, slice_get, Some, None, Ok, Err};
ghost use Rattle.s3_cards.specs.declared.levels.LevelId.{LevelId};
ghost use Rattle.std.specs.List.{flat_map};
ghost use Rattle.s3_slots.specs.Inner.Samples.{all_ff, extents_under, named, no_label, ten, ten_bytes, two_files};
ghost use Rattle.s3_slots.specs.Header.{mounted, region_of};
ghost use Rattle.s3_slots.specs.Inner.Kept.{AreKept};
ghost use Rattle.s3_slots.specs.Labels.{file_bytes};
ghost use Rattle.s3_slots.specs.Slots.{slots_of, standing};
ghost use Rattle.s3_slots.specs.declared.header.Header.{Header};
ghost use Rattle.s3_slots.specs.declared.label.FileLabel.{FileLabel};
ghost use Rattle.s3_slots.specs.declared.slot.Slot.TheVariants.{Sound};
ghost use Rattle.s3_slots.specs.declared.slot.Standing.TheVariants.{Blocked, Present};
ghost use Rattle.s3_slots.specs.declared.header.Format.TheVariants.{First, Second};
ghost use Rattle.s3_labels.specs.Inner.Areas.{Areas, areas_on, region_at, slots_at, slots_in};
ghost use Rattle.s3_labels.specs.Areas.{IsLabelSector, area_of};
ghost use Rattle.s3_labels.specs.Contents.{contents_of};
ghost use Rattle.s3_labels.specs.Inner.Images.{header_bytes, image_bytes, in_second, master_slot, migrated, migrated_byte, migrated_bytes, moved_label, new_areas, new_header, regions_from, regions_of};
ghost use Rattle.s3_labels.specs.Untangled.{IsUntangled};
ghost use Rattle.s3_labels.specs.Inner.Labelled.{KeepsSaid, SaysSlots, slots_alone};
ghost use Rattle.s3_labels.specs.Inner.Samples.{bytes_of, first_sectors, labels_in, second_track};
ghost use Rattle.s3_labels.specs.declared.fault.ImageFault.TheVariants.{BadQuota, TooLarge};

/// The header of a new pack, how large it may be, and its refusals in their order.
pub fn new_packs_have_their_regions()
    ensures equal { header_bytes (regions_of 10 10 10 64 64) ≡ ten_bytes }
    ensures unequal { header_bytes (regions_of 5 20 10 100 28) ≡ 0x53 ∷ 0x33 ∷ 0x50 ∷ 0x41 ∷ 0x43 ∷ 0x4b ∷ 0x30 ∷ 0x32 ∷ 0x03 ∷ 0xf0 ∷ 0x00 ∷ 0xa8 ∷ 0x00 ∷ 0x78 ∷ 0x01 ∷ 0x20 ∷ 0x01 ∷ 0xe0 ∷ 0x03 ∷ 0x00 ∷ 0x00 ∷ 0xf0 ∷ 0x64 ∷ 0x1c ∷ [] }
    ensures largest { new_header 2000 500 223 64 64 ≡ Ok (regions_of 2000 500 223 64 64) }
    ensures sectors { (regions_of 2000 500 223 64 64).total ≡ 65520 }
    ensures too_large { new_header 2000 500 224 64 64 ≡ Err TooLarge }
    ensures quotas { new_header 1 1 1 64 65 ≡ Err BadQuota }
    ensures none { new_header 1 1 1 128 0 ≡ Err BadQuota }
    ensures first { new_header 2000 500 224 0 64 ≡ Err BadQuota }
{}

/// Nothing after the labels changes when a pack is migrated. A slot with ff after its fields stays as it was.
pub fn files_stay_where_a_pack_is_migrated()
    ensures behind { (at byte : ℕ) → 6400 ≤ at → migrated_byte at byte ≡ byte }
    ensures format { migrated_byte 7 0x31 ≡ 0x32 }
    ensures slot { slots_of Second second_track 1 (labels_in (migrated_bytes 0 (bytes_of first_sectors))) ≡ slots_of First second_track 1 first_sectors }
    ensures sound { extents_under (standing (named 0xc1) (slots_of First second_track 1 first_sectors)) ≡ second_track ∷ [] }
{}

/// A mount of a migrated pack finds the same regions with 64 lines a level, and each slot as it was; the bytes of each
/// file are the same.
pub fn a_migrated_pack_keeps_its_files()
    ensures header { (old new : List ℕ) (header : Header) → mounted (contents_of old) ≡ Ok header → migrated old ≡ Ok new → mounted (contents_of new) ≡ Ok (in_second header) }
    ensures slots { (old new : List ℕ) (header : Header) → mounted (contents_of old) ≡ Ok header → migrated old ≡ Ok new → areas_on (in_second header) (contents_of new) ≡ record (areas_on header (contents_of old)) { header = in_second header } }
    ensures files { (old new : List ℕ) (header : Header) (area i : ℕ) (label : FileLabel) → mounted (contents_of old) ≡ Ok header → migrated old ≡ Ok new → slice_get (slots_in area (areas_on header (contents_of old))) i ≡ Some (Sound label) → file_bytes label (contents_of new) ≡ file_bytes label (contents_of old) }
{}

/// A mount of a new pack finds its regions, and all slots free.
pub fn a_new_pack_is_empty()
    ensures header { (new : List ℕ) (masters level_one level_two quota_one quota_two : ℕ) → image_bytes None masters level_one level_two quota_one quota_two ≡ Ok new → mounted (contents_of new) ≡ Ok (regions_of masters level_one level_two quota_one quota_two) }
    ensures slots { (new : List ℕ) (masters level_one level_two quota_one quota_two : ℕ) → image_bytes None masters level_one level_two quota_one quota_two ≡ Ok new → areas_on (regions_of masters level_one level_two quota_one quota_two) (contents_of new) ≡ new_areas (regions_of masters level_one level_two quota_one quota_two) [] }
{}

/// A mount of a new pack from an old one finds as masters the sound files of that one's level 1, in slot order and with the
/// same bytes, and the slots of both levels free.
pub fn a_new_pack_has_an_old_ones_files()
    ensures header { (old new : List ℕ) (from : Header) (masters level_one level_two quota_one quota_two : ℕ) → mounted (contents_of old) ≡ Ok from → image_bytes (Some old) masters level_one level_two quota_one quota_two ≡ Ok new → mounted (contents_of new) ≡ Ok (regions_from from level_one level_two quota_one quota_two) }
    ensures slots { (old new : List ℕ) (from : Header) (masters level_one level_two quota_one quota_two : ℕ) → mounted (contents_of old) ≡ Ok from → image_bytes (Some old) masters level_one level_two quota_one quota_two ≡ Ok new → areas_on (regions_from from level_one level_two quota_one quota_two) (contents_of new) ≡ new_areas (regions_from from level_one level_two quota_one quota_two) (flat_map (master_slot from.level_one) (areas_on from (contents_of old)).level_one) }
    ensures masters { (old new : List ℕ) (from : Header) (masters level_one level_two quota_one quota_two i : ℕ) (label : FileLabel) → mounted (contents_of old) ≡ Ok from → image_bytes (Some old) masters level_one level_two quota_one quota_two ≡ Ok new → slice_get (areas_on from (contents_of old)).level_one i ≡ Some (Sound label) → standing label.name (areas_on (regions_from from level_one level_two quota_one quota_two) (contents_of new)).masters ≡ Present (moved_label from.level_one label) }
    ensures files { (old new : List ℕ) (from : Header) (masters level_one level_two quota_one quota_two i : ℕ) (label : FileLabel) → mounted (contents_of old) ≡ Ok from → image_bytes (Some old) masters level_one level_two quota_one quota_two ≡ Ok new → slice_get (areas_on from (contents_of old)).level_one i ≡ Some (Sound label) → file_bytes (moved_label from.level_one label) (contents_of new) ≡ file_bytes label (contents_of old) }
{}

/// If a mount finds no slot damaged for an overlap or a repeated label alone, each label by itself gives its slot as the mount
/// finds it. If the labels give slots whose files don't overlap, a mount finds those slots. What a label gives depends only on
/// its own sector.
pub fn labels_say_their_slots()
    ensures mounted { (level : LevelId) (header : Header) (contents : List (List ℕ)) → IsUntangled header.format (region_of level header) (area_of level) contents → SaysSlots level (areas_on header contents) contents }
    ensures judged { (level : LevelId) (areas : Areas) (contents : List (List ℕ)) → AreKept (region_at level areas) (slots_at level areas) → SaysSlots level areas contents → slots_of areas.header.format (region_at level areas) (area_of level) contents ≡ slots_at level areas }
    ensures kept { (level : LevelId) (areas : Areas) (old new : List (List ℕ)) → ((n : ℕ) → IsLabelSector (area_of level) n → slice_get new n ≡ slice_get old n) → KeepsSaid level areas old areas new }
{}

/// A well-formed label by itself gives a sound slot. A label with more records than it has space for, or with a first byte other
/// than 0 and 1, gives a damaged slot. A file that overlaps an earlier one is sound by its label alone, but damaged in its area.
pub fn each_label_says_its_own_slot()
    ensures sound { extents_under (standing (named 0xc2) (slots_alone Second ten.level_one 1 (two_files 24 24 10))) ≡ record { start = 432; sectors = 24 } ∷ [] }
    ensures too_many { standing (named 0xc2) (slots_alone Second ten.level_one 1 (two_files 24 24 11)) ≡ Blocked }
    ensures elsewhere { standing (named 0xc2) (slots_alone Second ten.level_two 1 (two_files 24 24 0)) ≡ Blocked }
    ensures marked { slots_alone Second ten.level_two 2 all_ff ≡ no_label }
    ensures entangled { extents_under (standing (named 0xc2) (slots_alone Second ten.level_one 1 (two_files 48 24 0))) ≡ record { start = 432; sectors = 24 } ∷ [] }
    ensures judged { standing (named 0xc2) (slots_of Second ten.level_one 1 (two_files 48 24 0)) ≡ Blocked }
{}
