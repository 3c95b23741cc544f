//! A pack.
ghost use Rattle.std.specs.Prelude.{◌≡◌, ◌≢◌, ◌≤◌, ◌<◌, ◌+◌, ℕ, length, slice_get, replicate, Ok, Err, Some, true, OnOk, IsOk, ◌⊎◌, IfOk, IfErr};
ghost use Rattle.std.specs.List.{All, position_from};
ghost use Rattle.s3_store.specs.Inner.State.{KeepsContents, ChangesWithin};
ghost use Rattle.s3_slots.specs.Header.{mounted};
ghost use Rattle.s3_slots.specs.Labels.{is_direct, sectors_of};
ghost use Rattle.s3_slots.specs.Slots.{standing, are_extents, bears, slot_bytes};
ghost use Rattle.s3_slots.specs.Inner.Kept.{IsOfPack};
ghost use Rattle.s3_slots.specs.Placement.{free_slot};
ghost use Rattle.s3_slots.specs.Inner.Making.{found, planned, with_count, without_label, IsNewFile};
ghost use Rattle.s3_slots.specs.Making.{made, new_label, dropped};
ghost use Rattle.s3_labels.specs.Inner.Areas.{slots_at, slots_in, region_at, with_slots, areas_on, IsReady, IsRefusal, failed_by, failed_mount, IsChangeRefusal, IsOfSectors, failed_change, IsOfMake, AreFilled, IsPlanRefusal, MayHave, with_count_bytes};
ghost use Rattle.s3_labels.specs.Areas.{area_of, IsLabelSector};
ghost use Rattle.s3_labels.specs.Inner.AreaNumbers.{area_number};
ghost use Rattle.s3_labels.specs.Inner.Labelled.{KeepsSaid};
ghost use Rattle.s3_labels.specs.Inner.Written.{IsWritten, WritesSlot};

use crate::area::Area;
use crate::areas::{AreaSlots, copy_of};
use crate::fault::{ChangeFault, PlanFault, Refusal};
use crate::reading::{read_at, read_slots};
use crate::writing::{clear_slot, write_count, write_made, write_records};
use s3_cards::ebcdic::BLANK;
use s3_cards::{LevelId, Name};
use s3_pool::Pool;
use s3_slots::{
    FileLabel, Header, LabelFault, MountFault, NewFile, Slot, Standing, accept, make_in,
    standing_of,
};
use s3_store::{PackStore, SectorFault, Sectors};
use std::alloc::{AllocFailed, Global};

/// Sectors that aren't mounted as a pack, with the cause.
pub struct Refused<P: Sectors> {
    /// The sectors, handed back.
    pub pool: P,
    /// Why the sectors aren't mounted.
    pub fault: Refusal,
}

/// A store that isn't mounted, with the cause.
pub struct RefusedStore<S: PackStore> {
    /// The store, as it was.
    pub store: S,
    /// Why the store isn't mounted.
    pub fault: Refusal,
}

/// A pack whose slots have been judged.
pub struct Pack<P: Sectors> {
    /// The sectors of the pack. The calls of a pack alone change sectors 0 to 24, its header and labels.
    pub pool: P,
    /// The header and the slots of the pack, as they were judged at the mount and have been changed since.
    pub areas: AreaSlots,
}

/// Reads the header of a pack.
pub fn read_header<P: Sectors>(pool: &mut P) -> Result<Header, Refusal>
    ensures ok { IfOk result (λ header. mounted (P.state pool.old).contents ≡ Ok header) }
    ensures room { IfOk result (λ header. 168 ≤ length (P.state pool.old).contents) }
    ensures few { length (P.state pool.old).contents ≤ 65535 }
    ensures err { IfErr result (IsRefusal (mounted (P.state pool.old).contents)) }
    ensures keeps { KeepsContents (P.state pool.old) (P.state pool.new) }
    ensures failures { (P.state pool.new).failures ≡ (P.state pool.old).failures + failed_mount result }
{
    let sectors = pool.sector_count();
    if sectors < 168 {
        return Err(Refusal::BadPack(MountFault::Short));
    }
    let bytes = read_at(pool, 0)?;
    match accept(sectors, &bytes) {
        Ok(header) => Ok(header),
        Err(fault) => Err(Refusal::BadPack(fault)),
    }
}

/// Reads the header and the slots of a pack.
fn read_areas<P: Sectors>(alloc: Global, pool: &mut P) -> Result<AreaSlots, Refusal>
    ensures ok { IfOk result (λ areas. mounted (P.state pool.old).contents ≡ Ok areas.header) }
    ensures areas { IfOk result (λ areas. areas ≡ areas_on areas.header (P.state pool.old).contents) }
    ensures few { length (P.state pool.old).contents ≤ 65535 }
    ensures err { IfErr result (IsRefusal (mounted (P.state pool.old).contents)) }
    ensures keeps { KeepsContents (P.state pool.old) (P.state pool.new) }
    ensures failures { (P.state pool.new).failures ≡ (P.state pool.old).failures + failed_mount result }
{
    let header = read_header(pool)?;
    let masters = read_slots(alloc, pool, header.format, header.masters, Area::Masters)?;
    let level_one = read_slots(
        alloc,
        pool,
        header.format,
        header.level_one,
        Area::Level(LevelId::One),
    )?;
    let level_two = read_slots(
        alloc,
        pool,
        header.format,
        header.level_two,
        Area::Level(LevelId::Two),
    )?;
    Ok(AreaSlots::of(header, masters, level_one, level_two))
}

impl<S: PackStore> Pack<Pool<S>> {
    /// Mounts the pack on a store, over a new pool. Refused by its header, or if memory or a transfer fails; then the store is
    /// given back as it was.
    #[tactic(auto, using(crate::proofs::Mounts::mounted_ready, crate::proofs::Mounts::given_back))]
    pub fn mount(alloc: Global, store: S) -> Result<Self, RefusedStore<S>>
        ensures ok { IfOk result (λ pack. mounted (S.contents store) ≡ Ok pack.areas.header) }
        ensures areas { IfOk result (λ pack. pack.areas ≡ areas_on pack.areas.header (S.contents store)) }
        ensures contents { IfOk result (λ pack. pack.pool.contents ≡ S.contents store) }
        ensures stored { IfOk result (λ pack. pack.pool.stored ≡ S.contents store) }
        ensures ready { IfOk result (λ pack. IsReady pack.areas pack.pool.contents) }
        ensures failures { IfOk result (λ pack. pack.pool.failures ≡ S.failures store) }
        ensures refused { IfErr result (λ refused. IsRefusal (mounted (S.contents store)) refused.fault) }
        ensures back { IfErr result (λ refused. S.contents refused.store ≡ S.contents store) }
        ensures failed { IfErr result (λ refused. S.failures refused.store ≡ S.failures store + failed_by refused.fault) }
    {
        let pool = match Pool::new(alloc, store) {
            Ok(pool) => pool,
            Err(AllocFailed { value }) => {
                return Err(RefusedStore {
                    store: value,
                    fault: Refusal::Sectors(SectorFault::NoMemory),
                });
            }
        };
        match Pack::over(alloc, pool) {
            Ok(pack) => Ok(pack),
            Err(Refused { pool, fault }) => Err(RefusedStore {
                store: pool.into_store(),
                fault,
            }),
        }
    }
}

impl<P: Sectors> Pack<P> {
    /// Mounts the pack on these sectors, with its slots as `s3_slots` classifies them. Refused by its header, or if memory or a
    /// transfer fails; then the sectors are given back as they were.
    #[tactic(auto, using(crate::proofs::Mounts::mounted_ready))]
    pub fn over(alloc: Global, mut pool: P) -> Result<Self, Refused<P>>
        ensures ok { IfOk result (λ pack. mounted (P.state pool).contents ≡ Ok pack.areas.header) }
        ensures areas { IfOk result (λ pack. pack.areas ≡ areas_on pack.areas.header (P.state pool).contents) }
        ensures keeps { IfOk result (λ pack. KeepsContents (P.state pool) (P.state pack.pool)) }
        ensures ready { IfOk result (λ pack. IsReady pack.areas (P.state pack.pool).contents) }
        ensures refused { IfErr result (λ refused. IsRefusal (mounted (P.state pool).contents) refused.fault) }
        ensures back { IfErr result (λ refused. KeepsContents (P.state pool) (P.state refused.pool)) }
        ensures failures { IfOk result (λ pack. (P.state pack.pool).failures ≡ (P.state pool).failures) }
        ensures failed { IfErr result (λ refused. (P.state refused.pool).failures ≡ (P.state pool).failures + failed_by refused.fault) }
    {
        match read_areas(alloc, &mut pool) {
            Ok(areas) => Ok(Pack { pool, areas }),
            Err(fault) => Err(Refused { pool, fault }),
        }
    }

    /// What slot `i`, 0 to 31, of an area has.
    pub fn slot(&self, area: Area, i: usize) -> &Slot
        requires { i < 32 }
        ensures { slice_get (slots_in (area_number area) self.now.areas) i ≡ Some result.now }
    {
        self.areas.slot(area, i)
    }

    /// The file of a label for a level, one of its own before one of the masters', and whether it is a master's. Refused with
    /// `DamagedLabel` if damage blocks the label, and with `NotFound`.
    #[tactic(auto, using(crate::proofs::Regions::own_on_pack, crate::proofs::Regions::master_on_pack), unfolding(s3_slots::specs::Inner::Making::found))]
    pub fn find(&self, level: LevelId, name: Name) -> Result<(FileLabel, bool), LabelFault>
        ensures value { result ≡ found name (slots_at level self.now.areas) self.now.areas.masters }
        ensures on_pack { IsReady self.now.areas (P.state self.now.pool).contents → IfOk result (λ file. IsOfPack (length (P.state self.now.pool).contents) file.0) }
    {
        match standing_of(name, self.areas.slots(level)) {
            Standing::Present(label) => Ok((label, false)),
            Standing::Blocked => Err(LabelFault::DamagedLabel),
            Standing::Absent => match standing_of(name, self.areas.masters()) {
                Standing::Present(label) => Ok((label, true)),
                Standing::Blocked => Err(LabelFault::DamagedLabel),
                Standing::Absent => Err(LabelFault::NotFound),
            },
        }
    }

    /// Whether these files could be made for a level, one after another; nothing is made. It is refused with the place, from
    /// 0, of the first file that would be refused, and why.
    pub fn plan(&self, alloc: Global, level: LevelId, news: &[NewFile]) -> Result<(), PlanFault>
        requires ready { IsReady self.now.areas (P.state self.now.pool).contents }
        requires proper { All IsNewFile news.now }
        ensures ok { OnOk result (IsOk (planned 0 self.now.areas.header.format (region_at level self.now.areas) self.now.areas.masters news.now (slots_at level self.now.areas))) }
        ensures err { IfErr result (IsPlanRefusal (planned 0 self.now.areas.header.format (region_at level self.now.areas) self.now.areas.masters news.now (slots_at level self.now.areas))) }
    {
        let format = self.areas.header().format;
        let region = self.areas.region(level);
        let mut slots = copy_of(alloc, self.areas.slots(level))?;
        for (place, new) in news.iter().enumerate() {
            if let Err(fault) = make_in(format, region, self.areas.masters(), new, &mut slots) {
                return Err(PlanFault::File(place, fault));
            }
        }
        Ok(())
    }

    /// Makes a file of a level, and answers its label. The records of a direct file are blank. Only two label slots may change,
    /// refused or not: the slot of the level's old file of this label, and the lowest slot that is free without it. Refused with
    /// `Label` as `make_in` says, and then nothing changes, and with `Sectors`.
    ///
    /// After `Sectors` no call on the pack is to be made.
    pub fn make(&mut self, level: LevelId, new: &NewFile) -> Result<FileLabel, ChangeFault>
        requires ready { IsReady self.old.areas (P.state self.old.pool).contents }
        requires proper { IsNewFile new.now }
        ensures ok { OnOk result (made self.old.areas.header.format (region_at level self.old.areas) self.old.areas.masters new.now (slots_at level self.old.areas) ≡ Ok (slots_at level self.new.areas)) }
        ensures label { IfOk result (λ label. label ≡ new_label new.now label.extents) }
        ensures named { IfOk result (λ label. label.name ≡ new.now.name) }
        ensures on_pack { IfOk result (IsOfPack (length (P.state self.new.pool).contents)) }
        ensures placed { IfOk result (λ label. are_extents (region_at level self.old.areas) label.extents ≡ true) }
        ensures written { IfOk result (IsWritten (area_of level) (slots_at level self.new.areas) (P.state self.new.pool).contents) }
        ensures says { OnOk result (KeepsSaid level self.old.areas (P.state self.old.pool).contents self.new.areas (P.state self.new.pool).contents) }
        ensures blank { IfOk result (λ label. is_direct label.organization ≡ true → AreFilled BLANK (sectors_of label) (P.state self.new.pool).contents) }
        ensures err { IfErr result (IsChangeRefusal (made self.old.areas.header.format (region_at level self.old.areas) self.old.areas.masters new.now (slots_at level self.old.areas))) }
        ensures same { IfErr result (λ fault. IsOfSectors fault ⊎ (self.new ≡ self.old)) }
        ensures alone { self.new.areas ≡ with_slots level (slots_at level self.new.areas) self.old.areas }
        ensures others { (j : ℕ) → j < 32 → position_from (bears new.now.name) 0 (slots_at level self.old.areas) ≢ Some j → free_slot (dropped new.now.name (slots_at level self.old.areas)) ≢ Some j → slot_bytes (area_of level) (P.state self.new.pool).contents j ≡ slot_bytes (area_of level) (P.state self.old.pool).contents j }
        ensures within { ChangesWithin (IsOfMake (area_of level) new.now.name (made self.old.areas.header.format (region_at level self.old.areas) self.old.areas.masters new.now (slots_at level self.old.areas))) (P.state self.old.pool) (P.state self.new.pool) }
        ensures failures { (P.state self.new.pool).failures ≡ (P.state self.old.pool).failures + failed_change result }
        ensures ready { IsReady self.new.areas (P.state self.new.pool).contents }
    {
        know_widths(new);
        let made = self.areas.make(level, new)?;
        write_records(&mut self.pool, &made.label)?;
        write_made(&mut self.pool, Area::Level(level), &made)?;
        Ok(made.label)
    }

    /// Sets the count of the file that a level itself has under a label. Refused with `Label`, `NotFound` or `DamagedLabel` in
    /// it, and then nothing changes, and with `Sectors`, after which the pack must not be used.
    pub fn set_count(&mut self, level: LevelId, name: Name, count: u32) -> Result<(), ChangeFault>
        requires ready { IsReady self.old.areas (P.state self.old.pool).contents }
        requires room { MayHave count (standing name (slots_at level self.old.areas)) }
        ensures ok { OnOk result (with_count name count (slots_at level self.old.areas) ≡ Ok (slots_at level self.new.areas)) }
        ensures written { OnOk result (WritesSlot name (slots_at level self.old.areas) (area_of level) (with_count_bytes count) (P.state self.old.pool).contents (P.state self.new.pool).contents) }
        ensures says { OnOk result (KeepsSaid level self.old.areas (P.state self.old.pool).contents self.new.areas (P.state self.new.pool).contents) }
        ensures err { IfErr result (IsChangeRefusal (with_count name count (slots_at level self.old.areas))) }
        ensures same { IfErr result (λ fault. IsOfSectors fault ⊎ (self.new ≡ self.old)) }
        ensures alone { self.new.areas ≡ with_slots level (slots_at level self.new.areas) self.old.areas }
        ensures others { (j : ℕ) → position_from (bears name) 0 (slots_at level self.old.areas) ≢ Some j → slot_bytes (area_of level) (P.state self.new.pool).contents j ≡ slot_bytes (area_of level) (P.state self.old.pool).contents j }
        ensures within { ChangesWithin (IsLabelSector (area_of level)) (P.state self.old.pool) (P.state self.new.pool) }
        ensures failures { (P.state self.new.pool).failures ≡ (P.state self.old.pool).failures + failed_change result }
        ensures ready { IsReady self.new.areas (P.state self.new.pool).contents }
    {
        let place = self.areas.place(level, name)?;
        write_count(&mut self.pool, Area::Level(level), place as u16, count)?;
        self.areas.recount(level, place, count);
        Ok(())
    }

    /// Drops the label of a file of a level, whatever its retention. Refused with `Label`, `NotFound` or `DamagedLabel` in it,
    /// and then nothing changes, and with `Sectors`, after which the pack must not be used.
    pub fn drop_label(&mut self, level: LevelId, name: Name) -> Result<(), ChangeFault>
        requires ready { IsReady self.old.areas (P.state self.old.pool).contents }
        ensures ok { OnOk result (without_label name (slots_at level self.old.areas) ≡ Ok (slots_at level self.new.areas)) }
        ensures written { OnOk result (WritesSlot name (slots_at level self.old.areas) (area_of level) (λ _. replicate 64 0) (P.state self.old.pool).contents (P.state self.new.pool).contents) }
        ensures says { OnOk result (KeepsSaid level self.old.areas (P.state self.old.pool).contents self.new.areas (P.state self.new.pool).contents) }
        ensures err { IfErr result (IsChangeRefusal (without_label name (slots_at level self.old.areas))) }
        ensures same { IfErr result (λ fault. IsOfSectors fault ⊎ (self.new ≡ self.old)) }
        ensures alone { self.new.areas ≡ with_slots level (slots_at level self.new.areas) self.old.areas }
        ensures others { (j : ℕ) → position_from (bears name) 0 (slots_at level self.old.areas) ≢ Some j → slot_bytes (area_of level) (P.state self.new.pool).contents j ≡ slot_bytes (area_of level) (P.state self.old.pool).contents j }
        ensures within { ChangesWithin (IsLabelSector (area_of level)) (P.state self.old.pool) (P.state self.new.pool) }
        ensures failures { (P.state self.new.pool).failures ≡ (P.state self.old.pool).failures + failed_change result }
        ensures ready { IsReady self.new.areas (P.state self.new.pool).contents }
    {
        let place = self.areas.place(level, name)?;
        clear_slot(&mut self.pool, Area::Level(level), place as u16)?;
        self.areas.free(level, place);
        Ok(())
    }
}

/// Reads the name and the date of a new file, so that the prover knows their widths. It learns the width of an array when the
/// array is read.
fn know_widths(new: &NewFile)
    ensures codes { length new.now.name.codes ≡ 8 }
    ensures date { length new.now.date ≡ 6 }
{
    let _first = new.name.codes[0];
}
