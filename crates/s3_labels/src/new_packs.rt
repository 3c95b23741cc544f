//! New packs.
ghost use Rattle.std.specs.Prelude.{◌≡◌, ◌≤◌, ◌+◌, ◌++◌, length, map, Ok, IfOk, IfErr, OnOk, IfSome, Some, None};
ghost use Rattle.std.specs.Option.{IfNone};
ghost use Rattle.std.specs.List.{flat_map, range_with_len};
ghost use Rattle.byteorder.specs.Endian.{big_bytes};
ghost use Rattle.s3_store.specs.Bytes.{bytes_at};
ghost use Rattle.s3_slots.specs.Header.{mounted};
ghost use Rattle.s3_labels.specs.Contents.{contents_of};
ghost use Rattle.s3_labels.specs.Inner.Images.{new_header as new_header_spec, region_bytes, header_bytes, padded, image_of, moved as moved_spec, moved_label as moved_label_spec, master_bytes as master_bytes_spec, no_masters, masters_from, image_from, image_bytes, IsImageFault};

use crate::area::Area;
use crate::fault::{ImageFault, Refusal};
use crate::pack::read_header;
use crate::reading::{read_at, read_slots};
use byteorder::{BigEndian, ByteOrder};
use s3_cards::LevelId;
use s3_slots::{FileLabel, Format, Header, Slot, are_quotas, bytes_of};
use s3_store::{Extents, MemoryStore, Stretch};
use std::alloc::{AllocError, Global};

/// The regions and quotas of a new pack, if there is room for so many tracks.
fn new_header(
    masters: u16,
    level_one: u16,
    level_two: u16,
    quota_one: u8,
    quota_two: u8,
) -> Result<Header, ImageFault>
    ensures { result ≡ new_header_spec masters level_one level_two quota_one quota_two }
{
    if !are_quotas(quota_one, quota_two) {
        return Err(ImageFault::BadQuota);
    }
    if 2723 < u32::from(masters) + u32::from(level_one) + u32::from(level_two) {
        return Err(ImageFault::TooLarge);
    }
    Ok(Header {
        format: Format::Second,
        total: 168 + 24 * (masters + level_one + level_two),
        masters: Stretch {
            start: 168,
            sectors: 24 * masters,
        },
        level_one: Stretch {
            start: 168 + 24 * masters,
            sectors: 24 * level_one,
        },
        level_two: Stretch {
            start: 168 + 24 * (masters + level_one),
            sectors: 24 * level_two,
        },
        quota_one,
        quota_two,
    })
}

/// Puts a part after the others.
fn push_part(bytes: &mut Vec<u8>, part: &[u8]) -> Result<(), AllocError>
    ensures { OnOk result (bytes.new.items ≡ bytes.old.items ++ part.now) }
{
    bytes.extend_from_slice(part)
}

/// Puts a number of two bytes after the others.
fn push_u16(bytes: &mut Vec<u8>, n: u16) -> Result<(), AllocError>
    ensures { OnOk result (bytes.new.items ≡ bytes.old.items ++ big_bytes 2 n) }
{
    let mut number = [0; 2];
    BigEndian::write_u16(&mut number, n);
    push_part(bytes, &number)
}

/// Puts start and length of a region after the others.
#[tactic(auto, using(std::proofs::Common::append_assoc))]
fn push_region(bytes: &mut Vec<u8>, region: Stretch) -> Result<(), AllocError>
    ensures { OnOk result (bytes.new.items ≡ bytes.old.items ++ region_bytes region) }
{
    push_u16(bytes, region.start)?;
    push_u16(bytes, region.sectors)
}

/// The bytes of a header, with room for its whole pack, which so isn't copied as it grows.
fn bytes_of_header(alloc: Global, header: &Header) -> Result<Vec<u8>, AllocError>
    ensures { IfOk result (λ bytes. bytes.items ≡ header_bytes header.now) }
{
    let mut bytes = Vec::with_capacity(alloc, 256 * usize::from(header.total))?;
    push_part(&mut bytes, b"S3PACK02")?;
    push_u16(&mut bytes, header.total)?;
    push_region(&mut bytes, header.masters)?;
    push_region(&mut bytes, header.level_one)?;
    push_region(&mut bytes, header.level_two)?;
    push_part(&mut bytes, &[header.quota_one, header.quota_two])?;
    Ok(bytes)
}

/// Puts zeros after the others, up to so many bytes.
#[tactic(auto, unfolding(crate::specs::Inner::Images::padded))]
fn pad(bytes: &mut Vec<u8>, width: usize) -> Result<(), AllocError>
    ensures { OnOk result (bytes.new.items ≡ padded width bytes.old.items) }
{
    bytes.resize(width.max(bytes.len()), 0)
}

/// The extents as far into the masters' region as they were in the old one.
fn moved(region: Stretch, extents: &Extents) -> Extents
    requires { 168 ≤ region.start }
    ensures { result ≡ map (moved_spec region) extents.now }
{
    let mut runs = Extents::new();
    for extent in extents.as_slice() {
        runs.push(Stretch {
            start: extent.start.saturating_sub(region.start) + 168,
            sectors: extent.sectors,
        });
    }
    runs
}

/// The label that a file has among the masters.
fn moved_label(region: Stretch, label: &FileLabel) -> FileLabel
    requires { 168 ≤ region.start }
    ensures { result ≡ moved_label_spec region label.now }
{
    let mut master = label.copied();
    master.extents = moved(region, &label.extents);
    master
}

/// Puts the labels of the sound files after the others.
fn push_labels(bytes: &mut Vec<u8>, region: Stretch, slots: &[Slot]) -> Result<(), AllocError>
    requires { 168 ≤ region.start }
    ensures { OnOk result (bytes.new.items ≡ bytes.old.items ++ flat_map (master_bytes_spec region) slots.now) }
{
    for slot in slots {
        if let Slot::Sound(label) = slot {
            push_part(bytes, &bytes_of(&moved_label(region, label)))?;
        }
    }
    Ok(())
}

/// Puts the sectors of a region of an old pack after the others.
fn push_sectors(
    bytes: &mut Vec<u8>,
    old: &mut MemoryStore,
    region: Stretch,
) -> Result<(), ImageFault>
    requires there { region.start + region.sectors ≤ length old.old }
    requires few { length old.old ≤ 65535 }
    ensures ok { OnOk result (bytes.new.items ≡ bytes.old.items ++ bytes_at (range_with_len region.start region.sectors) old.old) }
    ensures err { IfErr result (λ fault. fault ≡ ImageFault.NoMemory) }
{
    for i in 0..region.sectors {
        match read_at(old, region.start + i) {
            Ok(sector) => push_part(bytes, &sector)?,
            // A store in memory never fails.
            Err(_) => return Err(ImageFault::NoMemory),
        }
    }
    Ok(())
}

/// A new pack with these regions, all its slots free.
#[tactic(auto, unfolding(crate::specs::Inner::Images::image_of))]
fn new_pack(alloc: Global, header: &Header) -> Result<Vec<u8>, AllocError>
    ensures { IfOk result (λ pack. pack.items ≡ image_of header.now no_masters) }
{
    let mut bytes = bytes_of_header(alloc, header)?;
    pad(&mut bytes, 256)?;
    pad(&mut bytes, 256 * 168)?;
    pad(&mut bytes, 256 * usize::from(header.total))?;
    Ok(bytes)
}

/// A new pack with these regions, whose masters are the sound files of an old pack's level 1.
#[tactic(auto, unfolding(crate::specs::Inner::Images::image_of, crate::specs::Inner::Images::masters_from))]
fn pack_with_masters(
    alloc: Global,
    header: &Header,
    old: &mut MemoryStore,
    old_header: &Header,
) -> Result<Vec<u8>, ImageFault>
    requires low { 168 ≤ old_header.now.level_one.start }
    requires high { old_header.now.level_one.start + old_header.now.level_one.sectors ≤ length old.old }
    requires few { length old.old ≤ 65535 }
    ensures ok { IfOk result (λ pack. pack.items ≡ image_of header.now (masters_from old_header.now old.old)) }
    ensures err { IfErr result (λ fault. fault ≡ ImageFault.NoMemory) }
{
    let region = old_header.level_one;
    let slots = match read_slots(
        alloc,
        old,
        old_header.format,
        region,
        Area::Level(LevelId::One),
    ) {
        Ok(slots) => slots,
        // A store in memory never fails.
        Err(_) => return Err(ImageFault::NoMemory),
    };
    let mut bytes = bytes_of_header(alloc, header)?;
    pad(&mut bytes, 256)?;
    push_labels(&mut bytes, region, &slots)?;
    pad(&mut bytes, 256 * 168)?;
    push_sectors(&mut bytes, old, region)?;
    pad(&mut bytes, 256 * usize::from(header.total))?;
    Ok(bytes)
}

/// A new pack whose masters are the sound files of an old pack's level 1, in slot order.
#[tactic(auto, using(crate::proofs::Outcomes::image_fault))]
fn image_from_old(
    alloc: Global,
    old: &[u8],
    level_one: u16,
    level_two: u16,
    quota_one: u8,
    quota_two: u8,
) -> Result<Vec<u8>, ImageFault>
    ensures ok { IfOk result (λ pack. image_from (contents_of old.now) (mounted (contents_of old.now)) level_one level_two quota_one quota_two ≡ Ok pack.items) }
    ensures err { IfErr result (IsImageFault (image_from (contents_of old.now) (mounted (contents_of old.now)) level_one level_two quota_one quota_two)) }
{
    let mut store = MemoryStore::from_bytes(Vec::from_slice(alloc, old)?);
    let old_header = match read_header(&mut store) {
        Ok(header) => header,
        Err(Refusal::BadPack(fault)) => return Err(ImageFault::Mount(fault)),
        // A store in memory never fails.
        Err(Refusal::Sectors(_)) => return Err(ImageFault::NoMemory),
    };
    let masters = old_header.level_one.sectors / 24;
    match new_header(masters, level_one, level_two, quota_one, quota_two) {
        Ok(header) => pack_with_masters(alloc, &header, &mut store, &old_header),
        Err(fault) => Err(fault),
    }
}

/// A new pack of the second format with regions of so many tracks, all labels free, whose levels may have so many lines
/// queued. From an old pack its masters are that one's sound files of level 1, in slot order, and their region is a copy
/// of its level 1's; `masters` then isn't used.
///
/// It is refused if the old pack isn't mounted, then by its quotas, then if there are more than 2,723 tracks.
#[tactic(auto, using(crate::proofs::Outcomes::image_fault))]
pub fn image_with(
    alloc: Global,
    from: Option<&[u8]>,
    masters: u16,
    level_one: u16,
    level_two: u16,
    quota_one: u8,
    quota_two: u8,
) -> Result<Vec<u8>, ImageFault>
    ensures new { IfNone from.entry (IfOk result (λ pack. image_bytes None masters level_one level_two quota_one quota_two ≡ Ok pack.items)) }
    ensures new_err { IfNone from.entry (IfErr result (IsImageFault (image_bytes None masters level_one level_two quota_one quota_two))) }
    ensures old { IfSome from.entry (λ old. IfOk result (λ pack. image_bytes (Some old.now) masters level_one level_two quota_one quota_two ≡ Ok pack.items)) }
    ensures old_err { IfSome from.entry (λ old. IfErr result (IsImageFault (image_bytes (Some old.now) masters level_one level_two quota_one quota_two))) }
{
    match from {
        Some(old) => image_from_old(alloc, old, level_one, level_two, quota_one, quota_two),
        None => match new_header(masters, level_one, level_two, quota_one, quota_two) {
            Ok(header) => Ok(new_pack(alloc, &header)?),
            Err(fault) => Err(fault),
        },
    }
}

/// A new pack as `image_with` gives it, whose levels may each have 64 lines queued. Refused if the old pack isn't mounted, then
/// if there are more than 2,723 tracks.
pub fn image(
    alloc: Global,
    from: Option<&[u8]>,
    masters: u16,
    level_one: u16,
    level_two: u16,
) -> Result<Vec<u8>, ImageFault>
    ensures new { IfNone from.entry (IfOk result (λ pack. image_bytes None masters level_one level_two 64 64 ≡ Ok pack.items)) }
    ensures new_err { IfNone from.entry (IfErr result (IsImageFault (image_bytes None masters level_one level_two 64 64))) }
    ensures old { IfSome from.entry (λ old. IfOk result (λ pack. image_bytes (Some old.now) masters level_one level_two 64 64 ≡ Ok pack.items)) }
    ensures old_err { IfSome from.entry (λ old. IfErr result (IsImageFault (image_bytes (Some old.now) masters level_one level_two 64 64))) }
{
    image_with(alloc, from, masters, level_one, level_two, 64, 64)
}
