//! The header of a pack.
ghost use Rattle.std.specs.Prelude.{◌≡◌, ◌≤◌, ◌+◌, ◌==◌, length};
ghost use Rattle.std.specs.List.{list_all};
ghost use Rattle.s3_slots.specs.Header.{format_in as format_spec, stretch_at as stretch_spec, quota_in as quota_spec, header_in as header_spec, are_quotas as are_quotas_spec, is_region as is_region_spec, are_regions as are_regions_spec, accepted as accepted_spec, header_by};

use crate::stretch::{are_apart, end_of};
use byteorder::{BigEndian, ByteOrder};
use s3_store::Stretch;

/// How a pack is laid out: files of the first format have one extent, those of the second up to four.
#[derive(Clone, Copy)]
pub enum Format {
    /// The first format, `S3PACK01`: a file has one extent, and each level may have 64 lines queued.
    First,
    /// The second format, `S3PACK02`: a file has up to four extents, and the header has the quotas.
    Second,
}

/// The header of a pack.
#[derive(Clone, Copy)]
pub struct Header {
    /// How the pack is laid out.
    pub format: Format,
    /// How many sectors the pack has.
    pub total: u16,
    /// The region of the masters, which no job changes.
    pub masters: Stretch,
    /// The region of level 1.
    pub level_one: Stretch,
    /// The region of level 2.
    pub level_two: Stretch,
    /// How many printed lines of level 1 may be queued, 1 to 127.
    pub quota_one: u8,
    /// How many printed lines of level 2 may be queued, 1 to 127, at most 128 with those of level 1.
    pub quota_two: u8,
}

/// Why a pack isn't mounted: what is wrong with its header (docs/PACK.md, "Commands").
#[derive(Clone, Copy, Debug, PartialEq, Eq)]
pub enum MountFault {
    /// The first eight bytes aren't those of a format, or the quotas aren't 1 to 127 and at most 128 together.
    BadHeader,
    /// A region isn't whole tracks from sector 168 on within the pack, or two regions meet.
    BadRegions,
    /// There are fewer than 168 sectors, or fewer than the header says.
    Short,
}

/// The format by the first eight bytes.
fn format_in(bytes: &[u8; 256]) -> Option<Format>
    ensures { result ≡ format_spec bytes.now }
{
    if bytes.starts_with(b"S3PACK01") {
        Some(Format::First)
    } else if bytes.starts_with(b"S3PACK02") {
        Some(Format::Second)
    } else {
        None
    }
}

/// The run of sectors whose start and length are the bytes from a place on.
pub fn stretch_at(at: usize, bytes: &[u8]) -> Stretch
    requires { at + 4 ≤ length bytes.now }
    ensures { result ≡ stretch_spec at bytes.now }
{
    Stretch {
        start: BigEndian::read_u16(&bytes[at..]),
        sectors: BigEndian::read_u16(&bytes[at + 2..]),
    }
}

/// How many lines of a level may be queued.
fn quota_in(format: Format, at: usize, bytes: &[u8; 256]) -> u8
    requires { at ≤ 64 }
    ensures { result ≡ quota_spec format at bytes.now }
{
    match format {
        Format::First => 64,
        Format::Second => bytes[at],
    }
}

/// The header in these bytes.
fn header_in(format: Format, bytes: &[u8; 256]) -> Header
    ensures { result ≡ header_spec format bytes.now }
{
    Header {
        format,
        total: BigEndian::read_u16(&bytes[8..]),
        masters: stretch_at(10, bytes),
        level_one: stretch_at(14, bytes),
        level_two: stretch_at(18, bytes),
        quota_one: quota_in(format, 22, bytes),
        quota_two: quota_in(format, 23, bytes),
    }
}

/// Whether so many lines may be queued for level 1 and for level 2: at least 1 for each, at most 128 together.
pub fn are_quotas(one: u8, two: u8) -> bool
    ensures { result ≡ are_quotas_spec one two }
{
    1 <= one && 1 <= two && u16::from(one) + u16::from(two) <= 128
}

/// Whether a region is whole tracks, after the spool blocks and before the end.
fn is_region(total: u16, region: Stretch) -> bool
    ensures { result ≡ is_region_spec total region }
{
    168 <= region.start
        && region.start % 24 == 0
        && region.sectors % 24 == 0
        && end_of(region) <= u32::from(total)
}

/// Whether each of these runs is a region.
fn are_whole(total: u16, regions: &[Stretch]) -> bool
    ensures { result ≡ list_all (is_region_spec total) regions.now }
{
    regions.iter().all(|region| is_region(total, *region))
}

/// Whether the regions of the masters and of both levels are regions, and no two of them meet.
fn are_regions(header: &Header) -> bool
    ensures { result ≡ are_regions_spec header.now }
{
    let regions = [header.masters, header.level_one, header.level_two];
    are_whole(header.total, &regions) && are_apart(&regions)
}

/// The header of a pack of so many sectors, whose sector 0 has these bytes. Of several faults the first of these is answered:
/// fewer than 168 sectors, `BadHeader`, `BadRegions`, fewer sectors than the header says (docs/PACK.md, "Commands").
pub fn accept(sectors: u16, bytes: &[u8; 256]) -> Result<Header, MountFault>
    ensures { result ≡ accepted_spec sectors (header_by bytes.now (format_spec bytes.now)) }
{
    let format = match format_in(bytes) {
        Some(format) => format,
        None => return Err(MountFault::BadHeader),
    };
    let header = header_in(format, bytes);
    if !are_quotas(header.quota_one, header.quota_two) {
        return Err(MountFault::BadHeader);
    }
    if !are_regions(&header) {
        return Err(MountFault::BadRegions);
    }
    if sectors < header.total {
        return Err(MountFault::Short);
    }
    Ok(header)
}
