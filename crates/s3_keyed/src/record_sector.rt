//! A sector of a file that was read, out of which keys of records are taken.
ghost use Rattle.std.specs.Prelude.{◌≡◌, ◌≤◌, ◌<◌, ◌+◌, ◌*◌, ◌/◌, ◌%◌, ◌==◌, ℕ, length, OnOk, IfOk, MatchBool};
ghost use Rattle.s3_store.specs.Inner.Calls.{Reads};
ghost use Rattle.s3_store.specs.Bytes.{part};
ghost use Rattle.s3_files.specs.Inner.Files.{AreStored};
ghost use Rattle.s3_keyed.specs.KeyOrder.{number_of};
ghost use Rattle.s3_keyed.specs.Index.{key_of};
ghost use Rattle.s3_keyed.specs.Inner.Shape.{layout_in, bytes_in, keys_on, entry_here, IsOfRecord};

use crate::entries::{key_place, read_key};
use crate::index_sector::{is_key_at, is_key_of, number_in};
use crate::indexed::IndexedFile;
use s3_files::read_bytes;
use s3_store::{SectorFault, Sectors};

/// A sector of a file that was read.
#[derive(Clone, Copy)]
pub struct RecordSector {
    /// Which one of the file it is, from 0.
    pub place: u32,
    /// The bytes of the sector.
    pub bytes: [u8; 256],
}

/// Whether the key of a record, which is read by itself, is that of entry `j` of a sector of the index.
fn has_key_read<P: Sectors>(
    file: &IndexedFile,
    pool: &mut P,
    i: u32,
    index: &[u8; 256],
    j: usize,
) -> Result<bool, SectorFault>
    requires stored { AreStored file.now.file.sectors (P.state pool.old).contents }
    requires within { i < file.now.file.capacity }
    requires inside { j < 256 / (file.now.key_length + 4) }
    ensures ok { IfOk result (λ is. is ≡ (key_of (layout_in file.now).key (part (bytes_in file.now (P.state pool.old).contents) (i * file.now.file.record_length) file.now.file.record_length) == (entry_here file.now.key_length index.now j).key)) }
    ensures reads { Reads result (P.state pool.old) (P.state pool.new) }
{
    let key = read_key(file, pool, i)?;
    Ok(is_key_of(index, j, usize::from(file.key_length), &key))
}

impl RecordSector {
    /// The place for a sector, of which none is read yet.
    pub fn blank() -> Self {
        RecordSector {
            place: 0,
            bytes: [0; 256],
        }
    }

    /// Reads a sector, over what was here.
    pub fn read<P: Sectors>(
        &mut self,
        file: &IndexedFile,
        pool: &mut P,
        place: u32,
    ) -> Result<(), SectorFault>
        requires stored { AreStored file.now.file.sectors (P.state pool.old).contents }
        requires within { place < length file.now.file.sectors }
        ensures ok { OnOk result (self.new.bytes ≡ part (bytes_in file.now (P.state pool.old).contents) (256 * self.new.place) 256) }
        ensures place { OnOk result (self.new.place ≡ place) }
        ensures reads { Reads result (P.state pool.old) (P.state pool.new) }
    {
        read_bytes(pool, &file.file.sectors, 256 * place, &mut self.bytes)?;
        self.place = place;
        Ok(())
    }

    /// Moves to a sector, which is read unless it is this one.
    fn go_to<P: Sectors>(
        &mut self,
        file: &IndexedFile,
        pool: &mut P,
        place: u32,
    ) -> Result<(), SectorFault>
        requires stored { AreStored file.now.file.sectors (P.state pool.old).contents }
        requires within { place < length file.now.file.sectors }
        requires here { self.old.bytes ≡ part (bytes_in file.now (P.state pool.old).contents) (256 * self.old.place) 256 }
        ensures place { OnOk result (self.new.place ≡ place) }
        ensures ok { OnOk result (self.new.bytes ≡ part (bytes_in file.now (P.state pool.old).contents) (256 * self.new.place) 256) }
        ensures reads { Reads result (P.state pool.old) (P.state pool.new) }
    {
        if self.place == place {
            return Ok(());
        }
        self.read(file, pool, place)
    }

    /// Whether the key at a place in the bytes of the file, which lies in one sector, is that of entry `j` of a sector of the
    /// index, going on to the key's sector.
    fn has_key_at<P: Sectors>(
        &mut self,
        file: &IndexedFile,
        pool: &mut P,
        at: u32,
        index: &[u8; 256],
        j: usize,
    ) -> Result<bool, SectorFault>
        requires stored { AreStored file.now.file.sectors (P.state pool.old).contents }
        requires within { at / 256 < length file.now.file.sectors }
        requires one { at % 256 + file.now.key_length ≤ 256 }
        requires inside { j < 256 / (file.now.key_length + 4) }
        requires here { self.old.bytes ≡ part (bytes_in file.now (P.state pool.old).contents) (256 * self.old.place) 256 }
        ensures ok { IfOk result (λ is. is ≡ (number_of (part (bytes_in file.now (P.state pool.old).contents) at file.now.key_length) == (entry_here file.now.key_length index.now j).key)) }
        ensures here { IfOk result (λ _. self.new.bytes ≡ part (bytes_in file.now (P.state pool.old).contents) (256 * self.new.place) 256) }
        ensures reads { Reads result (P.state pool.old) (P.state pool.new) }
    {
        self.go_to(file, pool, at / 256)?;
        let start = (at % 256) as usize;
        Ok(is_key_at(index, j, usize::from(file.key_length), &self.bytes, start))
    }

    /// Whether the key of a record is that of entry `j` of a sector of the index, going on to the record's sector. One that
    /// lies in two sectors is read by itself.
    fn has_key<P: Sectors>(
        &mut self,
        file: &IndexedFile,
        pool: &mut P,
        i: u32,
        index: &[u8; 256],
        j: usize,
    ) -> Result<bool, SectorFault>
        requires stored { AreStored file.now.file.sectors (P.state pool.old).contents }
        requires within { i < file.now.file.capacity }
        requires inside { j < 256 / (file.now.key_length + 4) }
        requires here { self.old.bytes ≡ part (bytes_in file.now (P.state pool.old).contents) (256 * self.old.place) 256 }
        ensures ok { IfOk result (λ is. is ≡ (key_of (layout_in file.now).key (part (bytes_in file.now (P.state pool.old).contents) (i * file.now.file.record_length) file.now.file.record_length) == (entry_here file.now.key_length index.now j).key)) }
        ensures here { IfOk result (λ _. self.new.bytes ≡ part (bytes_in file.now (P.state pool.old).contents) (256 * self.new.place) 256) }
        ensures reads { Reads result (P.state pool.old) (P.state pool.new) }
    {
        let at = key_place(file, i);
        if at % 256 + u32::from(file.key_length) > 256 {
            return has_key_read(file, pool, i, index, j);
        }
        self.has_key_at(file, pool, at, index, j)
    }

    /// Whether the first so many entries of a sector of the index have numbers of records, and the keys of those.
    pub fn have_keys<P: Sectors>(
        &mut self,
        file: &IndexedFile,
        pool: &mut P,
        index: &[u8; 256],
        entries: usize,
    ) -> Result<bool, SectorFault>
        requires stored { AreStored file.now.file.sectors (P.state pool.old).contents }
        requires inside { entries ≤ 256 / (file.now.key_length + 4) }
        requires here { self.old.bytes ≡ part (bytes_in file.now (P.state pool.old).contents) (256 * self.old.place) 256 }
        ensures good { IfOk result (λ good. MatchBool good
            ((j : ℕ) → j < entries → IsOfRecord (keys_on file.now (P.state pool.old).contents) (entry_here file.now.key_length index.now j))
            ((j : ℕ) × (j < entries) × (IsOfRecord (keys_on file.now (P.state pool.old).contents) (entry_here file.now.key_length index.now j) → ⊥))) }
        ensures here { IfOk result (λ _. self.new.bytes ≡ part (bytes_in file.now (P.state pool.old).contents) (256 * self.new.place) 256) }
        ensures reads { Reads result (P.state pool.old) (P.state pool.new) }
    {
        let key_length = usize::from(file.key_length);
        for j in 0..entries {
            let number = number_in(index, j, key_length);
            if number == 0 {
                return Ok(false);
            }
            if number > file.file.count {
                return Ok(false);
            }
            if !self.has_key(file, pool, number - 1, index, j)? {
                return Ok(false);
            }
        }
        Ok(true)
    }
}
