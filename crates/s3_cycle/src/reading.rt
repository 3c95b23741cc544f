//! Steps 2 and 3: indicators of record types go off, and the files without a head are read.
ghost use Rattle.std.specs.Prelude.{◌≡◌, ◌≤◌, ◌+◌, ◌<◌, length, IsTrue, Some};
ghost use Rattle.s3_meaning.specs.Requests.{Found, Nothing};
ghost use Rattle.s3_meaning.specs.Cycle.{again, file_read};
ghost use Rattle.s3_meaning.specs.Selection.{type_of};
ghost use Rattle.s3_program.specs.Inner.Stands.{source_named};
ghost use Rattle.s3_operations.specs.Inner.Indicating.{cleared_of};
ghost use Rattle.s3_match.specs.Inner.Reading.{IsReading, IsUnreadAt, input_at, on_record, read_from};
ghost use Rattle.s3_match.specs.Inner.Types.{is_type_start, kind_at};
ghost use Rattle.s3_cycle.specs.Inner.Rest.{cycle_from, head_answered, head_put, heads_read, inputs_in};
ghost use Rattle.s3_cycle.specs.Inner.Going.{AreSound, IsRunning, CanBegin, Changes, GoesOn, here};
ghost use Rattle.s3_cycle.specs.Inner.Heads.{IsRecordOf};

use crate::indicating::clear;
use crate::progress::{Continuation, Point};
use crate::request::{FileCall, Request};
use crate::stepper::Stepper;
use s3_lines::indicator::Indicator;
use s3_lines::sheet::Device;
use s3_match::choice::is_keyless_alone;
use s3_operator::HaltCode;
use s3_program::starts::TypeStart;

impl Stepper {
    /// Step 2, and the steps after it.
    pub fn begin_reading(&mut self)
        requires running { IsRunning self.old }
        requires begins { CanBegin self.old.program self.old.progress }
        ensures { GoesOn self.old self.new (here self.old cycle_from) }
    {
        self.clear();
        if self.is_on(Indicator::LastRecord) {
            self.total_last();
        } else {
            self.read_first();
        }
    }

    /// Step 2: indicators of record types go off, and L1 to L9, which LR sets.
    fn clear(&mut self)
        requires sound { AreSound self.old.program self.old.state }
        requires reading { IsReading self.old.program self.old.progress.reading }
        ensures { Changes self.old self.new cleared_of }
    {
        let numbers = &self.progress.reading.type_places;
        clear(&mut self.state.values, &self.program, numbers);
    }

    /// Step 3 from the beginning of a cycle. The file of the record before is to be read then, and in the first cycle each file
    /// that is served. Where no file is to be read, none has a head, and LR goes on.
    fn read_first(&mut self)
        requires running { IsRunning self.old }
        requires begins { CanBegin self.old.program self.old.progress }
        ensures { GoesOn self.old self.new (here self.old (λ source program progress. read_from source (again source) (inputs_in program progress) 0 (heads_read source program progress))) }
    {
        match self.progress.reading.first_unread_from(0) {
            Some(place) => self.ask_head(place),
            None => self.set_last(),
        }
    }

    /// Reads the files from a place on, and selects a record.
    fn read_on(&mut self, from: usize)
        requires running { IsRunning self.old }
        requires within { from ≤ length self.old.progress.reading.files.items }
        ensures { GoesOn self.old self.new (here self.old (λ source program progress. read_from source (again source) (inputs_in program progress) from (heads_read source program progress))) }
    {
        match self.progress.reading.first_unread_from(from) {
            Some(place) => self.ask_head(place),
            None => self.select(),
        }
    }

    /// Reads the files after a place, and selects a record. The head of a file alone needs no search, if it has no match fields.
    fn read_behind(&mut self, place: usize)
        requires running { IsRunning self.old }
        requires within { place < length self.old.progress.reading.files.items }
        ensures { GoesOn self.old self.new (here self.old (λ source program progress. read_from source (again source) (inputs_in program progress) (place + 1) (heads_read source program progress))) }
    {
        if is_keyless_alone(&self.progress.reading.files) {
            self.process(0);
        } else {
            self.read_on(place + 1);
        }
    }

    /// Asks for the next card or the next record of a file.
    pub fn ask_head(&mut self, place: usize)
        requires running { IsRunning self.old }
        requires unread { IsUnreadAt self.old.progress.reading.files.items place }
        ensures { GoesOn self.old self.new (here self.old (λ source program progress. file_read source (again source) (input_at (inputs_in program progress) place) (head_put source program progress place))) }
    {
        let slot = self.progress.reading.slot(place);
        let file = &self.program.files[slot];
        let request = match file.device {
            Device::CardReader => Request::Card,
            Device::Printer | Device::Disk => Request::File {
                file: slot,
                call: FileCall::Read {
                    length: file.record_length,
                },
            },
        };
        self.wait(request, Point::Head { place });
    }

    /// Continues if a file has ended.
    #[inline(never)]
    pub fn end_file(&mut self, place: usize)
        requires running { IsRunning self.old }
        requires unread { IsUnreadAt self.old.progress.reading.files.items place }
        ensures { GoesOn self.old self.new (here self.old (λ source program progress. head_answered source program progress place Nothing)) }
    {
        self.progress.reading.end(place);
        self.read_on(place + 1);
    }

    /// Goes on with the record that was read.
    #[inline(never)]
    pub fn take_record(&mut self, place: usize, bytes: &[u8])
        requires running { IsRunning self.old }
        requires unread { IsUnreadAt self.old.progress.reading.files.items place }
        requires record { IsRecordOf (input_at (inputs_in self.old.program self.old.progress) place).file bytes.now }
        ensures { GoesOn self.old self.new (here self.old (λ source program progress. head_answered source program progress place (Found bytes.now))) }
    {
        self.progress.reading.count_read(place);
        match self.progress.reading.type_of(&self.program, place, bytes) {
            Some(start) => self.put_head(place, start, bytes),
            None => self.halt(HaltCode::UnidentifiedRecord, Continuation::Head { place }),
        }
    }

    /// Puts a record at the head of its file, if it is in sequence.
    fn put_head(&mut self, place: usize, start: TypeStart, bytes: &[u8])
        requires running { IsRunning self.old }
        requires unread { IsUnreadAt self.old.progress.reading.files.items place }
        requires starts { IsTrue (is_type_start self.old.program start) }
        requires typed { type_of (source_named self.old.program) (input_at (inputs_in self.old.program self.old.progress) place).file.name bytes.now ≡ Some (kind_at self.old.program start) }
        requires fits { IsRecordOf (input_at (inputs_in self.old.program self.old.progress) place).file bytes.now }
        ensures { GoesOn self.old self.new (here self.old (λ source program progress. on_record source (again source) (inputs_in program progress) place bytes.now (heads_read source program progress))) }
    {
        let reading = &mut self.progress.reading;
        if reading.put(place, start, bytes) {
            self.read_behind(place);
        } else {
            self.halt(HaltCode::OutOfSequence, Continuation::Head { place });
        }
    }
}
