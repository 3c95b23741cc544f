//! What the cycle holds of its reading: the primary and secondary files, and the last primary key.

ghost use Rattle.std.specs.Prelude.{List, [], ◌∷◌, ◌++◌, ◌≡◌, ◌+◌, ◌<◌, ◌≤◌, length, not, true, IfOk, IfSome, IsTrue, option_map, slice_index_or, MatchOption, if◌then◌else◌};
ghost use Rattle.std.specs.Option.{option_or};
ghost use Rattle.std.specs.List.{list_any};
ghost use Rattle.s3_lines.specs.declared.sheet.Designation.TheVariants.{Primary};
ghost use Rattle.s3_operations.specs.Inner.Places.{indicator_place};
ghost use Rattle.s3_lines.specs.declared.sheet.InputLine.{InputLine as MeantLine};
ghost use Rattle.s3_program.specs.declared.program.Reference.{Reference as MeantReference};
ghost use Rattle.s3_meaning.specs.Cycle.{counted_read, first_reading};
ghost use Rattle.s3_meaning.specs.Environment.{Environment, on_at_first};
ghost use Rattle.s3_meaning.specs.Source.{is_designated, is_input};
ghost use Rattle.s3_meaning.specs.Selection as meaning;
ghost use Rattle.s3_meaning.specs.Selection.{Selected, in_sequence, match_key};
ghost use Rattle.s3_program.specs.declared.program.Program.{Program};
ghost use Rattle.s3_program.specs.Inner.Stands.{source_named};
ghost use Rattle.s3_match.specs.Inner.BeginningEnvironment.{BeginsWith, holds_at_first};
ghost use Rattle.s3_match.specs.Inner.Choice.{IsHeadAt};
ghost use Rattle.s3_match.specs.declared.heads.InputFile.{InputFile};
ghost use Rattle.s3_match.specs.Inner.Heads.{ended, file_at, put as put_head};
ghost use Rattle.s3_match.specs.Inner.Beginning.{IsFirst, AreFirst};
ghost use Rattle.s3_match.specs.Inner.Keys.{key_in};
ghost use Rattle.s3_match.specs.Inner.Reading as spec;
ghost use Rattle.s3_match.specs.Inner.Reading.{IsReading, AreOnlyTypes, ArePlacesOf, AreLinePlaces, IsUnreadAt, AreRead, IsNextUnread, reading_in, changed_at, input_at, head_with};
ghost use Rattle.s3_match.specs.Inner.Selecting.{inputs_of, selected_at};
ghost use Rattle.s3_match.specs.Inner.Types.{is_type_start, kind_at, name_of_file};

use crate::fields::indicator_on;
use crate::heads::{InputFile, Standing};
use crate::keys::RecordKey;
use crate::levels::Levels;
use crate::selection::is_primary;
use crate::types::{only_type, type_of};
use s3_decimal::RECORD_BYTES;
use s3_lines::indicator::Indicator;
use s3_lines::sheet::{Designation, FileLine, InputLine};
use s3_meaning::is_switch_on;
use s3_operations::places::place_of;
use s3_program::mark::Key;
use s3_program::program::{Program, Reference};
use s3_program::starts::TypeStart;
use std::alloc::{AllocError, Global};

/// The primary and secondary files of a run as far as they are read, and what their keys are matched with. A file is called by its
/// place among them, from 0.
#[derive(Drop)]
pub struct Reading {
    /// The primary and secondary files, in the order of their F lines.
    pub files: Vec<InputFile>,
    /// The key of the last selected primary record with match fields.
    pub primary_key: RecordKey,
    /// The match fields of its record types.
    pub match_levels: Levels,
    /// Their control fields.
    pub control_levels: Levels,
    /// For each file of the program, by slot, the type of all its records if its first type has no codes; else none.
    pub only_types: Vec<Option<TypeStart>>,
    /// The places (`place_of`) of all record identifying indicators of the program.
    pub type_places: Vec<usize>,
    /// For each line of the I sheet, the place of its record identifying indicator, 0 if it has none.
    pub line_places: Vec<usize>,
}

/// Whether an indicator is on as a job begins: L0, 1P, and the switches as they are set, U1 the highest bit.
fn is_on_at_first(switches: u8, indicator: Indicator) -> bool
    ensures { result ≡ on_at_first switches indicator }
{
    match indicator {
        Indicator::Level(number) => number == 0,
        Indicator::FirstPage => true,
        Indicator::Switch(number) => is_switch_on(switches, number),
        Indicator::General(_)
        | Indicator::LastRecord
        | Indicator::Matching
        | Indicator::Halt(_)
        | Indicator::Overflow(_) => false,
    }
}

/// Whether the cycle reads a file by itself: it is a primary or a secondary one.
fn is_selected(file: &FileLine) -> bool
    ensures { result ≡ is_input file.now }
{
    match file.designation {
        Some(designation) => match designation {
            Designation::Primary | Designation::Secondary => true,
            Designation::Chained => false,
        },
        None => false,
    }
}

/// Whether a file is served from the beginning of a job on.
fn is_served_at_first(switches: u8, file: &FileLine) -> bool
    ensures { result ≡ holds_at_first switches file.now.condition }
{
    match file.condition {
        Some(indicator) => is_on_at_first(switches, indicator),
        None => true,
    }
}

/// A primary or secondary file as a job begins: one whose condition is off has ended.
fn first_input(
    alloc: Global,
    program: &Program,
    slot: usize,
    switches: u8,
) -> Result<InputFile, AllocError>
    requires { slot < length program.now.files.items }
    ensures { IfOk result (IsFirst program.now switches slot) }
{
    let mut input = InputFile::unread(alloc, slot)?;
    if !is_served_at_first(switches, &program.files[slot]) {
        input.end();
    }
    Ok(input)
}

/// A primary or secondary file as another job begins: one whose condition is off has ended.
fn begin_input(input: &mut InputFile, program: &Program, switches: u8)
    requires { input.old.file < length program.now.files.items }
    ensures { IsFirst program.now switches input.old.file input.new }
{
    input.begin_again();
    if !is_served_at_first(switches, &program.files[input.file]) {
        input.end();
    }
}

/// Puts the file of a slot after the others, if it is a primary or secondary one.
fn add_first(
    alloc: Global,
    files: &mut Vec<InputFile>,
    program: &Program,
    slot: usize,
    switches: u8,
) -> Result<(), AllocError>
    requires within { slot < length program.now.files.items }
    requires before { AreFirst program.now switches slot files.old.items }
    ensures { IfOk result (λ done. AreFirst program.now switches (slot + 1) files.new.items) }
{
    if is_selected(&program.files[slot]) {
        files.push(first_input(alloc, program, slot, switches)?)?;
    }
    Ok(())
}

/// For each file, the type of each of its records if its first type has no codes.
fn only_types(alloc: Global, program: &Program) -> Result<Vec<Option<TypeStart>>, AllocError>
    ensures { IfOk result (λ types. AreOnlyTypes program.now types.items) }
{
    let mut types = Vec::with_capacity(alloc, program.files.len())?;
    for file in 0..program.files.len() {
        types.push(only_type(program, file))?;
    }
    Ok(types)
}

/// Puts the place of a line's record identifying indicator after the others, if it has one.
fn add_place(places: &mut Vec<usize>, line: &InputLine<Reference>) -> Result<(), AllocError>
    ensures { IfOk result (λ done. (lines : List (MeantLine MeantReference)) → ArePlacesOf lines places.old.items → ArePlacesOf (lines ++ line.now ∷ []) places.new.items) }
{
    if let Some(indicator) = indicator_on(line) {
        places.push(place_of(indicator))?;
    }
    Ok(())
}

/// The places of the record identifying indicators.
fn type_places(alloc: Global, program: &Program) -> Result<Vec<usize>, AllocError>
    ensures { IfOk result (λ places. ArePlacesOf program.now.inputs.items places.items) }
{
    let mut places = Vec::new(alloc);
    for line in &program.inputs {
        add_place(&mut places, line)?;
    }
    Ok(places)
}

/// The place of a line's record identifying indicator, 0 if it has none.
fn place_on(line: &InputLine<Reference>) -> usize
    ensures place { result ≡ spec.place_on line.now }
    ensures within { result < 1600 }
{
    match indicator_on(line) {
        Some(indicator) => place_of(indicator),
        None => 0,
    }
}

/// Puts the place of a line's record identifying indicator after those of the lines before.
fn add_line_place(places: &mut Vec<usize>, line: &InputLine<Reference>) -> Result<(), AllocError>
    ensures { IfOk result (λ done. (lines : List (MeantLine MeantReference)) → AreLinePlaces lines places.old.items → AreLinePlaces (lines ++ line.now ∷ []) places.new.items) }
{
    places.push(place_on(line))?;
    Ok(())
}

/// The place of the record identifying indicator of each line of the I sheet.
fn line_places(alloc: Global, program: &Program) -> Result<Vec<usize>, AllocError>
    ensures { IfOk result (λ places. AreLinePlaces program.now.inputs.items places.items) }
{
    let mut places = Vec::new(alloc);
    for line in &program.inputs {
        add_line_place(&mut places, line)?;
    }
    Ok(places)
}

/// Keeps the key of a primary record with match fields.
fn keep_primary(primary_key: &mut RecordKey, program: &Program, input: &InputFile)
    ensures { key_in primary_key.new ≡ (if is_designated Primary (file_at program.now input.now.file) then option_or (key_in input.now.key) (key_in primary_key.old) else key_in primary_key.old) }
{
    if input.key.is_given && is_primary(program, input) {
        primary_key.copy_from(&input.key);
    }
}

impl Reading {
    /// The reading as a job begins with these switches, U1 the highest bit; refused only if memory runs out.
    pub fn first(alloc: Global, program: &Program, switches: u8) -> Result<Reading, AllocError>
        ensures sound { IfOk result (λ reading. IsReading program.now reading) }
        ensures reading { IfOk result (λ reading. (e : Environment) → BeginsWith switches e → reading_in program.now reading ≡ first_reading (source_named program.now) e) }
    {
        // an input file has long rooms, so the list gets its length at once and moves none of them
        let mut files = Vec::with_capacity(alloc, program.files.len())?;
        for slot in 0..program.files.len() {
            add_first(alloc, &mut files, program, slot, switches)?;
        }
        Ok(Reading {
            files,
            primary_key: RecordKey::none(alloc)?,
            match_levels: Levels::of(alloc, program, Key::Match)?,
            control_levels: Levels::of(alloc, program, Key::Control)?,
            only_types: only_types(alloc, program)?,
            type_places: type_places(alloc, program)?,
            line_places: line_places(alloc, program)?,
        })
    }

    /// The reading as another job of the same program begins with these switches. It takes no memory.
    pub fn begin_again(&mut self, program: &Program, switches: u8)
        requires { IsReading program.now self.old }
        ensures sound { IsReading program.now self.new }
        ensures reading { (e : Environment) → BeginsWith switches e → reading_in program.now self.new ≡ first_reading (source_named program.now) e }
    {
        for place in 0..self.files.len() {
            begin_input(&mut self.files[place], program, switches);
        }
        self.primary_key.forget();
    }

    /// The slot of the file at a place.
    pub fn slot(&self, place: usize) -> usize
        requires { place < length self.now.files.items }
        ensures within { (program : Program) → IsReading program self.now → result < length program.files.items }
        ensures file { (program : Program) → (input_at (reading_in program self.now).files place).file ≡ file_at program result }
        ensures name { (program : Program) → IsReading program self.now → name_of_file program result ≡ (input_at (reading_in program self.now).files place).file.name }
    {
        self.files[place].file
    }

    /// The first type of the file at a place all of whose codes hold of a record; none if there is no such type.
    pub fn type_of(&self, program: &Program, place: usize, bytes: &[u8]) -> Option<TypeStart>
        requires sound { IsReading program.now self.now }
        requires within { place < length self.now.files.items }
        ensures found { option_map (kind_at program.now) result ≡ meaning.type_of (source_named program.now) (input_at (reading_in program.now self.now).files place).file.name bytes.now }
        ensures starts { IfSome result (λ start. IsTrue (is_type_start program.now start)) }
    {
        self.type_in(program, self.slot(place), bytes)
    }

    /// The first type of the file of a slot all of whose codes hold of a record; none if there is no such type.
    #[inline(always)]
    pub fn type_in(&self, program: &Program, file: usize, bytes: &[u8]) -> Option<TypeStart>
        requires sound { IsReading program.now self.now }
        requires within { file < length program.now.files.items }
        ensures found { option_map (kind_at program.now) result ≡ meaning.type_of (source_named program.now) (name_of_file program.now file) bytes.now }
        ensures starts { IfSome result (λ start. IsTrue (is_type_start program.now start)) }
    {
        let only = self.only_types[file];
        if only.is_some() {
            return only;
        }
        type_of(program, file, bytes)
    }

    /// The place (`place_of`) of the record identifying indicator of a type.
    pub fn place_of(&self, program: &Program, start: TypeStart) -> usize
        requires sound { IsReading program.now self.now }
        requires starts { IsTrue (is_type_start program.now start) }
        ensures place { result ≡ indicator_place (kind_at program.now start).indicator }
        ensures within { result < 1600 }
    {
        self.line_places[start.place]
    }

    /// The type of the record at the head of the file at a place.
    pub fn head(&self, place: usize) -> TypeStart
        requires { IsHeadAt self.now.files.items place }
        ensures selected { (program : Program) (input : InputFile) → input ≡ slice_index_or self.now.files.items place input → selected_at program self.now.files.items place ≡ Some (head_with program input result) }
        ensures starts { (program : Program) → IsReading program self.now → IsTrue (is_type_start program result) }
    {
        match self.files[place].standing {
            Standing::Stands(start) => start,
            Standing::Unread | Standing::Ended => unreachable!(),
        }
    }

    /// Takes the record at the head of the file at a place; the next record of that file is to be read then. The key of a primary
    /// record with match fields is kept.
    pub fn take(&mut self, program: &Program, place: usize)
        requires sound { IsReading program.now self.old }
        requires head { IsHeadAt self.old.files.items place }
        ensures sound { IsReading program.now self.new }
        ensures taken { (selected : Selected) → selected_at program.now self.old.files.items place ≡ Some selected → reading_in program.now self.new ≡ meaning.taken (reading_in program.now self.old) selected }
        ensures unread { IsUnreadAt self.new.files.items place }
        ensures some_unread { list_any meaning.is_unread (reading_in program.now self.new).files ≡ true }
        ensures bytes { spec.bytes_at self.new.files.items place ≡ spec.bytes_at self.old.files.items place }
    {
        keep_primary(&mut self.primary_key, program, &self.files[place]);
        self.files[place].vacate();
    }

    /// The place of the first file, from a place on, whose next record is to be read; none if there is no such file.
    #[tactic(auto, using(crate::proofs::UnreadLemmas::none_between, crate::proofs::UnreadLemmas::one_more_read, crate::proofs::UnreadLemmas::next_there, crate::proofs::UnreadLemmas::read_past))]
    pub fn first_unread_from(&self, from: usize) -> Option<usize>
        ensures here { IfSome result (IsUnreadAt self.now.files.items) }
        ensures next { (program : Program) → MatchOption result (AreRead (inputs_of program self.now.files.items) from (length self.now.files.items)) (IsNextUnread (inputs_of program self.now.files.items) from) }
    {
        for place in from..self.files.len() {
            if self.files[place].is_unread() {
                return Some(place);
            }
        }
        None
    }

    /// Notes that the file at a place has ended: no record comes from it any more.
    pub fn end(&mut self, place: usize)
        requires within { place < length self.old.files.items }
        ensures sound { (program : Program) → IsReading program self.old → IsReading program self.new }
        ensures reading { (program : Program) → reading_in program self.new ≡ changed_at place ended (reading_in program self.old) }
    {
        self.files[place].end();
    }

    /// Counts one more record that was read from the file at a place.
    pub fn count_read(&mut self, place: usize)
        requires unread { IsUnreadAt self.old.files.items place }
        ensures sound { (program : Program) → IsReading program self.old → IsReading program self.new }
        ensures unread { IsUnreadAt self.new.files.items place }
        ensures reading { (program : Program) → reading_in program self.new ≡ changed_at place counted_read (reading_in program self.old) }
    {
        self.files[place].count_read();
    }

    /// Puts a record of a type at the head of the file at a place and answers true, if it is in sequence: its key isn't below the
    /// key of the file's last head with match fields. Else it answers false.
    pub fn put(&mut self, place: usize, start: TypeStart, bytes: &[u8]) -> bool
        requires unread { IsUnreadAt self.old.files.items place }
        requires fits { length bytes.now ≤ RECORD_BYTES }
        ensures in_sequence { (program : Program) → IsReading program self.old → is_type_start program start ≡ true → result ≡ in_sequence (match_key (kind_at program start) bytes.now) (input_at (reading_in program self.old).files place).last_key }
        ensures sound { (program : Program) → IsReading program self.old → is_type_start program start ≡ true → IsReading program self.new }
        ensures reading { (program : Program) → IsReading program self.old → is_type_start program start ≡ true → reading_in program self.new ≡ (if result then changed_at place (put_head program start bytes.now) (reading_in program self.old) else reading_in program self.old) }
        ensures unread { spec.is_unread_at self.new.files.items place ≡ not result }
    {
        self.files[place].put(start, &self.match_levels, bytes)
    }
}
