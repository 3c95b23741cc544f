//! What the statements of a job say together.
ghost use Rattle.std.specs.Prelude.{◌≡◌, ◌++◌, [], OnOk, find};
ghost use Rattle.std.specs.Option.{option_copied, option_to_list};
ghost use Rattle.s3_ocl.specs.Contents.{stands_at as stands_at_spec, gives as gives_spec, is_given as is_given_spec, right_value as right_value_spec, value_in as value_in_spec, named as named_spec, count as count_spec, kept as kept_spec, dated as dated_spec, set as set_spec, name_in as name_in_spec, count_in as count_in_spec, retention_in, date_in as date_in_spec, switches_in as switches_in_spec, size_of as size_of_spec, file_with as file_with_spec, file_of as file_of_spec};
ghost use Rattle.s3_ocl.specs.Inner.Steps.{contents_of, contents_with};

use super::file_list::FileList;
use super::parameters::{Entry, Parameter, Verb};
use super::statements::{Piece, Statement};
use super::values::{Switch, Value};
use s3_cards::{Name, Retention};
use std::alloc::{AllocError, Global};
use std::marker::Model;

/// How large a FILE statement makes a new file.
#[derive(Clone, Copy)]
pub enum FileSize {
    /// Room for 1 to 999,999 records.
    Records(u32),
    /// 1 to 999 tracks.
    Tracks(u32),
}

/// What a FILE statement says.
#[derive(Clone, Copy)]
pub struct FileStatement {
    /// The name by which the program knows the file.
    pub name: Name,
    /// The label on the pack; the name if no label is given.
    pub label: Name,
    /// RECORDS or TRACKS; one track if there is no such parameter.
    pub size: FileSize,
    /// RETAIN; T if it isn't given.
    pub retention: Retention,
}

/// The parameter at an entry, if there is one.
pub fn stands_at(entry: Entry) -> Option<Parameter>
    ensures { result ≡ stands_at_spec entry }
{
    match entry {
        Entry::Empty | Entry::Unknown | Entry::Surplus => None,
        Entry::Missing(parameter) | Entry::Wrong(parameter) | Entry::Right(parameter, _) => Some(
            parameter,
        ),
    }
}

/// Whether a piece gives this parameter.
pub fn gives(parameter: Parameter, piece: &Piece) -> bool
    ensures { result ≡ gives_spec parameter piece.now }
{
    stands_at(piece.entry) == Some(parameter)
}

/// Whether a parameter is given.
pub fn is_given(parameter: Parameter, pieces: &[Piece]) -> bool
    ensures { result ≡ is_given_spec parameter pieces.now }
{
    pieces.iter().any(|piece| gives(parameter, piece))
}

fn right_value(entry: Entry) -> Option<Value>
    ensures { result ≡ right_value_spec entry }
{
    match entry {
        Entry::Right(_, value) => Some(value),
        _ => None,
    }
}

/// The first piece that gives a parameter.
pub fn first_giving(parameter: Parameter, pieces: &[Piece]) -> Option<&Piece>
    ensures { option_copied result ≡ find (gives_spec parameter) pieces.now }
{
    pieces.iter().find(|piece| gives(parameter, piece))
}

/// The value of a parameter, as it is first given.
fn value_in(parameter: Parameter, pieces: &[Piece]) -> Option<Value>
    ensures { result ≡ value_in_spec parameter pieces.now }
{
    match first_giving(parameter, pieces) {
        None => None,
        Some(piece) => right_value(piece.entry),
    }
}

/// The name that a value is.
pub fn named(value: Value) -> Option<Name>
    ensures { result ≡ named_spec value }
{
    match value {
        Value::Named(name) => Some(name),
        _ => None,
    }
}

fn count(value: Value) -> Option<u32>
    ensures { result ≡ count_spec value }
{
    match value {
        Value::Count(number) => Some(number),
        _ => None,
    }
}

fn kept(value: Value) -> Option<Retention>
    ensures { result ≡ kept_spec value }
{
    match value {
        Value::Kept(retention) => Some(retention),
        _ => None,
    }
}

fn dated(value: Value) -> Option<[u8; 6]>
    ensures { result ≡ dated_spec value }
{
    match value {
        Value::Dated(digits) => Some(digits),
        _ => None,
    }
}

fn set(value: Value) -> Option<[Switch; 8]>
    ensures { result ≡ set_spec value }
{
    match value {
        Value::Set(switches) => Some(switches),
        _ => None,
    }
}

fn name_in(parameter: Parameter, pieces: &[Piece]) -> Option<Name>
    ensures { result ≡ name_in_spec parameter pieces.now }
{
    named(value_in(parameter, pieces)?)
}

fn count_in(parameter: Parameter, pieces: &[Piece]) -> Option<u32>
    ensures { result ≡ count_in_spec parameter pieces.now }
{
    count(value_in(parameter, pieces)?)
}

fn retention_of(pieces: &[Piece]) -> Option<Retention>
    ensures { result ≡ retention_in pieces.now }
{
    kept(value_in(Parameter::Retain, pieces)?)
}

fn date_in(pieces: &[Piece]) -> Option<[u8; 6]>
    ensures { result ≡ date_in_spec pieces.now }
{
    dated(value_in(Parameter::Date, pieces)?)
}

fn switches_in(pieces: &[Piece]) -> Option<[Switch; 8]>
    ensures { result ≡ switches_in_spec pieces.now }
{
    set(value_in(Parameter::Switches, pieces)?)
}

fn size_of(records: Option<u32>, tracks: Option<u32>) -> FileSize
    ensures { result ≡ size_of_spec records tracks }
{
    match records {
        Some(records) => FileSize::Records(records),
        None => FileSize::Tracks(tracks.unwrap_or(1)),
    }
}

/// What the parameters of a FILE statement say of a file of this name.
fn file_with(pieces: &[Piece], name: Name) -> FileStatement
    ensures { result ≡ file_with_spec pieces.now name }
{
    FileStatement {
        name,
        label: name_in(Parameter::Label, pieces).unwrap_or(name),
        size: size_of(
            count_in(Parameter::Records, pieces),
            count_in(Parameter::Tracks, pieces),
        ),
        retention: retention_of(pieces).unwrap_or(Retention::Temporary),
    }
}

/// The file of a FILE statement.
fn file_of(pieces: &[Piece]) -> Option<FileStatement>
    ensures { result ≡ file_of_spec pieces.now }
{
    match name_in(Parameter::FileName, pieces) {
        None => None,
        Some(name) => Some(file_with(pieces, name)),
    }
}

/// What the statements so far say, and which there were.
#[derive(Drop)]
pub struct Contents {
    /// The program that LOAD names.
    pub program: Option<Name>,
    /// The six digits mmddyy that DATE gives, in EBCDIC.
    pub date: Option<[u8; 6]>,
    /// What SWITCH does with each of U1 to U8.
    pub switches: Option<[Switch; 8]>,
    /// The files of the FILE statements.
    pub files: FileList,
    /// Whether there was a LOAD.
    pub is_loaded: bool,
    /// Whether there was a DATE.
    pub is_dated: bool,
    /// Whether there was a SWITCH.
    pub is_switched: bool,
}

impl Model for Contents {
    ghost use Rattle.s3_ocl.specs.Inner.Steps.{Contents};

    ghost Value = { Contents };

    ghost view = { λ c. record { program = c.program; date = c.date; switches = c.switches; files = c.files; is_loaded = c.is_loaded; is_dated = c.is_dated; is_switched = c.is_switched } };
}

/// Adds a file, if there is one.
fn add_file(files: &mut FileList, file: Option<FileStatement>) -> Result<(), AllocError>
    ensures { OnOk result (files.new ≡ files.old ++ option_to_list file) }
{
    match file {
        None => Ok(()),
        Some(file) => files.push(file),
    }
}

impl Contents {
    /// What no statements say.
    #[tactic(auto, unfolding(crate::specs::Contents::first_in))]
    pub fn new(alloc: Global) -> Contents
        ensures { result ≡ contents_of [] }
    {
        Contents {
            program: None,
            date: None,
            switches: None,
            files: FileList::new(alloc),
            is_loaded: false,
            is_dated: false,
            is_switched: false,
        }
    }

    /// Adds what one more statement says.
    pub fn add(&mut self, statement: &Statement) -> Result<(), AllocError>
        ensures { OnOk result (self.new ≡ contents_with self.old statement.now) }
    {
        add_file(&mut self.files, file_of(&statement.pieces))?;
        self.program = self
            .program
            .or(name_in(Parameter::Program, &statement.pieces));
        self.date = self.date.or(date_in(&statement.pieces));
        self.switches = self.switches.or(switches_in(&statement.pieces));
        self.is_loaded = self.is_loaded || statement.does(Verb::Load);
        self.is_dated = self.is_dated || statement.does(Verb::Date);
        self.is_switched = self.is_switched || statement.does(Verb::Switch);
        Ok(())
    }
}
