//! Reading card by card: what is kept of the cards before, and what it says of the next one.

ghost use Rattle.std.specs.Prelude.{◌≡◌, ◌<◌, ◌^◌, ◌&&◌, ◌||◌, ◌==◌, length, OnOk, IfOk};
ghost use Rattle.s3_entries.specs.declared.shared.TheConstants as shared;
ghost use Rattle.s3_sheets.specs.Columns.{columns as columns_spec, are_blank as are_blank_spec};
ghost use Rattle.s3_sheets.specs.Kinds.{kind_of as kind_of_spec};
ghost use Rattle.s3_sheets.specs.Sheets.{length_for, file_of as file_of_spec, field_of as field_of_spec, result_defined as result_defined_spec, exceeds as exceeds_spec, length_behind as length_behind_spec, line_length as line_length_spec, has_code_past as has_code_past_spec, names_position_past as position_past_spec};
ghost use Rattle.s3_sheets.specs.Inner.Progress.{is_misplaced_behind, lacks_its_file, is_outside_behind, length_named, passes_limit as passes_limit_spec, files_with, fields_with};

use crate::columns::{columns, number};
use crate::faults::{Faults, faults_of};
use crate::kind::{CardKind, kind_of};
use crate::known::{KnownFields, KnownFiles};
use crate::lines::maybe_name;
use s3_cards::{Card, Name, are_blank};
use s3_entries::{calculation, file, input, output, shared};
use std::alloc::{AllocError, Global};
use std::marker::Model;

/// The most files of a program.
const MOST_FILES: usize = 20;

/// The most fields of a program.
const MOST_FIELDS: usize = 999;

/// What is wrong with a card, by its own columns and by the cards before it.
#[derive(Clone, Copy)]
pub struct Standing {
    /// What its own columns show: diagnostics 2 to 4.
    pub faults: Faults,
    /// Whether it is of no sheet, or out of the order of the sheets: diagnostic 1.
    pub is_misplaced: bool,
    /// Whether it is an output line without a file, with no output line before it: diagnostic 3.
    pub lacks_file: bool,
    /// Whether a position on it lies outside its record: diagnostic 4.
    pub is_outside: bool,
    /// Whether it defines a file past the twentieth or a field past the 999th: diagnostic 13.
    pub is_too_many: bool,
}

/// What is kept of the cards that were read so far, so that each is looked at once.
#[derive(Drop)]
pub struct Progress {
    latest_sheet: u8,
    has_output_line: bool,
    files: KnownFiles,
    /// The record length that field lines go by, if it is known.
    input_length: Option<u16>,
    /// The record length that field cards go by, if it is known.
    output_length: Option<u16>,
    fields: KnownFields,
}

impl Model for Progress {
    ghost use Rattle.s3_sheets.specs.Inner.Progress.{Kept};

    ghost Value = { Kept };

    ghost view = { λ p. record {
      latest_sheet = p.latest_sheet;
      has_output_line = p.has_output_line;
      files = p.files;
      input_length = p.input_length;
      output_length = p.output_length;
      fields = p.fields;
    } };
}

impl Progress {
    ghost use Rattle.s3_sheets.specs.Inner.Progress.{nothing_kept, standing_behind, kept_behind};

    /// What is kept before the first card: nothing.
    pub fn new(alloc: Global) -> Progress
        ensures { result ≡ nothing_kept }
    {
        Progress {
            latest_sheet: 0,
            has_output_line: false,
            files: KnownFiles::new(alloc),
            input_length: None,
            output_length: None,
            fields: KnownFields::new(alloc),
        }
    }

    /// Takes one more card, and answers what is wrong with it by its columns and the cards before. It is refused only if memory
    /// runs out.
    #[tactic(auto, unfolding(crate::specs::Inner::Progress::standing_behind, crate::specs::Inner::Progress::kept_behind, crate::specs::Inner::Progress::is_at_fault_behind, crate::specs::Inner::Progress::files_with, crate::specs::Inner::Progress::fields_with))]
    pub fn enter(&mut self, card: &Card) -> Result<Standing, AllocError>
        ensures standing { IfOk result (λ standing. standing ≡ standing_behind self.old card.now) }
        ensures kept { OnOk result (self.new ≡ kept_behind self.old card.now) }
    {
        let kind = kind_of(card);
        let is_misplaced = is_misplaced(kind, self.latest_sheet);
        let lacks_file = self.lacks_file(kind, card);
        let named = self.length_named(card);
        let is_outside = self.is_outside(kind, card, named);
        let faults = faults_of(card);
        let is_at_fault = is_misplaced || lacks_file || faults.any();
        let known_files = self.files.len();
        self.files.add(file_of(kind, is_at_fault, card))?;
        let known_fields = self.fields.len();
        self.fields
            .add(field_of(kind, is_at_fault || is_outside, card))?;
        self.input_length = length_behind(
            kind.is_record(),
            is_at_fault || has_code_past(card, named),
            named,
            self.input_length,
        );
        self.output_length = length_behind(
            kind.is_output_line(),
            is_at_fault,
            line_length(card, named, self.output_length),
            self.output_length,
        );
        self.latest_sheet = self.latest_sheet.max(kind.sheet());
        self.has_output_line = self.has_output_line || kind.is_output_line();
        Ok(Standing {
            faults,
            is_misplaced,
            lacks_file,
            is_outside,
            is_too_many: passes_limit(MOST_FILES, known_files, self.files.len())
                || passes_limit(MOST_FIELDS, known_fields, self.fields.len()),
        })
    }

    fn lacks_file(&self, kind: CardKind, card: &Card) -> bool
        ensures { result ≡ lacks_its_file self.now kind card.now }
    {
        kind.is_output_line() && are_blank(columns(card, shared::FILENAME)) && !self.has_output_line
    }

    /// The record length of the file that a card names.
    fn length_named(&self, card: &Card) -> Option<u16>
        ensures { result ≡ length_named self.now card.now }
    {
        self.files
            .record_length(&Name::of(columns(card, shared::FILENAME)))
    }

    /// The record length that the positions on a card go by, if it is known. For a card without such positions, any length.
    pub fn position_length(&self, card: &Card) -> Option<u16>
        ensures { result ≡ length_for (kind_of_spec card.now) (length_named self.now card.now) self.now.input_length self.now.output_length }
    {
        match kind_of(card) {
            CardKind::Record => self.length_named(card),
            CardKind::RecordAnd | CardKind::RecordOr | CardKind::Field => self.input_length,
            _ => self.output_length,
        }
    }

    /// Whether a position on a card lies outside its record; `named` is the record length of the file that the card names.
    #[tactic(auto, unfolding(crate::specs::Inner::Progress::is_outside_behind))]
    fn is_outside(&self, kind: CardKind, card: &Card, named: Option<u16>) -> bool
        requires { named ≡ length_named self.now card.now }
        ensures { result ≡ is_outside_behind self.now kind card.now }
    {
        let length = match kind {
            CardKind::Record => named,
            CardKind::RecordAnd | CardKind::RecordOr | CardKind::Field => self.input_length,
            _ => self.output_length,
        };
        names_position_past(kind, card, length)
    }
}

fn is_misplaced(kind: CardKind, latest_sheet: u8) -> bool
    ensures { result ≡ is_misplaced_behind kind latest_sheet }
{
    match kind {
        CardKind::Comment => false,
        CardKind::Unknown => true,
        _ => kind.sheet() < latest_sheet || (kind.sheet() == 1 && latest_sheet == 1),
    }
}

/// Whether a number is known to be more than another one.
pub fn exceeds(number: Option<u16>, most: Option<u16>) -> bool
    ensures { result ≡ exceeds_spec number most }
{
    match (number, most) {
        (Some(number), Some(most)) => most < number,
        _ => false,
    }
}

/// Whether the position of some code lies past a record.
fn has_code_past(card: &Card, length: Option<u16>) -> bool
    ensures { result ≡ has_code_past_spec card.now length }
{
    exceeds(number(columns(card, input::POSITION_1)), length)
        || exceeds(number(columns(card, input::POSITION_2)), length)
        || exceeds(number(columns(card, input::POSITION_3)), length)
}

/// Whether a position on a card lies past a record.
fn names_position_past(kind: CardKind, card: &Card, length: Option<u16>) -> bool
    ensures { result ≡ position_past_spec kind card.now length }
{
    match kind {
        CardKind::Record | CardKind::RecordAnd | CardKind::RecordOr => has_code_past(card, length),
        CardKind::Field => exceeds(number(columns(card, input::TO)), length),
        CardKind::OutputField => exceeds(number(columns(card, output::END_POSITION)), length),
        _ => false,
    }
}

/// The file that a card defines, with its record length; a card in error defines none.
fn file_of(kind: CardKind, is_at_fault: bool, card: &Card) -> Option<(Name, u16)>
    ensures { result ≡ file_of_spec kind is_at_fault card.now }
{
    match (kind, is_at_fault) {
        (CardKind::File, false) => Some((
            Name::of(columns(card, shared::FILENAME)),
            number(columns(card, file::RECORD_LENGTH)).unwrap_or(0),
        )),
        _ => None,
    }
}

/// The field that the result of a C card is, if the card has an operation and gives it a length.
fn result_defined(card: &Card) -> Option<Name>
    ensures { result ≡ result_defined_spec card.now }
{
    if are_blank(columns(card, calculation::OPERATION))
        || are_blank(columns(card, calculation::LENGTH))
    {
        None
    } else {
        maybe_name(columns(card, calculation::RESULT))
    }
}

/// The field that a card defines; a card in error defines none.
fn field_of(kind: CardKind, is_at_fault: bool, card: &Card) -> Option<Name>
    ensures { result ≡ field_of_spec kind is_at_fault card.now }
{
    match (kind, is_at_fault) {
        (CardKind::Field, false) => Some(Name::of(columns(card, input::FIELD_NAME))),
        (CardKind::Calculation, false) => result_defined(card),
        _ => None,
    }
}

/// The record length after a card. A record or line card sets a new one, which isn't known if the card is in error.
fn length_behind(
    is_new: bool,
    is_at_fault: bool,
    new: Option<u16>,
    last: Option<u16>,
) -> Option<u16>
    ensures { result ≡ length_behind_spec is_new is_at_fault new last }
{
    match (is_new, is_at_fault) {
        (false, _) => last,
        (true, false) => new,
        (true, true) => None,
    }
}

/// The record length of a line card's file: one without a name takes the file of the line before.
fn line_length(card: &Card, named: Option<u16>, last: Option<u16>) -> Option<u16>
    ensures { result ≡ line_length_spec (are_blank_spec (columns_spec card.now shared.FILENAME)) named last }
{
    if are_blank(columns(card, shared::FILENAME)) {
        last
    } else {
        named
    }
}

/// Whether a list has become longer than it may be.
fn passes_limit(most: usize, old: usize, new: usize) -> bool
    requires { most < 2 ^ 32 }
    ensures { result ≡ passes_limit_spec most old new }
{
    old == most && new == most + 1
}
