//! The entries of each kind of card, in the order of their columns.

ghost use Rattle.std.specs.Prelude.{◌≡◌, map};
ghost use Rattle.s3_entries.specs.Inner.Spans.{span, spans_of};

use crate::entry::Entry;
use crate::form::CardForm;
use crate::{calculation, file, header, input, output};

/// The entries of a kind of card, in the order of their first columns.
pub fn entries_of(form: CardForm) -> &'static [Entry]
    ensures { map span result.now ≡ spans_of form }
{
    match form {
        CardForm::Header => &header::CARD,
        CardForm::File => &file::CARD,
        CardForm::Record => &input::RECORD,
        CardForm::RecordGroup => &input::GROUP,
        CardForm::Field => &input::FIELD,
        CardForm::Calculation => &calculation::CARD,
        CardForm::Line => &output::LINE,
        CardForm::LineGroup => &output::GROUP,
        CardForm::OutputField => &output::FIELD,
    }
}
