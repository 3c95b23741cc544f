//! The kinds of cards that have entries of their own.

/// The kinds of cards that have entries of their own.
#[derive(Clone, Copy)]
pub enum CardForm {
    /// The control card.
    Header,
    /// A file description.
    File,
    /// An input line that begins a record type.
    Record,
    /// An input line that continues a record type: AND or OR.
    RecordGroup,
    /// A field of a record.
    Field,
    /// A calculation.
    Calculation,
    /// An output line that begins a record.
    Line,
    /// An output line that continues the conditions of a record: AND or OR.
    LineGroup,
    /// A field of an output record.
    OutputField,
}

impl CardForm {
    /// All kinds, in the order of the sheets.
    pub const ALL: [CardForm; 9] = [
        CardForm::Header,
        CardForm::File,
        CardForm::Record,
        CardForm::RecordGroup,
        CardForm::Field,
        CardForm::Calculation,
        CardForm::Line,
        CardForm::LineGroup,
        CardForm::OutputField,
    ];

    /// The letter of its sheet, in column 6.
    pub fn sheet(self) -> &'static str {
        match self {
            CardForm::Header => "H",
            CardForm::File => "F",
            CardForm::Record | CardForm::RecordGroup | CardForm::Field => "I",
            CardForm::Calculation => "C",
            CardForm::Line | CardForm::LineGroup | CardForm::OutputField => "O",
        }
    }

    /// What its sheet calls it: `record`, `group` for an AND or OR line, `field`; `card` if the sheet has only one kind.
    pub fn name(self) -> &'static str {
        match self {
            CardForm::Header | CardForm::File | CardForm::Calculation => "card",
            CardForm::Record | CardForm::Line => "record",
            CardForm::RecordGroup | CardForm::LineGroup => "group",
            CardForm::Field | CardForm::OutputField => "field",
        }
    }
}
