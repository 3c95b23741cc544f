//! What an operation needs.

/// What an operation asks of a factor.
#[derive(Clone, Copy)]
pub enum Operand {
    /// There is none.
    Nothing,
    /// A numeric field or literal.
    Number,
    /// An alphanumeric field or literal.
    Text,
    /// A field or a literal.
    Value,
    /// The name of a tag.
    Tag,
    /// The name of a subroutine.
    Subroutine,
    /// The name of a chained file.
    ChainedFile,
}

/// What an operation asks of the result field.
#[derive(Clone, Copy)]
pub enum Target {
    /// There is none.
    Nothing,
    /// A numeric field.
    Number,
    /// An alphanumeric field.
    Text,
    /// A field.
    Any,
}

/// Which resulting indicators an operation takes.
#[derive(Clone, Copy)]
pub enum Marking {
    /// None.
    Never,
    /// Any of the three.
    Optional,
    /// One at least.
    Needed,
    /// The one in columns 54-55, or none.
    First,
}

/// What an operation asks of its two factors together.
#[derive(Clone, Copy)]
pub enum Pairing {
    /// Nothing.
    Free,
    /// Both must be numeric, or both alphanumeric.
    Alike,
    /// Factor 1 must be a key, or a record number, of the file in factor 2.
    KeyOfFile,
}

/// The row of an operation in the table of operations (docs/LANGUAGE.md, "Operations").
#[derive(Clone, Copy)]
pub struct Row {
    /// What factor 1 has to be (columns 18 to 27).
    pub factor1: Operand,
    /// What factor 2 has to be (columns 33 to 42).
    pub factor2: Operand,
    /// What the result has to be (columns 43 to 48).
    pub result: Target,
    /// Whether H is allowed in column 53.
    pub half_adjust: bool,
    /// Which resulting indicators there are (columns 54 to 59).
    pub indicators: Marking,
    /// What the two factors must be together.
    pub pairing: Pairing,
}
