//! Columns of a card.

/// The columns of a card from one to another, both counted from 1 and both taken.
#[derive(Clone, Copy)]
pub struct Span {
    /// The first column, from 1.
    pub from: usize,
    /// The last column, at most 96.
    pub to: usize,
}

/// Columns of a card: `span!(15 to 18)`, or `span!(TYPE, CONDITION)` from those of one entry to those of another.
#[macro_export]
macro_rules! span {
    ($from:literal to $to:literal) => {
        $crate::Span {
            from: $from,
            to: $to,
        }
    };
    ($first:path, $last:path) => {
        $crate::Span {
            from: $first.from,
            to: $last.to,
        }
    };
}
