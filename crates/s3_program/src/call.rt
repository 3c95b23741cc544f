//! Calls among subroutines.

/// A call of a subroutine. A subroutine is known by the place of its BEGSR.
#[derive(Clone, Copy, PartialEq, Eq, Hash)]
pub struct Call {
    /// The subroutine in which its EXSR is, none outside of all.
    pub caller: Option<usize>,
    /// The subroutine that it calls.
    pub callee: usize,
}
