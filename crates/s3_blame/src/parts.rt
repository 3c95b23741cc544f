//! The entries that the condition of a number tests on a card.
ghost use Rattle.std.specs.Prelude.{◌≡◌, true, [], ◌∷◌, map, filter, IfOk};
ghost use Rattle.s3_blame.specs.Inner.Marks.{span, fails, entry_of, are_of};
ghost use Rattle.s3_blame.specs.Inner.OwnMarks.{are_marked, chosen};

use s3_sheets::FaultyEntry;
use std::alloc::{AllocError, Global};

/// An entry that a number's condition tests, and whether it is in error.
#[derive(Clone, Copy)]
pub struct Part {
    /// Its first column, from 1.
    pub from: usize,
    /// Its last column.
    pub to: usize,
    /// It is to blame for the number.
    pub is_at_fault: bool,
}

/// An entry that a number's condition tests.
pub fn entry(from: usize, to: usize, is_at_fault: bool) -> Part
    ensures from { result.from ≡ from }
    ensures to { result.to ≡ to }
    ensures at_fault { result.is_at_fault ≡ is_at_fault }
{
    Part {
        from,
        to,
        is_at_fault,
    }
}

/// The entry of a number that blames one entry alone.
pub fn entry_alone(from: usize, to: usize) -> [Part; 1]
    ensures spans { map span result ≡ (from, to) ∷ [] }
    ensures fails { map fails result ≡ true ∷ [] }
{
    [entry(from, to, true)]
}

/// Those parts that are in error, as the entries to blame for a number of a card.
fn entries_of_parts(
    alloc: Global,
    card: u16,
    number: u8,
    parts: &[Part],
) -> Result<Vec<FaultyEntry>, AllocError>
    ensures { IfOk result (λ found. found.items ≡ map (entry_of card number) (filter fails parts.now)) }
{
    parts
        .iter()
        .filter(|part| part.is_at_fault)
        .map(|part| FaultyEntry {
            card,
            number,
            from: part.from,
            to: part.to,
        })
        .collect(alloc)
}

/// The entries to blame for a number of a card: those that its condition tests and that are in error. Refused only if memory runs
/// out.
#[tactic(auto, using(crate::proofs::PartLemmas::at_fault_are_parts, crate::proofs::PartLemmas::at_fault_are_chosen, crate::proofs::OwnLemmas::at_fault_are_marked))]
pub fn at_fault(
    alloc: Global,
    card: u16,
    number: u8,
    parts: &[Part],
) -> Result<Vec<FaultyEntry>, AllocError>
    ensures value { IfOk result (λ found. found.items ≡ map (entry_of card number) (filter fails parts.now)) }
    ensures among { IfOk result (λ found. are_of card number (map span parts.now) found.items ≡ true) }
    ensures only { IfOk result (λ found. are_of card number (chosen (map fails parts.now) (map span parts.now)) found.items ≡ true) }
    ensures marked { IfOk result (λ found. are_marked card number (chosen (map fails parts.now) (map span parts.now)) found.items ≡ true) }
{
    let found = entries_of_parts(alloc, card, number, parts)?;
    Ok(found)
}
