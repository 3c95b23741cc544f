//! The details of a halt: numbers of cards, each with the number of what is wrong there.
ghost use Rattle.std.specs.Prelude.{◌≡◌, [], ◌∷◌, IfOk};
ghost use Rattle.s3_solo.specs.Serving.{details_of};

use s3_lines::Diagnostic;
use std::alloc::{AllocError, Global};

/// The details of a halt for one card: its number in the deck, and the number of what is wrong there. Refused only if memory
/// runs out.
pub fn one_detail(alloc: Global, card: u16, number: u8) -> Result<Vec<(u16, u8)>, AllocError>
    ensures { IfOk result (λ details. details.items ≡ (card, number) ∷ []) }
{
    let mut details = Vec::with_capacity(alloc, 1)?;
    details.push((card, number))?;
    Ok(details)
}

/// The details of a halt for a source with diagnostics, one for each: the number of its card in the deck, and its own number.
/// Refused only if memory runs out.
pub fn details_of(alloc: Global, diagnostics: &[Diagnostic]) -> Result<Vec<(u16, u8)>, AllocError>
    ensures { IfOk result (λ details. details.items ≡ details_of diagnostics.now) }
{
    let mut details = Vec::with_capacity(alloc, diagnostics.len())?;
    for diagnostic in diagnostics {
        details.push((diagnostic.card, diagnostic.number))?;
    }
    Ok(details)
}
