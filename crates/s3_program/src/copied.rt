//! Copies of lists.
ghost use Rattle.std.specs.Prelude.{◌≡◌, map, IfOk};

use std::alloc::{AllocError, Global};

/// New lists with the same items as these lists; refused only if memory runs out.
pub fn copied_all<T: Copy>(alloc: Global, lists: &[Vec<T>]) -> Result<Vec<Vec<T>>, AllocError>
    ensures { IfOk result (λ copies. map (λ list. list.items) copies.items ≡ map (λ list. list.items) lists.now) }
{
    let mut copies = Vec::new(alloc);
    for list in lists {
        copies.push(copied(alloc, list)?)?;
    }
    Ok(copies)
}

/// A new list with the same items as this one; refused only if memory runs out.
pub fn copied<T: Copy>(alloc: Global, items: &[T]) -> Result<Vec<T>, AllocError>
    ensures { IfOk result (λ copy. copy.items ≡ items.now) }
{
    items.iter().copied().collect(alloc)
}
