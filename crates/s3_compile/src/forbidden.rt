//! The calls that are forbidden.

ghost use Rattle.std.specs.Prelude.{◌≡◌, IfOk};
ghost use Rattle.std.specs.List.{list_any};
ghost use Rattle.indexmap.specs.IndexSet.{contains};
ghost use Rattle.s3_program.specs.Jumps.{same_call, is_forbidden};

use crate::chains::ninth_calls;
use crate::circles::calls_in_circles;
use indexmap::IndexSet;
use s3_program::call::Call;
use std::alloc::{AllocError, Global};

/// These calls, each once.
fn distinct(alloc: Global, calls: &[Call]) -> Result<IndexSet<Call>, AllocError>
    ensures { IfOk result (λ distinct. (call : Call) → contains same_call distinct call ≡ list_any (same_call call) calls.now) }
{
    let mut distinct = IndexSet::new(alloc);
    for call in calls {
        distinct.insert(*call)?;
    }
    Ok(distinct)
}

/// The calls that lie in a circle, or, if none does, those that are the ninth of a chain.
pub fn forbidden_calls(alloc: Global, calls: &[Call]) -> Result<IndexSet<Call>, AllocError>
    ensures { IfOk result (λ set. (call : Call) → contains same_call set call ≡ is_forbidden calls.now call) }
{
    let ninth = ninth_calls(alloc, calls)?;
    let circling = calls_in_circles(alloc, &ninth, calls)?;
    if circling.is_empty() {
        return distinct(alloc, &ninth);
    }
    Ok(circling)
}
