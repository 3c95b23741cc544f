//! Chains of calls: each call is in the subroutine that the call before calls.

ghost use Rattle.std.specs.Prelude.{◌≡◌, ℕ, nat_eq, IfOk, filter};
ghost use Rattle.indexmap.specs.IndexSet.{contains};
ghost use Rattle.s3_program.specs.Jumps.{ends_chain};
ghost use Rattle.s3_compile.specs.Inner.Chains.{is_called, is_among};

use indexmap::IndexSet;
use s3_program::call::Call;
use std::alloc::{AllocError, Global};

/// The subroutines that these calls call.
fn callees(alloc: Global, calls: &[Call]) -> Result<IndexSet<usize>, AllocError>
    ensures { IfOk result (λ callees. (subroutine : ℕ) → contains nat_eq callees subroutine ≡ is_called calls.now subroutine) }
{
    let mut callees = IndexSet::new(alloc);
    for call in calls {
        callees.insert(call.callee)?;
    }
    Ok(callees)
}

/// Whether a call is in one of these subroutines.
fn is_within(subroutines: &IndexSet<usize>, call: &Call) -> bool
    ensures { result ≡ is_among (contains nat_eq subroutines.now) call.now.caller }
{
    match call.caller {
        None => false,
        Some(caller) => subroutines.contains(&caller),
    }
}

/// The calls in these subroutines.
fn calls_within(
    alloc: Global,
    subroutines: &IndexSet<usize>,
    calls: &[Call],
) -> Result<Vec<Call>, AllocError>
    ensures { IfOk result (λ within. within.items ≡ filter (λ call. is_among (contains nat_eq subroutines.now) call.caller) calls.now) }
{
    let mut within = Vec::new(alloc);
    for call in calls {
        if is_within(subroutines, call) {
            within.push(*call)?;
        }
    }
    Ok(within)
}

/// The calls in the subroutines that these calls call.
fn later_calls(alloc: Global, calls: &[Call]) -> Result<Vec<Call>, AllocError>
    ensures { IfOk result (λ later. later.items ≡ filter (λ call. is_among (is_called calls.now) call.caller) calls.now) }
{
    let callees = callees(alloc, calls)?;
    calls_within(alloc, &callees, calls)
}

/// The calls that are the ninth of a chain.
pub fn ninth_calls(alloc: Global, calls: &[Call]) -> Result<Vec<Call>, AllocError>
    ensures { IfOk result (λ ninth. ninth.items ≡ filter (λ call. ends_chain calls.now 8 call.caller) calls.now) }
{
    let mut later = later_calls(alloc, calls)?;
    for _before in 1..8u8 {
        later = later_calls(alloc, &later)?;
    }
    Ok(later)
}
