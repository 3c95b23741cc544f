//! Calls in a circle: what such a call calls reaches its own subroutine.

ghost use Rattle.std.specs.Prelude.{◌≡◌, ℕ, nat_eq, IfOk, OnOk, filter, ◌||◌, ◌&&◌};
ghost use Rattle.std.specs.List.{list_any};
ghost use Rattle.indexmap.specs.IndexSet.{contains};
ghost use Rattle.s3_program.specs.Jumps.{is_place, same_call, is_in_circle, ends_chain};
ghost use Rattle.s3_compile.specs.Inner.Reaching.{HasCallers};

use crate::reaching::{callers_of_each, reaching};
use indexmap::{IndexMap, IndexSet};
use s3_program::call::Call;
use std::alloc::{AllocError, Global};

/// Whether a call is in a subroutine that is reached from what it calls.
fn leads_back(reaching: &IndexSet<usize>, call: &Call, caller: usize) -> bool
    ensures { result ≡ (is_place call.now.caller caller && contains nat_eq reaching.now call.now.callee) }
{
    call.caller == Some(caller) && reaching.contains(&call.callee)
}

/// Adds the calls in a subroutine of what reaches it.
fn note_leading_back(
    circling: &mut IndexSet<Call>,
    reaching: &IndexSet<usize>,
    calls: &[Call],
    caller: usize,
) -> Result<(), AllocError>
    ensures { OnOk result ((call : Call) → contains same_call circling.new call
        ≡ (contains same_call circling.old call
        || list_any (λ other. same_call call other && (is_place other.caller caller && contains nat_eq reaching.now other.callee)) calls.now)) }
{
    for call in calls {
        if leads_back(reaching, call, caller) {
            circling.insert(*call)?;
        }
    }
    Ok(())
}

/// Adds the calls in a subroutine that lie in a circle.
fn note_circles(
    alloc: Global,
    circling: &mut IndexSet<Call>,
    callers: &IndexMap<usize, Vec<usize>>,
    calls: &[Call],
    caller: usize,
) -> Result<(), AllocError>
    requires { HasCallers callers.now calls.now }
    ensures { OnOk result ((call : Call) → contains same_call circling.new call
        ≡ (contains same_call circling.old call
        || (is_place call.caller caller && (list_any (same_call call) calls.now && is_in_circle calls.now call)))) }
{
    let reaching = reaching(alloc, callers, calls, caller)?;
    note_leading_back(circling, &reaching, calls, caller)
}

/// The calls in these subroutines that lie in a circle.
fn circles_through(
    alloc: Global,
    subroutines: &[usize],
    callers: &IndexMap<usize, Vec<usize>>,
    calls: &[Call],
) -> Result<IndexSet<Call>, AllocError>
    requires { HasCallers callers.now calls.now }
    ensures { IfOk result (λ circling. (call : Call) → contains same_call circling call
        ≡ (list_any (is_place call.caller) subroutines.now && (list_any (same_call call) calls.now && is_in_circle calls.now call))) }
{
    let mut circling = IndexSet::new(alloc);
    for subroutine in subroutines {
        note_circles(alloc, &mut circling, callers, calls, *subroutine)?;
    }
    Ok(circling)
}

/// The calls in these subroutines that lie in a circle, by a table of callers that it makes.
fn circles_among(
    alloc: Global,
    subroutines: &[usize],
    calls: &[Call],
) -> Result<IndexSet<Call>, AllocError>
    ensures { IfOk result (λ circling. (call : Call) → contains same_call circling call
        ≡ (list_any (is_place call.caller) subroutines.now && (list_any (same_call call) calls.now && is_in_circle calls.now call))) }
{
    let callers = callers_of_each(alloc, calls)?;
    let circling = circles_through(alloc, subroutines, &callers, calls);
    drop(callers);
    circling
}

/// The subroutines in which these calls are.
fn subroutines_of(alloc: Global, calls: &[Call]) -> Result<IndexSet<usize>, AllocError>
    ensures { IfOk result (λ subroutines. (subroutine : ℕ) → contains nat_eq subroutines subroutine ≡ list_any (λ call. is_place call.caller subroutine) calls.now) }
{
    let mut subroutines = IndexSet::new(alloc);
    for call in calls {
        if let Some(caller) = call.caller {
            subroutines.insert(caller)?;
        }
    }
    Ok(subroutines)
}

/// The calls that lie in a circle. Each is the ninth of a chain, so that only the subroutines of these are tried.
pub fn calls_in_circles(
    alloc: Global,
    ninth: &[Call],
    calls: &[Call],
) -> Result<IndexSet<Call>, AllocError>
    requires { ninth.now ≡ filter (λ call. ends_chain calls.now 8 call.caller) calls.now }
    ensures { IfOk result (λ circling. (call : Call) → contains same_call circling call
        ≡ (list_any (same_call call) calls.now && is_in_circle calls.now call)) }
{
    if ninth.is_empty() {
        return Ok(IndexSet::new(alloc));
    }
    let subroutines = subroutines_of(alloc, ninth)?;
    let circling = circles_among(alloc, subroutines.as_slice(), calls);
    drop(subroutines);
    circling
}
