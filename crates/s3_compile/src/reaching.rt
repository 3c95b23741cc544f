//! Which subroutines reach another by calls: by a search back from it, a call at a time.

ghost use Rattle.std.specs.Prelude.{◌≡◌, ℕ, nat_eq, IfOk, OnOk, [], ◌∷◌, ◌++◌, length, if◌then◌else◌};
ghost use Rattle.std.specs.List.{flat_map};
ghost use Rattle.indexmap.specs.IndexSet.{contains};
ghost use Rattle.s3_program.specs.Jumps.{reaches};
ghost use Rattle.s3_compile.specs.Inner.Reaching.{callers_in, HasCallers, Adds};

use indexmap::{IndexMap, IndexSet};
use s3_program::call::Call;
use std::alloc::{AllocError, Global};

/// Adds a subroutine to those that call another.
fn note_caller(
    alloc: Global,
    callers: &mut IndexMap<usize, Vec<usize>>,
    callee: usize,
    caller: usize,
) -> Result<(), AllocError>
    ensures { OnOk result ((other : ℕ) → callers_in callers.new other ≡ callers_in callers.old other ++ (if nat_eq callee other then caller ∷ [] else [])) }
{
    callers
        .entry(callee)?
        .or_insert(Vec::new(alloc))
        .push(caller)?;
    Ok(())
}

/// The subroutines that call each.
pub fn callers_of_each(
    alloc: Global,
    calls: &[Call],
) -> Result<IndexMap<usize, Vec<usize>>, AllocError>
    ensures { IfOk result (λ callers. HasCallers callers calls.now) }
{
    let mut callers = IndexMap::new(alloc);
    for call in calls {
        if let Some(caller) = call.caller {
            note_caller(alloc, &mut callers, call.callee, caller)?;
        }
    }
    Ok(callers)
}

/// The subroutines that call this one.
fn callers_of(callers: &IndexMap<usize, Vec<usize>>, callee: usize) -> &[usize]
    ensures { result.now ≡ callers_in callers.now callee }
{
    match callers.get(&callee) {
        Some(callers) => callers,
        None => &[],
    }
}

/// Adds a subroutine, and if it is new also to those of the next level.
fn add(
    reaching: &mut IndexSet<usize>,
    next: &mut Vec<usize>,
    subroutine: usize,
) -> Result<(), AllocError>
    ensures { OnOk result (Adds reaching.old reaching.new next.old.items next.new.items (subroutine ∷ [])) }
{
    if reaching.insert(subroutine)? {
        next.push(subroutine)?;
    }
    Ok(())
}

/// Adds some subroutines.
fn add_all(
    reaching: &mut IndexSet<usize>,
    next: &mut Vec<usize>,
    subroutines: &[usize],
) -> Result<(), AllocError>
    ensures { OnOk result (Adds reaching.old reaching.new next.old.items next.new.items subroutines.now) }
{
    for subroutine in subroutines {
        add(reaching, next, *subroutine)?;
    }
    Ok(())
}

/// Adds the callers of the subroutines of a level.
fn add_callers(
    callers: &IndexMap<usize, Vec<usize>>,
    reaching: &mut IndexSet<usize>,
    next: &mut Vec<usize>,
    level: &[usize],
) -> Result<(), AllocError>
    ensures { OnOk result (Adds reaching.old reaching.new next.old.items next.new.items (flat_map (callers_in callers.now) level.now)) }
{
    for callee in level {
        add_all(reaching, next, callers_of(callers, *callee))?;
    }
    Ok(())
}

/// The subroutines from which another is reached by at most so many calls.
pub fn reaching(
    alloc: Global,
    callers: &IndexMap<usize, Vec<usize>>,
    calls: &[Call],
    to: usize,
) -> Result<IndexSet<usize>, AllocError>
    requires { HasCallers callers.now calls.now }
    ensures { IfOk result (λ reaching. (from : ℕ) → contains nat_eq reaching from ≡ reaches calls.now (length calls.now) from to) }
{
    let mut reaching = IndexSet::new(alloc);
    let mut level = Vec::new(alloc);
    add(&mut reaching, &mut level, to)?;
    for _most in 0..calls.len() {
        if level.is_empty() {
            return Ok(reaching);
        }
        let mut next = Vec::new(alloc);
        add_callers(callers, &mut reaching, &mut next, &level)?;
        level = next;
    }
    Ok(reaching)
}
