//! Which numbers the kept packs have, and which of these packs a save removes.
ghost use Rattle.std.specs.Prelude.{◌≡◌, not, [], ◌∷◌, ◌++◌, position, IfOk, OnOk};
ghost use Rattle.std.specs.List.{list_all};
ghost use Rattle.s3_day_files.specs.Inner.Numbering.{before_gap as before_gap_spec, begins_with_gap as begins_with_gap_spec, end_of_moves as end_of_moves_spec, ends_with_gap as ends_with_gap_spec, is_free, is_pack as is_pack_spec, kept_in, packs_before as packs_before_spec, packs_from, surplus as surplus_spec};

use std::alloc::{AllocError, Global};

/// How many free numbers one after another end the list of kept packs. Killed saves leave fewer between two packs.
const LONGEST_GAP: usize = 8;

/// What has a name.
#[derive(Clone, Copy, PartialEq, Eq)]
pub enum AtName {
    /// Nothing: its number is free.
    Nothing,
    /// A pack.
    Pack,
    /// Anything else.
    Other,
}

/// The numbers of the kept packs, ascending, given what has the names from number 1 on: those of the packs before the first gap.
pub fn kept_numbers(alloc: Global, names: &[AtName]) -> Result<Vec<usize>, AllocError>
    ensures { IfOk result (λ numbers. numbers.items ≡ kept_in names.now) }
{
    let listed = before_gap(names);
    let mut numbers = Vec::new(alloc);
    for (before, name) in listed.iter().enumerate() {
        push_pack(&mut numbers, before + 1, *name)?;
    }
    Ok(numbers)
}

/// Appends a number if a pack has it.
fn push_pack(numbers: &mut Vec<usize>, number: usize, name: AtName) -> Result<(), AllocError>
    ensures { OnOk result (numbers.new.items ≡ numbers.old.items ++ packs_from number (name ∷ [])) }
{
    if let AtName::Pack = name {
        numbers.push(number)?;
    }
    Ok(())
}

/// The names before the first gap.
#[tactic(auto, using(crate::proofs::NumberLemmas::gap_step, crate::proofs::NumberLemmas::gap_found, crate::proofs::NumberLemmas::gap_none))]
fn before_gap(names: &[AtName]) -> &[AtName]
    ensures { result.now ≡ before_gap_spec names.now }
{
    for start in 0..names.len() {
        if begins_with_gap(&names[start..]) {
            return &names[..start];
        }
    }
    names
}

/// Whether the first numbers are free, as many as a gap has.
fn begins_with_gap(names: &[AtName]) -> bool
    ensures { result ≡ begins_with_gap_spec names.now }
{
    names.len() >= LONGEST_GAP && are_free(&names[..LONGEST_GAP])
}

/// Whether the last numbers are free, as many as a gap has: no further name is read.
pub fn ends_with_gap(names: &[AtName]) -> bool
    ensures { result ≡ ends_with_gap_spec names.now }
{
    begins_with_gap(&names[names.len().saturating_sub(LONGEST_GAP)..])
}

/// Whether all these numbers are free.
fn are_free(names: &[AtName]) -> bool
    ensures { result ≡ list_all is_free names.now }
{
    names.iter().all(|name| matches!(name, AtName::Nothing))
}

/// The number that the last pack gets when the packs move to the next number, given what has the names from number 1 on: the first
/// number that no pack has if that is free, else the one before it.
pub fn end_of_moves(names: &[AtName]) -> usize
    ensures { result ≡ end_of_moves_spec names.now }
{
    let packs = packs_before(names);
    match names.get(packs) {
        Some(AtName::Nothing) => packs + 1,
        _ => packs,
    }
}

/// How many packs come before the first number that no pack has.
fn packs_before(names: &[AtName]) -> usize
    ensures { result ≡ packs_before_spec names.now }
{
    first_without_pack(names).unwrap_or(names.len())
}

fn first_without_pack(names: &[AtName]) -> Option<usize>
    ensures { result ≡ position (λ name. not (is_pack_spec name)) names.now }
{
    names.iter().position(|name| !is_pack(*name))
}

fn is_pack(name: AtName) -> bool
    ensures { result ≡ is_pack_spec name }
{
    matches!(name, AtName::Pack)
}

/// The packs that a save removes, of those that are kept after the moves, given how many were kept before the save and how many are
/// wanted.
pub fn surplus(numbers: &[usize], before: usize, wanted: usize) -> &[usize]
    ensures { result.now ≡ surplus_spec wanted before numbers.now }
{
    let most = before.saturating_sub(1).max(wanted);
    numbers.get(most..).unwrap_or(&[])
}
