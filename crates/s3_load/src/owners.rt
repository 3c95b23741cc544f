//! Which of some fields has each byte of a record.
ghost use Rattle.std.specs.Prelude.{◌≡◌, ◌<◌, ◌||◌, ℕ, length, slice_set};
ghost use Rattle.s3_cells.specs.Inner.Fields.{LiesIn};
ghost use Rattle.s3_load.specs.Inner.Columns.{has_byte};
ghost use Rattle.s3_load.specs.Inner.Owners.{IsFree, is_owned, owns_whole};

use s3_cells::Field;

/// Gives a field, by its number from 1, the bytes of a record that have no owner.
#[tactic(auto, using(crate::proofs::OwnerLemmas::none_between, crate::proofs::OwnerLemmas::own_more, crate::proofs::OwnerLemmas::own_all))]
pub fn own(field: &Field, number: usize, owners: &mut [usize])
    requires some { 0 < number }
    requires within { LiesIn (length owners.old) field.now }
    ensures { (place : ℕ) → is_owned owners.new place ≡ (is_owned owners.old place || has_byte place field.now) }
{
    let start = usize::from(field.start);
    for place in start..start + usize::from(field.width) {
        owners[place] = owner_after(owners[place], number);
    }
}

/// The owner of a byte that is given to a field.
fn owner_after(owner: usize, number: usize) -> usize
    requires { 0 < number }
    ensures { 0 < result }
{
    if owner == 0 { number } else { owner }
}

/// The least number of an owner of a field's bytes; 0 if none of them has an owner.
#[tactic(auto, using(crate::proofs::OwnerLemmas::none_looked, crate::proofs::OwnerLemmas::one_more_looked, crate::proofs::OwnerLemmas::all_looked))]
pub fn first_owner(field: &Field, owners: &[usize]) -> usize
    requires { LiesIn (length owners.now) field.now }
    ensures { result ≡ 0 → IsFree owners.now field.now }
{
    let mut first = 0usize;
    let start = usize::from(field.start);
    for place in start..start + usize::from(field.width) {
        first = lesser(first, owners[place]);
    }
    first
}

/// The lesser of two numbers, of which 0 means none.
fn lesser(one: usize, other: usize) -> usize
    ensures one { result ≡ 0 → one ≡ 0 }
    ensures other { result ≡ 0 → other ≡ 0 }
{
    if one == 0 || other != 0 && other < one {
        other
    } else {
        one
    }
}

/// Whether each byte of a field has an owner.
#[tactic(auto, using(crate::proofs::OwnerLemmas::none_whole, crate::proofs::OwnerLemmas::one_more_whole, crate::proofs::OwnerLemmas::all_whole, crate::proofs::OwnerLemmas::one_missing))]
pub fn is_owned_whole(field: &Field, owners: &[usize]) -> bool
    requires { LiesIn (length owners.now) field.now }
    ensures { result ≡ owns_whole owners.now field.now }
{
    let start = usize::from(field.start);
    for place in start..start + usize::from(field.width) {
        if owners[place] == 0 {
            return false;
        }
    }
    true
}
