//! The keys of records.
ghost use Rattle.std.specs.Prelude.{◌≡◌, ◌≤◌, ◌^◌, ◌*◌, ◌++◌, ◌∷◌, [], length, map, true, OnOk, IfOk};
ghost use Rattle.std.specs.List.{All};
ghost use Rattle.s3_decimal.specs.Records.{packed_number, zoned_number};
ghost use Rattle.s3_pack_care.specs.Inner.Keys.{fits, key_of as key_of_spec, most_bytes, rank as rank_spec, ranks_in, ranks_of, turned as turned_spec};

use crate::fields::{Form, SortField};
use s3_decimal::{packed_read, zoned_read};
use std::alloc::{AllocError, Global};

/// Above the greatest number of 15 digits.
const NUMBERS: u64 = 1_000_000_000_000_000;

/// A number of at most 15 digits as a natural one, in the same order.
fn rank(value: i64) -> u64
    ensures { result ≡ rank_spec value }
{
    if value < 0 {
        NUMBERS.saturating_sub(value.unsigned_abs())
    } else {
        NUMBERS + value.unsigned_abs()
    }
}

/// A rank, reversed if the field is descending.
fn turned(descending: bool, greatest: u64, rank: u64) -> u64
    ensures { result ≡ turned_spec descending greatest rank }
{
    if descending {
        greatest.saturating_sub(rank)
    } else {
        rank
    }
}

/// The rank of a zoned number; a digit above 9 counts 0.
fn zoned_rank(bytes: &[u8]) -> u64
    requires some { 1 ≤ length bytes.now }
    requires few { length bytes.now ≤ 15 }
    ensures { result ≡ rank_spec (zoned_number bytes.now) }
{
    match zoned_read(bytes, 0) {
        Ok(number) => rank(number.value),
        Err(bad) => rank(bad.number.value),
    }
}

/// The rank of a packed number; a digit above 9 counts 0.
fn packed_rank(bytes: &[u8]) -> u64
    requires some { 1 ≤ length bytes.now }
    requires few { length bytes.now ≤ 8 }
    ensures { result ≡ rank_spec (packed_number bytes.now) }
{
    match packed_read(bytes, 0) {
        Ok(number) => rank(number.value),
        Err(bad) => rank(bad.number.value),
    }
}

/// Appends the ranks of characters.
fn push_characters(key: &mut Vec<u64>, descending: bool, bytes: &[u8]) -> Result<(), AllocError>
    ensures { OnOk result (key.new.items ≡ key.old.items ++ map (turned_spec descending 255) bytes.now) }
{
    for byte in bytes {
        key.push(turned(descending, 255, u64::from(*byte)))?;
    }
    Ok(())
}

/// Appends a rank.
fn push_number(key: &mut Vec<u64>, descending: bool, rank: u64) -> Result<(), AllocError>
    ensures { OnOk result (key.new.items ≡ key.old.items ++ turned_spec descending (2 * 10 ^ 15) rank ∷ []) }
{
    key.push(turned(descending, 2 * NUMBERS, rank))?;
    Ok(())
}

/// Appends what the bytes of a field say of the order of its record.
fn push_ranks(
    key: &mut Vec<u64>,
    descending: bool,
    form: Form,
    bytes: &[u8],
) -> Result<(), AllocError>
    requires some { 1 ≤ length bytes.now }
    requires few { length bytes.now ≤ most_bytes form }
    ensures { OnOk result (key.new.items ≡ key.old.items ++ ranks_in descending form bytes.now) }
{
    match form {
        Form::Characters => push_characters(key, descending, bytes),
        Form::Zoned => push_number(key, descending, zoned_rank(bytes)),
        Form::Packed => push_number(key, descending, packed_rank(bytes)),
    }
}

/// Appends what a field says of the order of a record.
fn push_field(key: &mut Vec<u64>, field: SortField, whole: &[u8]) -> Result<(), AllocError>
    requires { fits field (length whole.now) ≡ true }
    ensures { OnOk result (key.new.items ≡ key.old.items ++ ranks_of whole.now field) }
{
    let bytes = &whole[usize::from(field.from) - 1..usize::from(field.to)];
    push_ranks(key, field.descending, field.form, bytes)
}

/// The key of a record, in which all fields lie.
pub fn key_of(alloc: Global, fields: &[SortField], whole: &[u8]) -> Result<Vec<u64>, AllocError>
    requires { All (λ field. fits field (length whole.now) ≡ true) fields.now }
    ensures { IfOk result (λ key. key.items ≡ key_of_spec fields.now whole.now) }
{
    let mut key = Vec::new(alloc);
    for field in fields {
        push_field(&mut key, *field, whole)?;
    }
    Ok(key)
}
