//! Tables in which the first entry of each key stays.

ghost use Rattle.std.specs.Prelude.{OnOk, [], ◌∷◌};
ghost use Rattle.s3_compile.specs.Inner.Noted as spec;

use indexmap::IndexMap;
use std::alloc::AllocError;
use std::hash::Hash;

/// Puts an entry for a key after the others of a table, unless the key is there already. It is refused only if memory runs out.
pub fn note<K: Copy + Eq + Hash, T: Copy>(
    table: &mut IndexMap<K, T>,
    key: K,
    value: T,
) -> Result<(), AllocError>
    ensures { OnOk result (spec.FindsMore K.eq table.old table.new ((key, value) ∷ [])) }
{
    if !table.contains_key(&key) {
        table.insert(key, value)?;
    }
    Ok(())
}
