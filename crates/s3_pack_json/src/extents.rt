//! Runs of sectors as objects.
ghost use Rattle.std.specs.Prelude.{◌≡◌, IfOk, map};
ghost use Rattle.s3_json_lines.specs.Inner.Values.{array_of, cell_json, json_of};
ghost use Rattle.s3_pack_json.specs.Inner.Objects.{extent_json, tracks_json};

use s3_json_lines::{Cell, Value, object};
use s3_store::Stretch;
use std::alloc::{AllocError, Global};

/// The sectors of a track.
const TRACK: u16 = 24;

/// How many tracks a run of sectors has.
pub fn tracks_cell<'a>(run: Stretch) -> Cell<'a>
    ensures { cell_json result ≡ tracks_json run }
{
    Cell::Number(u64::from(run.sectors / TRACK))
}

/// The extents of a file, as a list of objects.
#[tactic(auto, using(s3_json_lines::proofs::Views::view_list))]
pub fn extents_value(alloc: Global, extents: &[Stretch]) -> Result<Value, AllocError>
    ensures { IfOk result (λ value. json_of value ≡ array_of (map extent_json extents.now)) }
{
    let mut values = Vec::new(alloc);
    for extent in extents {
        values.push(extent_value(alloc, *extent)?)?;
    }
    Ok(Value::List(values))
}

/// An extent as an object.
fn extent_value(alloc: Global, extent: Stretch) -> Result<Value, AllocError>
    ensures { IfOk result (λ value. json_of value ≡ extent_json extent) }
{
    object(
        alloc,
        &[
            ("sector", Cell::Number(u64::from(extent.start))),
            ("tracks", tracks_cell(extent)),
        ],
    )
}
