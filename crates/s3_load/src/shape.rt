//! The shape of a file: how long its records are, and how they are found.
ghost use Rattle.std.specs.Prelude.{◌≡◌, true, IsTrue, OnOk, IfErr};
ghost use Rattle.s3_slots.specs.Slots.{standing};
ghost use Rattle.s3_slots.specs.declared.slot.Standing.TheVariants.{Present};
ghost use Rattle.s3_labels.specs.Inner.Areas.{slots_at};
ghost use Rattle.s3_load.specs.Inner.Loaded.{has_key as has_key_spec};
ghost use Rattle.s3_load.specs.Inner.Shapes.{has_shape as has_shape_spec, keeps_shape};
ghost use Rattle.s3_load.specs.Inner.Refusals.{NamesNone};

use crate::fault::LoadFault;
use crate::filling::has_key;
use crate::order::Order;
use s3_labels::{AreaSlots, FileLabel, Organization, Standing};
use s3_lines::sheet::KeyField;
use s3_slots::standing_of;

/// The shape of a file.
#[derive(Clone, Copy)]
pub struct Shape {
    /// How records are found.
    pub organization: Organization,
    /// The bytes of a record.
    pub record_length: u16,
    /// The key, if records are found by one.
    pub key: Option<KeyField>,
}

impl Shape {
    /// The shape of a file that is there.
    fn of(label: &FileLabel) -> Shape {
        let key = match label.organization {
            Organization::Indexed => Some(KeyField {
                length: label.key_length,
                start: label.key_start,
            }),
            Organization::Sequential | Organization::Direct => None,
        };
        Shape {
            organization: label.organization,
            record_length: label.record_length,
            key,
        }
    }

    /// The shape that a load gives a new file.
    fn asked(order: &Order<'_>) -> Shape {
        let organization = match order.key {
            Some(_) => Organization::Indexed,
            None => Organization::Sequential,
        };
        Shape {
            organization,
            record_length: order.layout.record_length,
            key: order.key,
        }
    }
}

/// Whether a file has the records and the key that a load asks for.
pub fn has_shape(label: &FileLabel, order: &Order<'_>) -> bool
    ensures value { result ≡ has_shape_spec order.now label.now }
    ensures key { IsTrue result → has_key_spec order.now.key label.now ≡ true }
    ensures long { IsTrue result → label.now.record_length ≡ order.now.layout.now.record_length }
{
    has_key(label, order.key) && label.record_length == order.layout.record_length
}

/// Refuses a new file in the place of one of another shape, unless the order allows it.
pub fn refuse_other_shape(areas: &AreaSlots, order: &Order<'_>) -> Result<(), LoadFault>
    ensures shaped { OnOk result (keeps_shape order.now (standing order.now.name (slots_at order.now.level areas.now)) ≡ true) }
    ensures no_slot { IfErr result NamesNone }
{
    match standing_of(order.name, areas.slots(order.level)) {
        Standing::Absent | Standing::Blocked => Ok(()),
        Standing::Present(label) => {
            if may_replace(&label, order) {
                Ok(())
            } else {
                Err(LoadFault::OtherShape(Shape::of(&label), Shape::asked(order)))
            }
        }
    }
}

/// Whether a load may replace a file by its shape, or doesn't replace it.
fn may_replace(label: &FileLabel, order: &Order<'_>) -> bool
    ensures { result ≡ keeps_shape order.now (Present label.now) }
{
    order.appends || order.reshapes || has_shape(label, order)
}
