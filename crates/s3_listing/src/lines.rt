//! The line of each used slot.
ghost use Rattle.std.specs.Prelude.{◌≡◌, ◌++◌, OnOk};
ghost use Rattle.s3_labels.specs.Inner.AreaNumbers.{area_number};
ghost use Rattle.s3_listing.specs.Inner.Lines.{name_text, label_text, organization_letter, retention_letter, fields_text, slot_line};
ghost use Rattle.s3_listing.specs.Inner.Listing.{area_text};

use s3_cards::{Name, Retention, push_characters, push_number};
use s3_labels::{Area, FileLabel, Organization, Slot};
use std::alloc::AllocError;

/// Appends the lines of an area's used slots.
pub fn push_area(text: &mut Vec<u8>, area: Area, slots: &[Slot]) -> Result<(), AllocError>
    ensures { OnOk result (text.new.items ≡ text.old.items ++ area_text (area_number area) slots.now) }
{
    for slot in slots {
        push_slot(text, area, slot)?;
    }
    Ok(())
}

/// Appends the line of a slot; a free one has none.
#[tactic(auto, unfolding(crate::specs::Inner::Lines::slot_line))]
fn push_slot(text: &mut Vec<u8>, area: Area, slot: &Slot) -> Result<(), AllocError>
    ensures { OnOk result (text.new.items ≡ text.old.items ++ slot_line (area_number area) slot.now) }
{
    match slot {
        Slot::Free => Ok(()),
        Slot::Sound(label) => push_file(text, area, label),
        Slot::Damaged(name) => push_damage(text, area, *name),
    }
}

/// Appends the line of a file.
#[tactic(auto, unfolding(crate::specs::Inner::Lines::slot_line))]
fn push_file(text: &mut Vec<u8>, area: Area, label: &FileLabel) -> Result<(), AllocError>
    ensures { OnOk result (text.new.items ≡ text.old.items ++ slot_line (area_number area) (Slot.Sound label.now)) }
{
    text.extend_from_slice(&[b'0' + area.number() as u8, b' '])?;
    push_name(text, label.name)?;
    text.push(b' ')?;
    push_fields(text, label)?;
    text.push(b'\n')?;
    Ok(())
}

/// Appends the line of a damaged slot.
#[tactic(auto, unfolding(crate::specs::Inner::Lines::slot_line))]
fn push_damage(text: &mut Vec<u8>, area: Area, name: Option<Name>) -> Result<(), AllocError>
    ensures { OnOk result (text.new.items ≡ text.old.items ++ slot_line (area_number area) (Slot.Damaged name)) }
{
    text.extend_from_slice(&[b'0' + area.number() as u8, b' '])?;
    push_label(text, name)?;
    text.push(b' ')?;
    text.extend_from_slice(b"DAMAGED")?;
    text.push(b'\n')?;
    Ok(())
}

/// Appends a label, or the placeholder of a label that isn't a name.
fn push_label(text: &mut Vec<u8>, name: Option<Name>) -> Result<(), AllocError>
    ensures { OnOk result (text.new.items ≡ text.old.items ++ label_text name) }
{
    match name {
        Some(name) => push_name(text, name),
        None => text.extend_from_slice(b"????????"),
    }
}

/// Appends the characters of a label.
fn push_name(text: &mut Vec<u8>, name: Name) -> Result<(), AllocError>
    ensures { OnOk result (text.new.items ≡ text.old.items ++ name_text name) }
{
    push_characters(text, &name.codes)
}

/// Appends what a label says of its file, except for its name.
#[tactic(auto, unfolding(crate::specs::Inner::Lines::fields_text))]
fn push_fields(text: &mut Vec<u8>, label: &FileLabel) -> Result<(), AllocError>
    ensures { OnOk result (text.new.items ≡ text.old.items ++ fields_text label.now) }
{
    let organization = letter_of_organization(label.organization);
    let retention = letter_of_retention(label.retention);
    text.extend_from_slice(&[organization, b' ', retention, b' '])?;
    push_number(text, u64::from(label.record_length), 4)?;
    text.push(b' ')?;
    push_number(text, u64::from(label.capacity), 8)?;
    text.push(b' ')?;
    push_number(text, u64::from(label.count), 8)?;
    Ok(())
}

/// The letter of an organization.
pub fn letter_of_organization(organization: Organization) -> u8
    ensures { result ≡ organization_letter organization }
{
    match organization {
        Organization::Sequential => b'S',
        Organization::Indexed => b'I',
        Organization::Direct => b'D',
    }
}

/// The letter of a retention.
pub fn letter_of_retention(retention: Retention) -> u8
    ensures { result ≡ retention_letter retention }
{
    match retention {
        Retention::Temporary => b'T',
        Retention::Scratch => b'S',
        Retention::Permanent => b'P',
    }
}
