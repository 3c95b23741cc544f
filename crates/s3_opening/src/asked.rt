//! What an F line asks of the pack.
ghost use Rattle.std.specs.Prelude.{◌≡◌, true, not, is_some, if◌then◌else◌};
ghost use Rattle.std.specs.Option.{option_copied};
ghost use Rattle.s3_lines.specs.Files.{is_disk};
ghost use Rattle.s3_opening.specs.Opening.{statement_of as statement_of_spec};
ghost use Rattle.s3_slots.specs.Labels.{is_indexed};
ghost use Rattle.s3_lines.specs.Inner.Ranges.{file_in_range};
ghost use Rattle.s3_ocl.specs.Inner.Sound.{is_sound_file, is_size};
ghost use Rattle.s3_slots.specs.Inner.Making.{IsNewFile, IsSize};
ghost use Rattle.s3_opening.specs.Asked.{is_switched_on as is_switched_on_spec, is_used as is_used_spec, is_new as is_new_spec, key_length_of as key_length_spec, key_start_of as key_start_spec, is_of_layout as is_of_layout_spec, organization_of as organization_spec, size_of as size_spec, new_file as new_file_spec};

use s3_cards::Name;
use s3_lines::indicator::Indicator;
use s3_lines::sheet::{FileLine, KeyField};
use s3_meaning::is_switch_on;
use s3_ocl::{FileSize, FileStatement};
use s3_slots::{FileLabel, NewFile, Organization, Size};

/// Whether the switch of a condition is on.
fn is_switched_on(switches: u8, condition: Option<Indicator>) -> bool
    ensures { result ≡ is_switched_on_spec switches condition }
{
    match condition {
        Some(Indicator::Switch(number)) => is_switch_on(switches, number),
        _ => true,
    }
}

/// Whether a file is on the pack and used: its device is DISK, and the switch that its F line names, if any, is on. U1 is the
/// highest bit of the switches.
pub fn is_used(switches: u8, line: &FileLine) -> bool
    ensures { result ≡ is_used_spec switches line.now }
{
    line.device.is_disk() && is_switched_on(switches, line.condition)
}

/// Whether the start of the job makes the file of this F line: it is a load.
pub fn is_new(line: &FileLine) -> bool
    ensures { result ≡ is_new_spec line.now }
{
    line.usage.is_output() && !line.has_additions
}

/// The length of a key, 0 if there is none.
fn key_length_of(key: Option<KeyField>) -> u8
    ensures { result ≡ key_length_spec key }
{
    match key {
        None => 0,
        Some(key) => key.length,
    }
}

/// The first position of a key, 0 if there is none.
fn key_start_of(key: Option<KeyField>) -> u16
    ensures { result ≡ key_start_spec key }
{
    match key {
        None => 0,
        Some(key) => key.start,
    }
}

/// Whether files of an organization have an index.
fn has_index(organization: Organization) -> bool
    ensures { result ≡ is_indexed organization }
{
    match organization {
        Organization::Indexed => true,
        Organization::Sequential | Organization::Direct => false,
    }
}

/// Whether an organization suits an F line: its files have an index exactly if the line has a key.
fn has_organization(line: &FileLine, organization: Organization) -> bool
    ensures { result ≡ if◌then◌else◌ (is_some line.now.key) (is_indexed organization) (not (is_indexed organization)) }
{
    if line.key.is_some() {
        has_index(organization)
    } else {
        !has_index(organization)
    }
}

/// Whether a label has the layout that the F line says: organization, record length, and key.
#[tactic(auto, unfolding(crate::specs::Asked::is_of_layout))]
pub fn is_of_layout(line: &FileLine, label: &FileLabel) -> bool
    ensures { result ≡ is_of_layout_spec line.now label.now }
{
    label.record_length == line.record_length
        && has_organization(line, label.organization)
        && label.key_length == key_length_of(line.key)
        && label.key_start == key_start_of(line.key)
}

/// The organization of a new file: indexed if its line has a key, else direct if it is chained, else sequential.
fn organization_of(line: &FileLine) -> Organization
    ensures { result ≡ organization_spec line.now }
{
    if line.key.is_some() {
        Organization::Indexed
    } else if line.is_chained() {
        Organization::Direct
    } else {
        Organization::Sequential
    }
}

/// How large a new file is to be.
#[tactic(auto, using(crate::proofs::NewFiles::size_proper, crate::proofs::NewFiles::few_tracks))]
fn size_of(size: FileSize) -> Size
    requires { is_size size ≡ true }
    ensures size { result ≡ size_spec size }
    ensures proper { IsSize result }
{
    match size {
        FileSize::Records(n) => Size::Records(n),
        FileSize::Tracks(n) => Size::Tracks(n as u16),
    }
}

/// The new file that an F line and its FILE statement ask for, with the job's date, mmddyy in EBCDIC.
#[tactic(auto, unfolding(crate::specs::Asked::new_file))]
pub fn new_file(date: [u8; 6], line: &FileLine, statement: &FileStatement) -> NewFile
    requires line { file_in_range line.now ≡ true }
    requires disk { is_disk line.now.device ≡ true }
    requires statement { is_sound_file statement.now ≡ true }
    ensures value { result ≡ new_file_spec date line.now statement.now }
    ensures proper { IsNewFile result }
{
    NewFile {
        name: statement.label,
        organization: organization_of(line),
        retention: statement.retention,
        record_length: line.record_length,
        key_length: key_length_of(line.key),
        key_start: key_start_of(line.key),
        size: size_of(statement.size),
        date,
    }
}

/// The FILE statement for the file that the program knows by this name; none if the job has none for it.
pub fn statement_of(name: Name, statements: &[FileStatement]) -> Option<&FileStatement>
    ensures { option_copied result ≡ statement_of_spec name statements.now }
{
    statements.iter().find(|statement| statement.name == name)
}
