//! The table of files: what a program may do with a file on a device.

ghost use Rattle.std.specs.Prelude.{◌≡◌};
ghost use Rattle.s3_program.specs.FileTable as spec;

use s3_lines::sheet::{Device, FileLine, FileUse, Spacing};

fn is_plain(file: &FileLine) -> bool
    ensures { result ≡ spec.is_plain file.now }
{
    !file.is_random && !file.is_keyed && !file.is_indexed && !file.has_additions
}

fn is_read_from_cards(file: &FileLine) -> bool
    ensures { result ≡ spec.is_read_from_cards file.now }
{
    file.usage.is_input() && file.is_by_cycle() && is_plain(file)
}

fn is_printed(file: &FileLine) -> bool
    ensures { result ≡ spec.is_printed file.now }
{
    file.usage.is_output() && file.designation.is_none() && is_plain(file)
}

fn is_read_in_order(file: &FileLine) -> bool
    ensures { result ≡ spec.is_read_in_order file.now }
{
    !file.usage.is_output() && file.is_by_cycle() && !file.is_random
}

fn is_read_by_chain(file: &FileLine) -> bool
    ensures { result ≡ spec.is_read_by_chain file.now }
{
    !file.usage.is_output()
        && file.is_chained()
        && file.is_random
        && (file.is_indexed || !file.has_additions)
}

fn is_loaded(file: &FileLine) -> bool
    ensures { result ≡ spec.is_loaded file.now }
{
    file.usage.is_output() && file.designation.is_none() && !file.is_random
}

fn is_direct_load(file: &FileLine) -> bool
    ensures { result ≡ spec.is_direct_load file.now }
{
    file.usage.is_output()
        && file.is_chained()
        && file.is_random
        && !file.is_keyed
        && !file.is_indexed
        && !file.has_additions
}

fn is_indexed_as_keyed(file: &FileLine) -> bool
    ensures { result ≡ spec.is_indexed_as_keyed file.now }
{
    if file.is_keyed {
        file.is_indexed
    } else {
        !file.is_indexed
    }
}

fn is_disk_file(file: &FileLine) -> bool
    ensures { result ≡ spec.is_disk_file file.now }
{
    is_indexed_as_keyed(file)
        && (is_read_in_order(file)
            || is_read_by_chain(file)
            || is_loaded(file)
            || is_direct_load(file))
}

/// Whether the columns of a file are a combination of the table.
pub fn is_in_table(file: &FileLine) -> bool
    ensures { result ≡ spec.is_in_table file.now }
{
    match file.device {
        Device::CardReader => is_read_from_cards(file),
        Device::Printer => is_printed(file),
        Device::Disk => is_disk_file(file),
    }
}

/// Whether a file is a card file of the table.
pub fn is_card_file(file: &FileLine) -> bool
    ensures { result ≡ spec.is_card_file file.now }
{
    match file.device {
        Device::CardReader => is_read_from_cards(file),
        Device::Printer | Device::Disk => false,
    }
}

/// Whether a file is a print file of the table.
pub fn is_print_file(file: &FileLine) -> bool
    ensures { result ≡ spec.is_print_file file.now }
{
    file.device.is_printer() && is_printed(file)
}

/// Whether a file may have record lines: it is read, or loaded directly.
pub fn allows_records(file: &FileLine) -> bool
    ensures { result ≡ spec.allows_records file.now }
{
    !file.usage.is_output() || (file.device.is_disk() && is_direct_load(file))
}

fn is_addition_allowed(usage: FileUse, has_additions: bool, is_addition: bool) -> bool
    ensures { result ≡ spec.is_addition_allowed usage has_additions is_addition }
{
    match usage {
        FileUse::Output => is_addition == has_additions,
        FileUse::Input => has_additions && is_addition,
        FileUse::Update => has_additions || !is_addition,
    }
}

/// Whether a file may have an output line, with ADD or without.
pub fn allows_output(file: &FileLine, is_addition: bool) -> bool
    ensures { result ≡ spec.allows_output file.now is_addition }
{
    if is_in_table(file) {
        is_addition_allowed(file.usage, file.has_additions, is_addition)
    } else {
        !file.usage.is_input()
    }
}

/// Whether a line has spaces or skips.
pub fn has_spacing(spacing: &Spacing) -> bool
    ensures { result ≡ spec.has_spacing spacing.now }
{
    spacing.space_before.is_some()
        || spacing.space_after.is_some()
        || spacing.skip_before.is_some()
        || spacing.skip_after.is_some()
}
