//! Tests that cross crates, by what they call. What a session on the built program shows is tested there, by the golden tests of
//! the folder `rows/`: arithmetic and editing, packs, files and their damage, the start and the end of jobs.
//!
//! - `pool`: which buffers the pool gives up, and a run over a store that fails at each call in turn.
//! - `cycle`: the forms that calculations, fields of records and cards of output lines get, what comes after a calculation, and
//!   the guards of output lines, which no contract asks for and no session shows.
//! - `bureau`: three whole sessions over a store that fails at each call in turn, and if memory runs out.
//! - `sessions`: a session whose reader or writer fails at each call in turn, or gives and takes a byte a call.
//! - `documents`: PDF documents that no command asks for.
//! - `surface`: the calls of the machine's surface that the program doesn't make (docs/DECISIONS.md).
//!
//! Each call with many postconditions is made in one small function, and what owns a large value has no `?`: docs/DEVELOPING.md
//! has the reason, under "Slow proofs".
//!
//! What is proved: a tab goes to the first column of each entry that the rules of a sheet's cards have (`stops_as_in_rules`), so
//! no stop is missing after a rule is added. The entries that `s3_entries` lists are those that the rules read (`entries_as_in_rules`),
//! that diagnostics mark (`entries_as_marked`), and that tabs go to (`entries_as_stops`).

#![tactic(auto)]

ghost use Rattle.std.specs.Prelude.{◌≡◌, true};
ghost use Rattle.s3_tests.specs.Inner.Entries.{marks_are_entries, rules_are_entries, stops_are_entries};
ghost use Rattle.s3_tests.specs.Inner.Starts.{stops_are_starts};

#[cfg(test)]
mod bureau;
#[cfg(test)]
mod cycle;
#[cfg(test)]
mod documents;
#[cfg(test)]
mod packs;
#[cfg(test)]
mod pool;
#[cfg(test)]
mod sessions;
#[cfg(test)]
mod surface;

/// The first column of each entry that the rules of the sheets have is a stop of its sheet.
#[tactic(auto, unfolding(s3_sheets::specs::Tables::header_rules, s3_sheets::specs::Tables::file_rules, s3_sheets::specs::Tables::record_rules, s3_sheets::specs::Tables::record_and_rules, s3_sheets::specs::Tables::record_or_rules, s3_sheets::specs::Tables::field_rules, s3_sheets::specs::Tables::calculation_rules, s3_sheets::specs::Tables::output_line_rules, s3_sheets::specs::Tables::output_group_rules, s3_sheets::specs::Tables::output_field_rules))]
pub fn stops_as_in_rules()
    ensures { stops_are_starts ≡ true }
{}

/// The columns of each rule of a kind of card are those of its entries.
#[tactic(auto, unfolding(s3_sheets::specs::Tables::header_rules, s3_sheets::specs::Tables::file_rules, s3_sheets::specs::Tables::record_rules, s3_sheets::specs::Tables::record_and_rules, s3_sheets::specs::Tables::record_or_rules, s3_sheets::specs::Tables::field_rules, s3_sheets::specs::Tables::calculation_rules, s3_sheets::specs::Tables::output_line_rules, s3_sheets::specs::Tables::output_group_rules, s3_sheets::specs::Tables::output_field_rules, crate::specs::Inner::Entries::rules_are_entries))]
pub fn entries_as_in_rules()
    ensures { rules_are_entries ≡ true }
{}

/// What the diagnostics of lines mark on a kind of card are its entries, each alone or several side by side.
#[tactic(auto, unfolding(s3_blame::specs::Inner::Entries::file_rows, s3_blame::specs::Inner::Entries::record_rows, s3_blame::specs::Inner::Entries::and_rows, s3_blame::specs::Inner::Entries::or_rows, s3_blame::specs::Inner::Entries::field_rows, s3_blame::specs::Inner::Entries::calculation_rows, s3_blame::specs::Inner::Entries::line_rows, s3_blame::specs::Inner::Entries::line_and_rows, s3_blame::specs::Inner::Entries::line_or_rows, s3_blame::specs::Inner::Entries::put_rows, crate::specs::Inner::Entries::marks_are_entries))]
pub fn entries_as_marked()
    ensures { marks_are_entries ≡ true }
{}

/// The stops of a sheet are the first columns of its entries.
#[tactic(auto, unfolding(crate::specs::Inner::Entries::stops_are_entries))]
pub fn entries_as_stops()
    ensures { stops_are_entries ≡ true }
{}
