//! Selection of records: their types, the keys of their match fields, which record is processed next, and control breaks.
//!
//! Each primary and secondary file has a head: the record that was read from it and isn't processed yet. The cycle takes one head
//! after another (docs/LANGUAGE.md, "The cycle"). Files, fields and types are known by their slots and places in the program.
//!
//! Proved:
//!
//! - `Reading::type_of` and `type_in`: the type of a record is the first type of its file all of whose codes hold.
//! - `Levels::of_type`: the match and control fields of each record type, none left out.
//! - `RecordKey::read`, `is_less` and `is_same`: a key has what the match fields compare, M9 first, in at most 2,304 bytes, and
//!   the order of keys.
//! - `Reading::first`, `begin_again`, `first_unread_from` and `put`: which files are read next; a record becomes the head of its
//!   file exactly if it is in sequence.
//! - `select`, `Reading::take`, `is_matched` and `has_met_end`: which head is processed next, what is left after it, MR, and the
//!   end by E.
//! - `Controls::break_and_hold`, `forget` and `makes_totals_due`: the highest level that breaks, what is held after it, and whether
//!   total time is due.
//! - Theorems: `files_are_read_in_turn`, `an_answer_stands_at_its_file`, `ties_go_to_the_first`,
//!   `a_head_without_match_fields_goes_first`, `the_last_key_is_still_matched_at_the_end`, `records_match_by_keys`.
//!
//! Only `Reading::first` takes memory. Only tested: that memory is reported to run out only if an allocation was refused.
#![tactic(auto)]

pub mod choice;
mod compared;
mod control_fields;
pub mod controls;
pub mod fields;
pub mod heads;
pub mod held;
pub mod key_bytes;
pub mod keys;
pub mod laws;
pub mod levels;
pub mod reading;
pub mod selection;
mod types;
