//! The abstract state of one level and the reference model: what its own entries make of it, apart from any code.
//!
//! The crate has definitions and theorems, and no code that runs. The abstract state is a level's deck, library, switches and
//! date, its files and the masters' files, the job at work with its answers so far, the printed lines and the halts
//! (specs/World.antt). specs/Serving.antt says what the start of a job and each request do to it, and specs/Solo.antt what a
//! level's entries do; nothing of the other level is in it. A level is proved to go the same way over a migrated pack as over the
//! old one, unless a halt `NS` is shown (`a_migrated_pack_gives_the_same_run`). Worked examples are computed by the proofs:
//! `card_lister_lists`, `each_switch_is_set`, `jobs_set_date_and_switches` and `replies_pass_jobs_over`. Runs over files have
//! worked examples in `s3_opening` and `s3_job_files`.

#![tactic(auto)]

mod action;
mod laws;

pub use action::{Action, Did};
pub use laws::{
    a_migrated_pack_gives_the_same_run, card_lister_lists, each_switch_is_set,
    formats_differ_in_space_alone, jobs_set_date_and_switches, replies_pass_jobs_over,
};
