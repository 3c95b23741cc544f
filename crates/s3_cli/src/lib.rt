//! A session: bytes in, bytes out, over any reader and writer; and the list of a pack.
//!
//! `session`, and `session_on` over a given pack, are proved to write exactly the texts of `run` for an input of at most
//! 4,194,304 bytes, and to hand out a pack that this run may leave (`wrote`). If they refuse for another reason than a file, they
//! write nothing (`wrote_nothing`). Each refusal is proved to have its own reason: `Input`, `Script` for the first bad line,
//! `Mount` by the pack's header (`refused`), and `File` exactly if a call on the reader or writer failed (`failed`, `works`).
//! `list` is proved to write exactly the list of `s3_listing`, and `tell` to give the exit status of each refusal. The texts of
//! refusals are only tested. That `Watched` notes exactly the failed reads of the library must be read in its code.

#![tactic(auto)]

mod exchange;
mod fault;
mod input;
mod output;
mod packs;
mod parts;
mod watched;

pub use exchange::{INPUT_LIMIT, session, session_on};
pub use fault::{CliFault, SessionFault, tell};
pub use input::{ReadFault, read_within};
pub use packs::{list, write_table};
pub use parts::{Parts, split_parts};
pub use s3_bureau::RunFault;
pub use s3_labels::{ImageFault, MigrateFault, image, image_with, migrate};
pub use watched::{Sink, Source, Watched};
