//! What commands over sessions and packs are refused for, if it isn't a fault of what they were given.

use s3_cli::{CliFault, RunFault, SessionFault};

/// No memory is left.
pub const OUT_OF_MEMORY: CliFault = CliFault::Session(SessionFault::Run(RunFault::NoMemory));

/// A file, standard input or standard output failed.
pub const FILE: CliFault = CliFault::Session(SessionFault::File);
