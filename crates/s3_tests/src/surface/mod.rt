//! Calls of the machine's surface that the program doesn't make, each once when it succeeds and once when it refuses. Their
//! contracts can't rule out that they always answer that memory ran out.

mod files;
mod label;
mod levels;
mod runs;
mod turns;
