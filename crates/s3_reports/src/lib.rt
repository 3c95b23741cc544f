//! The reports of a day, written while its lines are printed.
//!
//! Proved of `Reports`: what its calls have written is the output of the day as far as it has come, or the front of that if a write
//! has failed. That holds for each day that ends with the lines that `follow` was given and more after them, and in which level 1
//! prints and shows nothing more once it was reported as over. After `finish` it is the whole output (`output_of`): each line is laid
//! out once. `follow` writes all lines of level 1 that it is given, and those of level 2 once level 1 is over.

#![tactic(auto)]

mod place;
mod reports;
mod written;

pub use reports::Reports;
