//! The page of a day in a book: what the desk has of it, and its pack before and after. `s3_book` writes the page.
//!
//! Each call is proved to be safe and to return. Tests show which files changed, and their places on the map.
#![tactic(auto)]

mod book;
mod changed;
mod map;
mod owned;

pub use book::page_of_day;
pub use owned::{BookHalt, BookJob, DayBook};
