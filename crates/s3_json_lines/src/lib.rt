//! JSON lines: values, and the line of text that each is. docs/schemas/ has the shapes of the lines that the commands write.
//!
//! What is proved: `lines_of` gives exactly the JSON texts of values, a line each. `object` and `push_member` give exactly the members
//! that they are given, and `text_of_codes` the text of EBCDIC codes. Only a lack of memory refuses them.
#![tactic(auto)]

mod cell;
mod characters;
mod line;
mod value;

pub use cell::{Cell, members, object, push_member};
pub use characters::text_of_codes;
pub use line::{lines_of, push_line};
pub use value::{Value, numbers, text_value};
