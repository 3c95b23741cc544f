//! Tables in CSV, and records of a fixed length, loaded into files of a pack.
//!
//! What is proved, for every pack, order and reader:
//!
//! - the columns of a heading are fields that its cells name, no two of which lie over each other, and the fields that they leave out
//!   are filled, if that is asked for and no number of them lies partly under a column (`read_columns`);
//! - the records are those of the rows of the table's text, one for each row; if the file has a key, each comes before all those
//!   after it by the characters of its key, so that no two have the same one, and else they are in the order of the rows
//!   (`read_table`);
//! - the record of a row has the value of each cell in the field of its column, and is blank elsewhere except for the numbers that are
//!   filled (`record_of`); it shows the values that the row says, and the row of a record gives that record again
//!   (`a_loaded_row_is_unloaded`, `an_unloaded_record_is_loaded`);
//! - the pack that is handed out has, in a slot of the level's area, the file that is asked for: with its label, its record length
//!   and its key. Its records are those of the old file, if the order appends, and after them those of the table;
//!   an index is the one of all of them. Each other slot is as it was, and its file has the same bytes; the slot of an old file
//!   of the label, in whose place a new one comes, is free, if the new one hasn't got it (`load`);
//! - a table that is loaded ends in no open quote (`load`);
//! - a new file is made only if no slot of the level's area is damaged, and replaces one of another record length, organization or key
//!   only if the order allows it (`load`, `load_fixed`);
//! - a table that was loaded into a new file is unloaded again: the file's records, as `unload` takes them, are one for each row,
//!   in the order of their keys, or, without a key, in the order of the rows; each shows the value of the row's cell in each
//!   column (`what_is_loaded_is_unloaded`);
//! - no row is reported without a reason: a cell of it goes over the end of a line, or isn't taken into its column's field; or it has
//!   too many or too few cells; or its record isn't of the chosen type, with that type's codes in it (`record_of`, `read_rows`);
//! - records that were unloaded and then loaded into a new file are the same records, in the order of their keys, or, without a key,
//!   in their old order, if the layout has each byte of a record, its fields have different names, and each value can be shown
//!   (`what_is_unloaded_is_loaded`). Neither theorem covers records that are appended, or a pack on which an earlier slot of the
//!   area has the same label;
//! - the records of a fixed length are those of the text, one for each of its parts; the pack has them as it has those of a table
//!   (`load_fixed`). Records that `unload_fixed` wrote and `load_fixed` then put into a new file are the same records
//!   (`what_is_unloaded_fixed_is_loaded`);
//! - each call is safe and returns; a pack is handed out only if all of the table was taken, and the pack that is given is never
//!   changed, so a refused load leaves it as it was.
//!
//! Only tested: how much room a new file gets, its retention and its date, when a load is refused unless a slot is damaged, which
//! line is reported of a row, and the texts of refusals.
#![tactic(auto)]

mod columns;
mod fault;
mod filling;
mod fixed;
mod fixed_laws;
mod laws;
mod loading;
mod names;
mod order;
mod owners;
mod quotes;
mod rows;
mod settling;
mod shape;
mod table;
mod table_laws;

pub use fault::{HeadingFault, LoadFault, Reason, ValueFault};
pub use fixed_laws::what_is_unloaded_fixed_is_loaded;
pub use laws::{a_loaded_row_is_unloaded, an_unloaded_record_is_loaded};
pub use loading::{load, load_fixed};
pub use order::{Order, Room};
pub use shape::Shape;
pub use table_laws::{what_is_loaded_is_unloaded, what_is_unloaded_is_loaded};
