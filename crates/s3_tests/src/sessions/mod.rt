//! Sessions over readers and writers that fail at each of their calls in turn, or give and take a byte at a call.

mod exchanges;
