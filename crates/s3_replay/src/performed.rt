//! Entries as they were performed.
ghost use Rattle.std.specs.Prelude.{◌≡◌, ◌+◌, ◌++◌, true, [], replicate, IfSome, OnOk, OnErr};
ghost use Rattle.std.specs.List.{list_all};
ghost use Rattle.s3_replay.specs.Inner.Written.{entries_in, is_part_writable, is_writable};

use s3_bureau::Entry;
use std::alloc::{AllocError, Global};
use std::marker::Model;

/// An entry, so many times one after the other.
#[derive(Clone, Copy)]
pub struct Repeated {
    /// The entry.
    pub entry: Entry,
    /// How many times.
    pub times: u32,
}

/// Whether two entries are the same.
pub(crate) fn are_same(one: Entry, other: Entry) -> bool
    ensures { result ≡ true → one ≡ other }
{
    one == other
}

/// The number of times that an entry was performed, if it follows itself; `None` for another entry, and past the largest count.
fn gone_on(last: Repeated, entry: Entry, times: u32) -> Option<u32>
    ensures { IfSome result (λ all. (last.entry ≡ entry) × (all ≡ last.times + times)) }
{
    if are_same(last.entry, entry) {
        last.times.checked_add(times)
    } else {
        None
    }
}

/// Entries as they were performed, in their order.
#[derive(Drop)]
pub struct Performed {
    parts: Vec<Repeated>,
    ghost are_writable: { list_all is_part_writable parts.items ≡ true },
}

impl Model for Performed {
    ghost use Rattle.std.specs.Prelude.{List};
    ghost use Rattle.s3_bureau.specs.declared.entry.Entry.{Entry};
    ghost use Rattle.s3_replay.specs.Inner.Written.{entries_in};

    ghost Value = { List Entry };

    ghost view = { λ performed. entries_in performed.parts.items };
}

impl Performed {
    /// None yet.
    pub fn new(alloc: Global) -> Performed
        ensures { result ≡ [] }
    {
        Performed {
            parts: Vec::new(alloc),
        }
    }

    /// Notes that an entry was performed so many times.
    pub fn note(&mut self, entry: Entry, times: u32) -> Result<(), AllocError>
        requires { is_writable entry.action ≡ true }
        ensures noted { OnOk result (self.new ≡ self.old ++ replicate times entry) }
        ensures as_before { OnErr result (self.new ≡ self.old) }
    {
        let many = self.parts.len();
        if many > 0 {
            if let Some(all) = gone_on(self.parts[many - 1], entry, times) {
                self.parts[many - 1].times = all;
                return Ok(());
            }
        }
        self.parts.push(Repeated { entry, times })?;
        Ok(())
    }

    /// Entries that come again after themselves are one part, with how many times. The last part may still grow.
    pub fn parts(&self) -> &[Repeated]
        ensures entries { entries_in result.now ≡ self.now }
        ensures writable { list_all is_part_writable result.now ≡ true }
    {
        &self.parts
    }
}
