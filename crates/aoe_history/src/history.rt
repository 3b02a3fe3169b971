//! The entries of a run.
ghost use Rattle.std.specs.Prelude.{◌≡◌, ◌<◌, [], ◌∷◌, ◌++◌, length, reverse, slice_get, Some, IfNone, OnOk, OnErr};
ghost use Rattle.std.specs.Option.{option_to_list};

use crate::Entry;
use aoe_base::NoMemory;
use std::alloc::Global;
use std::marker::Model;

/// The entries of a run, in order. Contracts see them the latest first.
#[derive(Drop)]
pub struct History {
    entries: Vec<Entry>,
}

impl Model for History {
    ghost use Rattle.std.specs.Prelude.{List, reverse};
    ghost use Rattle.aoe_history.specs.declared.entry.Entry.{Entry};

    ghost Value = { List Entry };

    ghost view = { λ h. reverse h.entries.items };
}

impl History {
    /// A history of nothing.
    pub fn new(alloc: Global) -> History
        ensures { result ≡ [] }
    {
        History {
            entries: Vec::new(alloc),
        }
    }

    /// How many entries there are.
    pub fn count(&self) -> usize
        ensures { result ≡ length self.now }
    {
        self.entries.len()
    }

    /// The entry with `i` entries before it.
    pub fn entry(&self, i: usize) -> &Entry
        requires { i < length self.now }
        ensures { slice_get (reverse self.now) i ≡ Some result.now }
    {
        &self.entries[i]
    }

    /// One thing more happened.
    pub fn push(&mut self, entry: Entry) -> Result<(), NoMemory>
        ensures ok { OnOk result (self.new ≡ entry ∷ self.old) }
        ensures err { OnErr result (self.new ≡ self.old) }
    {
        self.entries.push(entry)?;
        Ok(())
    }

    /// Takes back what was pushed last.
    pub fn pop(&mut self) -> Option<Entry>
        ensures last { self.old ≡ option_to_list result ++ self.new }
        ensures none { IfNone result (self.old ≡ []) }
    {
        self.entries.pop()
    }
}
