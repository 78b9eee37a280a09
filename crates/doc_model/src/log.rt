//! A client's log.
ghost use Rattle.std.specs.Prelude.{◌≡◌, ◌+◌, ◌≤◌, [], ◌∷◌, ◌++◌, OnOk, OnErr};

use crate::NoMemory;
use crate::command::Entry;
use std::alloc::Global;
use std::marker::Model;

/// What one client was answered, from its first command on.
#[derive(Debug)]
pub struct Log {
    client: u32,
    entries: Vec<Entry>,
}

impl Drop for Log {
    fn drop(self) {
        let Log {
            client: _,
            entries: _entries,
        } = self;
    }
}

impl Model for Log {
    ghost use Rattle.std.specs.Prelude.{◌-◌};
    ghost use Rattle.std.specs.Vec.{vec_capacity, vec_len};
    ghost use Rattle.doc_model.specs.ClientLog.{ClientLog};

    ghost Value = { ClientLog };

    ghost view = { λ l. record {
      client = l.client;
      entries = l.entries.items;
      spare = vec_capacity l.entries - vec_len l.entries;
    } };
}

impl Log {
    /// The log of a client that was answered nothing yet.
    pub fn new(alloc: Global, client: u32) -> Log
        ensures client { result.client ≡ client }
        ensures entries { result.entries ≡ [] }
    {
        Log {
            client,
            entries: Vec::new(alloc),
        }
    }

    pub fn client(&self) -> u32
        ensures { result ≡ self.now.client }
    {
        self.client
    }

    pub fn entries(&self) -> &[Entry]
        ensures { result.now ≡ self.now.entries }
    {
        &self.entries
    }

    /// Makes room for so many more entries.
    pub fn reserve(&mut self, more: usize) -> Result<(), NoMemory>
        ensures client { self.new.client ≡ self.old.client }
        ensures entries { self.new.entries ≡ self.old.entries }
        ensures ok { OnOk result (more ≤ self.new.spare) }
        ensures room { self.old.spare ≤ self.new.spare }
        ensures err { OnErr result (self.new ≡ self.old) }
    {
        self.entries.reserve(more)
    }

    /// For how many more entries there is room.
    pub fn spare(&self) -> usize
        ensures { result ≡ self.now.spare }
    {
        self.entries.capacity() - self.entries.len()
    }

    /// Adds an entry at the end. It takes no memory.
    pub fn push(&mut self, entry: Entry)
        requires { 1 ≤ self.old.spare }
        ensures client { self.new.client ≡ self.old.client }
        ensures entries { self.new.entries ≡ self.old.entries ++ entry ∷ [] }
        ensures spare { self.old.spare ≤ self.new.spare + 1 }
    {
        self.entries.push_reserved(entry);
    }
}
