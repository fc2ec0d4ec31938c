//! The entries of each client.
ghost use Rattle.std.specs.Prelude.{◌≡◌, ◌≤◌, ◌<◌, ◌++◌, ◌∷◌, [], ℕ, All, OnOk, OnErr, IfOk, nat_eq};
ghost use Rattle.dependence.specs.Limits.{client_limit};
ghost use Rattle.std.specs.List.{list_any};
ghost use Rattle.dependence.specs.Lists.{of_client, last_of, Entered, Left};

use crate::numbers::Numbers;
use rapid_text::OutOfMemory;
use std::alloc::Global;
use std::marker::Model;

/// The greatest number of a client.
const MAX_CLIENT: u32 = 32;

/// The numbers of the log entries of each client, from 1 to 32.
#[derive(Drop)]
pub struct Clients {
    // the index of a client's list is the client's number
    lists: Vec<Numbers>,
}

impl Model for Clients {
    ghost use Rattle.std.specs.Prelude.{◌≡◌, ◌+◌, List, ℕ, length};
    ghost use Rattle.dependence.specs.Limits.{client_limit};

    ghost Value = { List (List ℕ) };

    ghost view = { λ c. c.lists.items };

    ghost invariant = { λ c. length c.lists.items ≡ client_limit + 1 };
}

impl Clients {
    /// No entries of any client.
    pub fn empty(alloc: Global) -> Result<Clients, OutOfMemory>
        ensures { IfOk result (λ t. (c : ℕ) → of_client t c ≡ []) }
    {
        let mut lists = Vec::with_capacity(alloc, MAX_CLIENT as usize + 1)?;
        for _ in 0..=MAX_CLIENT {
            lists.push_reserved(Numbers::empty(alloc));
        }
        Ok(Clients { lists })
    }

    /// Appends the entry to the client's entries. If memory runs out, everything stays as it was.
    pub fn push(&mut self, client: u32, entry: u64) -> Result<(), OutOfMemory>
        requires client { client ≤ client_limit }
        requires entry { All (λ k. k < entry) (of_client self.old client) }
        ensures ok { OnOk result (Entered client entry self.old self.new) }
        ensures err { OnErr result (self.new ≡ self.old) }
    {
        self.lists[client as usize].push(entry)
    }

    /// Removes the entry from the client's entries.
    pub fn remove(&mut self, client: u32, entry: u64)
        requires { client ≤ client_limit }
        ensures { Left client entry self.old self.new }
    {
        self.lists[client as usize].remove(entry);
    }

    /// Whether the entry is one of the client's.
    pub fn contains(&self, client: u32, entry: u64) -> bool
        requires { client ≤ client_limit }
        ensures { result ≡ list_any (nat_eq entry) (of_client self.now client) }
    {
        self.lists[client as usize].contains(entry)
    }

    /// The client's greatest entry.
    pub fn last(&self, client: u32) -> Option<u64>
        requires { client ≤ client_limit }
        ensures { result ≡ last_of (of_client self.now client) }
    {
        self.lists[client as usize].last()
    }
}
