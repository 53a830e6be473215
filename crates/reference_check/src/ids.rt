// The ids of one list, found by their bytes.
ghost use Rattle.std.specs.Prelude.{◌≡◌, ◌++◌, ◌∷◌, ◌<◌, [], if◌then◌else◌, IfOk, IfSome, bytes_eq, length, not, position};
ghost use Rattle.std.specs.List.{list_any};
ghost use Rattle.vpc_model.specs.Lookup.{is_listed};

use indexmap::IndexSet;
use std::alloc::{AllocError, Global};
use std::marker::Model;
use vpc_base::NoMemory;

/// Ids in the order in which they were added. Contracts see their list.
pub struct Ids {
    ids: IndexSet<Vec<u8>>,
}

impl Drop for Ids {
    fn drop(self) {
        let Ids { ids } = self;
        drop(ids);
    }
}

impl Model for Ids {
    ghost use Rattle.std.specs.Prelude.{List, ℕ, map};

    ghost Value = { List (List ℕ) };

    ghost view = { λ s. map (λ k. k.items) s.ids.keys };
}

impl Ids {
    pub fn new(alloc: Global) -> Ids
        ensures { result ≡ [] }
    {
        Ids {
            ids: IndexSet::new(alloc),
        }
    }

    /// How many there are.
    pub fn len(&self) -> usize
        ensures { result ≡ length self.now }
    {
        self.ids.len()
    }

    /// Whether the id is there.
    pub fn has(&self, id: &[u8]) -> bool
        ensures { result ≡ is_listed id.now self.now }
    {
        self.ids.contains(id)
    }

    /// The number of the id, from 0.
    pub fn number(&self, id: &[u8]) -> Option<usize>
        ensures number { result ≡ position (λ i. bytes_eq i id.now) self.now }
        ensures within { IfSome result (λ k. k < length self.now) }
    {
        self.ids.get_index_of(id)
    }

    /// Adds an id at the end where it is new, and tells whether it is.
    pub fn add(&mut self, id: Vec<u8>) -> Result<bool, AllocError>
        ensures fresh { IfOk result (λ b. b ≡ not (list_any (bytes_eq id.items) self.old)) }
        ensures added { IfOk result (λ b. self.new ≡ (if b then self.old ++ id.items ∷ [] else self.old)) }
    {
        Ok(self.ids.insert(id)?)
    }
}
