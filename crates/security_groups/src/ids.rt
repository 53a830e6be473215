// Ids by numbers.
ghost use Rattle.std.specs.Prelude.{◌≡◌, IfOk};

use indexmap::IndexSet;
use std::alloc::{AllocError, Global};
use std::marker::Model;
use vpc_model::Id;

/// Ids that differ, in the order in which they were added. Contracts see their list.
pub struct IdNumbers {
    ids: IndexSet<Vec<u8>>,
}

impl Drop for IdNumbers {
    fn drop(self) {
        let IdNumbers { ids } = self;
        drop(ids);
    }
}

impl Model for IdNumbers {
    ghost use Rattle.std.specs.Prelude.{List, map, ℕ};

    ghost Value = { List (List ℕ) };

    ghost view = { λ s. map (λ k. k.items) s.ids.keys };
}

// The bytes of an id once more.
fn bytes_of(alloc: Global, id: &Id) -> Result<Vec<u8>, AllocError>
    ensures { IfOk result (λ b. b.items ≡ id.now) }
{
    id.bytes().to_vec(alloc)
}

// A number of 32 bits. Ids that need more don't fit in any memory.
fn number_of(place: usize) -> Result<u32, AllocError>
    ensures { IfOk result (λ k. k ≡ place) }
{
    if place > u32::MAX as usize {
        return Err(AllocError);
    }
    Ok(place as u32)
}

impl IdNumbers {
    ghost use Rattle.std.specs.Prelude.{◌++◌, ◌<◌, ◌^◌, ◌∷◌, [], if◌then◌else◌, IfSome, IsTrue, OnOk, Some, bytes_eq, length, not};
    ghost use Rattle.std.specs.List.{list_any};
    ghost use Rattle.vpc_model.specs.Lookup.{is_listed};
    ghost use Rattle.security_groups.specs.Ids.{HasIds, KeepsNumbers, place_of};

    pub fn none(alloc: Global) -> IdNumbers
        ensures { result ≡ [] }
    {
        IdNumbers {
            ids: IndexSet::new(alloc),
        }
    }

    // Adds an id at the end where it is new, and tells whether it is.
    fn add_bytes(&mut self, id: Vec<u8>) -> Result<bool, AllocError>
        ensures fresh { IfOk result (λ b. b ≡ not (list_any (bytes_eq id.items) self.old)) }
        ensures added { IfOk result (λ b. self.new ≡ (if b then self.old ++ id.items ∷ [] else self.old)) }
    {
        Ok(self.ids.insert(id)?)
    }

    /// Adds an id at the end where it is new.
    pub fn add(&mut self, alloc: Global, id: &Id) -> Result<(), AllocError>
        ensures { OnOk result (self.new
            ≡ (if list_any (bytes_eq id.now) self.old then self.old else self.old ++ id.now ∷ [])) }
    {
        let _is_new = self.add_bytes(bytes_of(alloc, id)?)?;
        Ok(())
    }

    fn place(&self, id: &Id) -> Option<usize>
        ensures number { result ≡ place_of self.now id.now }
        ensures within { IfSome result (λ k. k < length self.now) }
    {
        self.ids.get_index_of(id.bytes())
    }

    /// Whether the id is there.
    pub fn has(&self, id: &Id) -> bool
        ensures { result ≡ is_listed id.now self.now }
    {
        self.place(id).is_some()
    }

    fn len(&self) -> usize
        ensures { result ≡ length self.now }
    {
        self.ids.len()
    }

    /// Whether all numbers have 32 bits.
    pub fn are_few(&self) -> bool
        ensures { IsTrue result → length self.now < 2 ^ 32 }
    {
        self.len() <= u32::MAX as usize
    }

    /// The number of an id, from 0.
    pub fn number(&self, id: &Id) -> Option<u32>
        requires { length self.now < 2 ^ 32 }
        ensures { result ≡ place_of self.now id.now }
    {
        match self.place(id) {
            Some(k) => Some(k as u32),
            None => None,
        }
    }

    /// The number of an id, which is added at the end where it is new.
    pub fn number_or_add(&mut self, alloc: Global, id: &Id) -> Result<u32, AllocError>
        ensures kept { OnOk result (KeepsNumbers self.old self.new) }
        ensures number { IfOk result (λ k. place_of self.new id.now ≡ Some k) }
    {
        if let Some(k) = self.place(id) {
            return number_of(k);
        }
        let k = number_of(self.len())?;
        self.add(alloc, id)?;
        Ok(k)
    }

    /// The same ids as these.
    pub fn of(alloc: Global, ids: &[Id]) -> Result<IdNumbers, AllocError>
        ensures { IfOk result (HasIds ids.now) }
    {
        let mut numbers = IdNumbers::none(alloc);
        for id in ids {
            numbers.add(alloc, id)?;
        }
        Ok(numbers)
    }
}
