// Rows of which some are dropped.
ghost use Rattle.std.specs.Prelude.{◌≡◌, ◌++◌, ◌∷◌, [], IfOk, OnOk};
ghost use Rattle.json_fields.specs.Kept.{first_of_each, those_there};

use indexmap::IndexSet;
use std::alloc::{AllocError, Global};
use std::marker::Model;
use vpc_base::NoMemory;
use vpc_model::{Association, Attachment, Far, Id, Peering, PrefixList};

/// The values that are there, in order.
pub fn those_there<T: Drop>(alloc: Global, all: Vec<Option<T>>) -> Result<Vec<T>, AllocError>
    ensures { IfOk result (λ v. v.items ≡ those_there all.items) }
{
    let mut kept = Vec::with_capacity(alloc, all.len())?;
    for value in all {
        if let Some(kept_one) = value {
            kept.push(kept_one)?;
        }
    }
    Ok(kept)
}

/// Ids that were seen so far, in order.
pub struct SeenIds {
    ids: IndexSet<Vec<u8>>,
}

impl Drop for SeenIds {
    fn drop(self) {
        let SeenIds { ids } = self;
        drop(ids);
    }
}

impl Model for SeenIds {
    ghost use Rattle.std.specs.Prelude.{List, ℕ, map};

    ghost Value = { List (List ℕ) };

    ghost view = { λ s. map (λ k. k.items) s.ids.keys };
}

impl SeenIds {
    ghost use Rattle.std.specs.Prelude.{bytes_eq, not, if◌then◌else◌, OnErr};
    ghost use Rattle.std.specs.List.{list_any};

    pub fn new(alloc: Global) -> SeenIds
        ensures { result ≡ [] }
    {
        SeenIds {
            ids: IndexSet::new(alloc),
        }
    }

    fn add(&mut self, id: Vec<u8>) -> Result<bool, AllocError>
        ensures fresh { IfOk result (λ b. b ≡ not (list_any (bytes_eq id.items) self.old)) }
        ensures added { IfOk result (λ b. self.new ≡ (if b then self.old ++ id.items ∷ [] else self.old)) }
        ensures err { OnErr result (self.new ≡ self.old) }
    {
        Ok(self.ids.insert(id)?)
    }

    /// Whether the id wasn't seen before. From now on it was.
    pub fn is_new(&mut self, id: &Id) -> Result<bool, NoMemory>
        ensures fresh { IfOk result (λ b. b ≡ not (list_any (bytes_eq id.now) self.old)) }
        ensures added { IfOk result (λ b. self.new ≡ (if b then self.old ++ id.now ∷ [] else self.old)) }
        ensures err { OnErr result (self.new ≡ self.old) }
    {
        let copy = id.bytes().to_vec(*self.ids.allocator())?;
        Ok(self.add(copy)?)
    }
}

/// A row with an id, of which two accounts may each list one.
pub trait HasId {
    ghost use Rattle.std.specs.Prelude.{List, ℕ};

    ghost id_of: { Self → List ℕ };

    fn id(&self) -> &Id
        ensures { result.now ≡ id_of self.now };
}

impl HasId for PrefixList {
    ghost id_of = { λ row. row.id };

    fn id(&self) -> &Id {
        &self.id
    }
}

impl HasId for Peering {
    ghost id_of = { λ row. row.id };

    fn id(&self) -> &Id {
        &self.id
    }
}

impl HasId for Attachment {
    ghost id_of = { λ row. row.id };

    fn id(&self) -> &Id {
        &self.id
    }
}

impl HasId for Association {
    ghost id_of = { λ row. row.attachment };

    fn id(&self) -> &Id {
        &self.attachment
    }
}

impl HasId for Far {
    ghost id_of = { λ row. row.id };

    fn id(&self) -> &Id {
        &self.id
    }
}

// What memory refuses is dropped.
fn keep<T: Drop>(kept: &mut Vec<T>, row: T) -> Result<(), AllocError>
    ensures { OnOk result (kept.new.items ≡ kept.old.items ++ row ∷ []) }
{
    kept.push(row)?;
    Ok(())
}

/// The rows without those that have the id of an earlier one, in one pass.
#[tactic(auto, using(crate::proofs::KeptLemmas::first_rows))]
pub fn first_of_each<R: HasId + Drop>(alloc: Global, rows: Vec<R>) -> Result<Vec<R>, NoMemory>
    ensures { IfOk result (λ v. v.items ≡ first_of_each R.id_of rows.items) }
{
    let mut seen = SeenIds::new(alloc);
    let mut kept = Vec::with_capacity(alloc, rows.len())?;
    for row in rows {
        if seen.is_new(row.id())? {
            keep(&mut kept, row)?;
        }
    }
    Ok(kept)
}
