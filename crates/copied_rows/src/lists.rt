// Copies of lists.
ghost use Rattle.std.specs.Prelude.{◌≡◌, ◌++◌, ◌∷◌, [], IfOk, OnOk};

use std::alloc::Global;
use vpc_base::{NoMemory, OwnList};
use vpc_model::Id;

/// A row that is copied with all that it owns.
pub trait CopiedRow {
    ghost use Rattle.std.specs.Prelude.{IfOk};

    /// The same row once more.
    fn copied(&self, alloc: Global) -> Result<Self, NoMemory>
        ensures { IfOk result (λ r. r ≡ self.now) };
}

impl CopiedRow for Id {
    fn copied(&self, alloc: Global) -> Result<Id, NoMemory> {
        Id::copied(self, alloc)
    }
}

// Adds a row at the end. What memory refuses is dropped.
fn add<T: Drop>(rows: &mut Vec<T>, row: T) -> Result<(), NoMemory>
    ensures { OnOk result (rows.new.items ≡ rows.old.items ++ row ∷ []) }
{
    rows.push(row)?;
    Ok(())
}

/// Adds copies of rows at the end.
pub fn add_copies<T: CopiedRow + Drop>(into: &mut Vec<T>, rows: &[T]) -> Result<(), NoMemory>
    ensures { OnOk result (into.new.items ≡ into.old.items ++ rows.now) }
{
    for row in rows {
        let copy = row.copied(*into.allocator())?;
        add(into, copy)?;
    }
    Ok(())
}

/// Copies of all rows of a list.
pub fn copied_list<T: CopiedRow + Drop>(
    alloc: Global,
    rows: &OwnList<T>,
) -> Result<OwnList<T>, NoMemory>
    ensures { IfOk result (λ l. l ≡ rows.now) }
{
    let mut copies = Vec::new(alloc);
    add_copies(&mut copies, rows.as_slice())?;
    Ok(OwnList::of(copies))
}

// Adds rows that own nothing at the end.
fn add_values<T: Copy + Drop>(into: &mut Vec<T>, rows: &[T]) -> Result<(), NoMemory>
    ensures { OnOk result (into.new.items ≡ into.old.items ++ rows.now) }
{
    for row in rows {
        add(into, *row)?;
    }
    Ok(())
}

/// Copies of all rows of a list that own nothing.
pub(crate) fn copied_values<T: Copy + Drop>(
    alloc: Global,
    rows: &OwnList<T>,
) -> Result<OwnList<T>, NoMemory>
    ensures { IfOk result (λ l. l ≡ rows.now) }
{
    let mut copies = Vec::new(alloc);
    add_values(&mut copies, rows.as_slice())?;
    Ok(OwnList::of(copies))
}
