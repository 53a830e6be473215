// Lists of few rows.
ghost use Rattle.std.specs.Prelude.{◌≡◌, ◌++◌, ◌∷◌, [], IfOk, OnOk};

use std::alloc::{AllocError, Global};
use vpc_base::OwnList;

/// Adds a row at the end. What memory refuses is dropped.
pub fn add<T: Drop>(rows: &mut Vec<T>, row: T) -> Result<(), AllocError>
    ensures { OnOk result (rows.new.items ≡ rows.old.items ++ row ∷ []) }
{
    rows.push(row)?;
    Ok(())
}

/// A list of nothing.
pub fn no_rows<T>(alloc: Global) -> OwnList<T>
    ensures { result ≡ [] }
{
    OwnList::of(Vec::new(alloc))
}

/// A list of one item.
pub fn only_row<T: Drop>(alloc: Global, row: T) -> Result<OwnList<T>, AllocError>
    ensures { IfOk result (λ l. l ≡ row ∷ []) }
{
    let mut rows = Vec::new(alloc);
    rows.push(row)?;
    Ok(OwnList::of(rows))
}

/// A list of two items.
pub fn two_rows<T: Drop>(alloc: Global, first: T, second: T) -> Result<OwnList<T>, AllocError>
    ensures { IfOk result (λ l. l ≡ first ∷ second ∷ []) }
{
    let mut rows = Vec::new(alloc);
    rows.push(first)?;
    rows.push(second)?;
    Ok(OwnList::of(rows))
}
