// Ids that stand twice in a list.
ghost use Rattle.std.specs.Prelude.{◌≡◌, IfOk, OnOk, map};
ghost use Rattle.vpc_model.specs.Accepted.{duplicates_in};
ghost use Rattle.reference_check.specs.Told.{Tells};

use crate::ids::Ids;
use crate::rows::Row;
use std::alloc::Global;
use vpc_base::NoMemory;
use vpc_model::{Id, Refusal};

// The bytes of an id once more.
fn bytes_of(alloc: Global, id: &Id) -> Result<Vec<u8>, NoMemory>
    ensures { IfOk result (λ b. b.items ≡ id.now) }
{
    Ok(id.bytes().to_vec(alloc)?)
}

/// The ids of the rows of a list, or the first that is there twice.
fn numbered<R: Row>(alloc: Global, rows: &[R]) -> Result<Ids, Refusal>
    ensures told { Tells (duplicates_in (map R.id_of rows.now)) result }
    ensures ids { IfOk result (λ n. n ≡ map R.id_of rows.now) }
{
    let mut ids = Ids::new(alloc);
    for row in rows {
        if !ids.add(bytes_of(alloc, row.id())?)? {
            return Err(Refusal::DuplicateId(row.id().copied(alloc)?));
        }
    }
    Ok(ids)
}

/// The ids of the rows of a list, in place of others, or the first that is there twice.
pub fn number<R: Row>(alloc: Global, rows: &[R], ids: &mut Ids) -> Result<(), Refusal>
    ensures told { Tells (duplicates_in (map R.id_of rows.now)) result }
    ensures ids { OnOk result (ids.new ≡ map R.id_of rows.now) }
{
    *ids = numbered(alloc, rows)?;
    Ok(())
}

/// The first id that is there twice among the rows of a list.
pub fn no_duplicates<R: Row>(alloc: Global, rows: &[R]) -> Result<(), Refusal>
    ensures { Tells (duplicates_in (map R.id_of rows.now)) result }
{
    numbered(alloc, rows)?;
    Ok(())
}
