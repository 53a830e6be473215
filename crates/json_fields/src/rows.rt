// Rows of lists, each of which is read by itself.
ghost use Rattle.std.specs.Prelude.{map};
ghost use Rattle.serde_json.specs.View.{view};
ghost use Rattle.json_fields.specs.FieldFault.{Reads, each_row};
ghost use Rattle.json_fields.specs.Kept.{each_item, each_kept_item, each_kept_of, each_of};
ghost use Rattle.json_fields.specs.Paths.{at_row};

use crate::kept::those_there;
use crate::members::items_if;
use crate::{FieldFault, Path, rows_of};
use serde_json::Value;
use std::alloc::Global;

/// How a row of a list is read. It looks at nothing but the row and its place.
pub trait ReadRow {
    ghost use Rattle.std.specs.Prelude.{List, ℕ, Result};
    ghost use Rattle.serde_json.specs.Data.{Data};
    ghost use Rattle.json_fields.specs.declared.fault.FieldFault.{FieldFault as Fault};

    /// What a row tells.
    type Row: Drop;

    // what the row at this place means
    ghost meaning: { Data → List ℕ → Result Self.Row Fault };

    fn read(alloc: Global, row: &Value, path: &Path) -> Result<Self::Row, FieldFault>
        ensures { Reads (λ x. x) (meaning (view row.now) path.now) result };
}

/// The row of this number of a list.
fn read_row<R: ReadRow>(
    alloc: Global,
    row: &Value,
    name: &Path,
    number: usize,
) -> Result<R::Row, FieldFault>
    ensures { Reads (λ x. x) (R.meaning (view row.now) (at_row name.now number)) result }
{
    R::read(alloc, row, &name.row(number as u64))
}

/// What each of the rows tells, in order. `name` is the path of their list.
fn read_each<R: ReadRow>(
    alloc: Global,
    rows: &[&Value],
    name: &Path,
) -> Result<Vec<R::Row>, FieldFault>
    ensures { Reads (λ v. v.items) (each_row R.meaning name.now (map (λ r. view r.now) rows.now)) result }
{
    let mut all = Vec::with_capacity(alloc, rows.len())?;
    for (number, row) in rows.iter().enumerate() {
        all.push(read_row::<R>(alloc, row, name, number)?)?;
    }
    Ok(all)
}

fn read_values<R: ReadRow>(
    alloc: Global,
    values: &[Value],
    name: &Path,
) -> Result<Vec<R::Row>, FieldFault>
    ensures { Reads (λ v. v.items) (each_row R.meaning name.now (map view values.now)) result }
{
    let mut all = Vec::with_capacity(alloc, values.len())?;
    for (number, value) in values.iter().enumerate() {
        all.push(read_row::<R>(alloc, value, name, number)?)?;
    }
    Ok(all)
}

/// What each item of the member of this name tells, which is an array, and nothing where it is absent
/// or null.
pub fn read_items<R: ReadRow>(
    alloc: Global,
    row: &Value,
    path: &Path,
    field: &str,
) -> Result<Vec<R::Row>, FieldFault>
    ensures { Reads (λ v. v.items) (each_item R.meaning (view row.now) path.now field.now) result }
{
    let items = items_if(alloc, row, path, field)?;
    read_values::<R>(alloc, items, &path.member(field))
}

/// What each row of the bundle's list of this name tells.
pub fn read_list<R: ReadRow>(
    alloc: Global,
    bundle: &Value,
    name: &str,
) -> Result<Vec<R::Row>, FieldFault>
    ensures { Reads (λ v. v.items) (each_of R.meaning (view bundle.now) name.now) result }
{
    let rows = rows_of(alloc, bundle, name)?;
    read_each::<R>(alloc, rows.as_slice(), &Path::list(name))
}

/// What the items of the member of this name tell that are kept.
pub fn read_kept_items<T: Drop, R: ReadRow<Row = Option<T>>>(
    alloc: Global,
    row: &Value,
    path: &Path,
    field: &str,
) -> Result<Vec<T>, FieldFault>
    ensures { Reads (λ v. v.items) (each_kept_item R.meaning (view row.now) path.now field.now) result }
{
    let all = read_items::<R>(alloc, row, path, field)?;
    Ok(those_there(alloc, all)?)
}

/// What the rows of the bundle's list of this name tell that are kept.
pub fn read_kept_list<T: Drop, R: ReadRow<Row = Option<T>>>(
    alloc: Global,
    bundle: &Value,
    name: &str,
) -> Result<Vec<T>, FieldFault>
    ensures { Reads (λ v. v.items) (each_kept_of R.meaning (view bundle.now) name.now) result }
{
    let all = read_list::<R>(alloc, bundle, name)?;
    Ok(those_there(alloc, all)?)
}
