// Members of objects, and the elements of arrays.
ghost use Rattle.std.specs.Prelude.{◌≡◌, map, option_map, IfOk};
ghost use Rattle.serde_json.specs.View.{view};
ghost use Rattle.json_fields.specs.FieldFault.{Reads};
ghost use Rattle.json_fields.specs.Fields.{array_of, list_of, member_of};

use crate::{FieldFault, Path};
use serde_json::Value;
use std::alloc::{AllocError, Global};

/// The member of this name. `None` where the row is no object, or the member is absent or null.
pub fn member<'a>(row: &'a Value, field: &str) -> Option<&'a Value>
    ensures { option_map (λ v. view v.now) result ≡ member_of (view row.now) field.now }
{
    match row.get(field) {
        Some(value) if !value.is_null() => Some(value),
        _ => None,
    }
}

/// A reference to each of the values.
pub(crate) fn references(alloc: Global, values: &[Value]) -> Result<Vec<&Value>, AllocError>
    ensures { IfOk result (λ v. map (λ r. view r.now) v.items ≡ map view values.now) }
{
    let mut all = Vec::new(alloc);
    for value in values {
        all.push(value)?;
    }
    Ok(all)
}

/// The elements of an array. `None` for another value.
#[tactic(auto, using(crate::proofs::Elements::array_elements))]
pub(crate) fn elements(value: &Value) -> Option<&[Value]>
    ensures { option_map (λ s. map view s.now) result ≡ array_of (view value.now) }
{
    match value.as_array() {
        Some(values) => Some(values.as_slice()),
        None => None,
    }
}

/// The elements of the member of this name, which is an array, and none where it is absent or null.
pub(crate) fn items_if<'a>(
    alloc: Global,
    row: &'a Value,
    path: &Path,
    field: &str,
) -> Result<&'a [Value], FieldFault>
    ensures { Reads (λ s. map view s.now) (list_of (view row.now) path.now field.now) result }
{
    let Some(value) = member(row, field) else {
        return Ok(&[]);
    };
    match elements(value) {
        Some(values) => Ok(values),
        None => Err(FieldFault::wrong_shape(alloc, path, field)),
    }
}
