// The lists of a bundle.
ghost use Rattle.std.specs.Prelude.{◌≡◌, map, option_map};
ghost use Rattle.std.specs.List.{list_all};
ghost use Rattle.serde_json.specs.View.{view};
ghost use Rattle.json_fields.specs.FieldFault.{Reads};
ghost use Rattle.json_fields.specs.Fields.{member_of, elements_if};
ghost use Rattle.json_fields.specs.Bundle.{rows_of, joined_lists, is_object, all_objects, objects_of};

use crate::FieldFault;
use crate::members::{elements, member, references};
use serde_json::Value;
use std::alloc::Global;
use std::slice;

/// The rows of one object's list of this name.
fn own_list<'a>(alloc: Global, part: &'a Value, name: &str) -> Result<Vec<&'a Value>, FieldFault>
    ensures { Reads (λ v. map (λ r. view r.now) v.items)
        (elements_if name.now (member_of (view part.now) name.now)) result }
{
    let Some(value) = member(part, name) else {
        return Ok(Vec::new(alloc));
    };
    match elements(value) {
        Some(values) => Ok(references(alloc, values)?),
        None => Err(FieldFault::wrong_shape_at(alloc, name)),
    }
}

fn joined_lists<'a>(
    alloc: Global,
    parts: &'a [Value],
    name: &str,
) -> Result<Vec<&'a Value>, FieldFault>
    ensures { Reads (λ v. map (λ r. view r.now) v.items) (joined_lists name.now (map view parts.now)) result }
{
    let mut all = Vec::new(alloc);
    for part in parts {
        let mut rows = own_list(alloc, part, name)?;
        all.append(&mut rows)?;
    }
    Ok(all)
}

fn are_objects(values: &[Value]) -> bool
    ensures { result ≡ list_all (λ v. is_object (view v)) values.now }
{
    values.iter().all(|value| value.is_object())
}

#[tactic(auto, using(crate::proofs::Elements::array_elements))]
fn all_objects(values: &[Value]) -> Option<&[Value]>
    ensures { option_map (λ s. map view s.now) result ≡ all_objects (map view values.now) }
{
    if are_objects(values) {
        Some(values)
    } else {
        None
    }
}

/// The objects of a bundle: itself, or those of an array. `None` where it is neither an object nor
/// an array of objects.
#[tactic(auto, using(crate::proofs::Elements::array_elements))]
fn objects(bundle: &Value) -> Option<&[Value]>
    ensures { option_map (λ s. map view s.now) result ≡ objects_of (view bundle.now) }
{
    if bundle.is_object() {
        return Some(slice::from_ref(bundle));
    }
    match elements(bundle) {
        Some(parts) => all_objects(parts),
        None => None,
    }
}

/// The rows of the list of this name, in order: of each object of the bundle, joined. A list that is
/// absent or null is empty. It is `WrongShape` at `$` where the bundle is neither an object nor an
/// array of objects, and at the name where one of the lists is no array.
pub fn rows_of<'a>(
    alloc: Global,
    bundle: &'a Value,
    name: &str,
) -> Result<Vec<&'a Value>, FieldFault>
    ensures { Reads (λ v. map (λ r. view r.now) v.items) (rows_of (view bundle.now) name.now) result }
{
    match objects(bundle) {
        Some(parts) => joined_lists(alloc, parts, name),
        None => Err(FieldFault::wrong_shape_at(alloc, "$")),
    }
}
