// Members of an object that is a member itself. Where it isn't there, or is no object, none of them is.
ghost use Rattle.std.specs.Prelude.{◌≡◌, option_map};
ghost use Rattle.serde_json.specs.View.{view};
ghost use Rattle.json_fields.specs.FieldFault.{Reads};
ghost use Rattle.json_fields.specs.Fields.{addr_of_field, has_text, id_if_of, id_of, needed, text_of, within_part};

use crate::fields::{addr_if, id_at, id_if, str_if};
use crate::needed::str_at;
use crate::{FieldFault, Path};
use serde_json::Value;
use std::alloc::Global;
use vpc_model::Id;

/// An id in the part of the row, which must be there.
pub fn id_within(
    alloc: Global,
    row: &Value,
    path: &Path,
    part: &str,
    field: &str,
) -> Result<Id, FieldFault>
    ensures { Reads (λ x. x) (within_part id_of (view row.now) path.now part.now field.now) result }
{
    let path = path.member(part);
    match row.get(part) {
        Some(inner) => id_at(alloc, inner, &path, field),
        None => Err(FieldFault::wrong_shape(alloc, &path, field)),
    }
}

/// An id in the part of the row.
pub fn id_if_within(
    alloc: Global,
    row: &Value,
    path: &Path,
    part: &str,
    field: &str,
) -> Result<Option<Id>, FieldFault>
    ensures { Reads (λ x. x) (within_part id_if_of (view row.now) path.now part.now field.now) result }
{
    match row.get(part) {
        Some(inner) => id_if(alloc, inner, &path.member(part), field),
        None => Ok(None),
    }
}

/// An IPv4 address in the part of the row.
pub fn addr_if_within(
    alloc: Global,
    row: &Value,
    path: &Path,
    part: &str,
    field: &str,
) -> Result<Option<u32>, FieldFault>
    ensures { Reads (λ x. x) (within_part addr_of_field (view row.now) path.now part.now field.now) result }
{
    match row.get(part) {
        Some(inner) => addr_if(alloc, inner, &path.member(part), field),
        None => Ok(None),
    }
}

/// Any text in the part of the row, which must be there.
pub fn str_within<'a>(
    alloc: Global,
    row: &'a Value,
    path: &Path,
    part: &str,
    field: &str,
) -> Result<&'a str, FieldFault>
    ensures { Reads (λ s. s.now) (within_part (needed text_of)
        (view row.now) path.now part.now field.now) result }
{
    let path = path.member(part);
    match row.get(part) {
        Some(inner) => str_at(alloc, inner, &path, field),
        None => Err(FieldFault::wrong_shape(alloc, &path, field)),
    }
}

/// Any text in the part of the row.
pub fn str_if_within<'a>(
    alloc: Global,
    row: &'a Value,
    path: &Path,
    part: &str,
    field: &str,
) -> Result<Option<&'a str>, FieldFault>
    ensures { Reads (option_map (λ s. s.now))
        (within_part text_of (view row.now) path.now part.now field.now) result }
{
    match row.get(part) {
        Some(inner) => str_if(alloc, inner, &path.member(part), field),
        None => Ok(None),
    }
}

/// Whether the member is this text. It may be absent.
pub fn has_text(
    alloc: Global,
    text: &str,
    row: &Value,
    path: &Path,
    field: &str,
) -> Result<bool, FieldFault>
    ensures { Reads (λ x. x) (has_text text.now (view row.now) path.now field.now) result }
{
    match str_if(alloc, row, path, field) {
        Ok(Some(told)) => Ok(told == text),
        Ok(None) => Ok(false),
        Err(fault) => Err(fault),
    }
}
