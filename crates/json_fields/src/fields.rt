// Readers of the members of a row.
ghost use Rattle.std.specs.Prelude.{◌≡◌, map, option_map, int_lt};
ghost use Rattle.serde_json.specs.View.{view};
ghost use Rattle.json_fields.specs.FieldFault.{Reads, in_grammar};
ghost use Rattle.json_fields.specs.Paths.{at_member};
ghost use Rattle.json_fields.specs.Fields.{flag_of, text_of, number_of, id_in, id_of, id_if_of, addr_of_field, prefix_of_field};

use crate::members::member;
use crate::{FieldFault, Path};
use prefix_text::{Prefix, read_addr, read_prefix};
use serde_json::Value;
use std::alloc::Global;
use vpc_model::Id;

/// A JSON `true` or `false`.
pub fn flag_if(
    alloc: Global,
    row: &Value,
    path: &Path,
    field: &str,
) -> Result<Option<bool>, FieldFault>
    ensures { Reads (λ x. x) (flag_of (view row.now) path.now field.now) result }
{
    let Some(value) = member(row, field) else {
        return Ok(None);
    };
    match value.as_bool() {
        Some(flag) => Ok(Some(flag)),
        None => Err(FieldFault::wrong_shape(alloc, path, field)),
    }
}

/// A whole number from `lo` to `hi`, both included. One that fits 64 bits, with a sign or without,
/// and lies elsewhere is `BadText`. A number with a fraction or an exponent, one past 64 bits and
/// `-0` are `WrongShape`.
pub fn number_if(
    alloc: Global,
    row: &Value,
    path: &Path,
    field: &str,
    lo: i64,
    hi: i64,
) -> Result<Option<i64>, FieldFault>
    ensures { Reads (λ x. x) (number_of lo hi (view row.now) path.now field.now) result }
{
    let Some(value) = member(row, field) else {
        return Ok(None);
    };
    match value.as_i64() {
        Some(number) if lo <= number && number <= hi => Ok(Some(number)),
        Some(_) => Err(FieldFault::bad_text(alloc, path, field)),
        None if value.is_u64() => Err(FieldFault::bad_text(alloc, path, field)),
        None => Err(FieldFault::wrong_shape(alloc, path, field)),
    }
}

/// Any text, as it stands in the row. No grammar is asked of it.
pub fn str_if<'a>(
    alloc: Global,
    row: &'a Value,
    path: &Path,
    field: &str,
) -> Result<Option<&'a str>, FieldFault>
    ensures { Reads (option_map (λ s. s.now)) (text_of (view row.now) path.now field.now) result }
{
    let Some(value) = member(row, field) else {
        return Ok(None);
    };
    match value.as_str() {
        Some(text) => Ok(Some(text)),
        None => Err(FieldFault::wrong_shape(alloc, path, field)),
    }
}

fn id_in(alloc: Global, text: &str, path: &Path, field: &str) -> Result<Id, FieldFault>
    ensures { Reads (λ x. x) (in_grammar (at_member path.now field.now) (id_in text.now)) result }
{
    match Id::of(alloc, text.as_bytes())? {
        Some(id) => Ok(id),
        None => Err(FieldFault::bad_text(alloc, path, field)),
    }
}

/// An id, which must be there: 1 to 256 visible ASCII characters. It is `WrongShape` where the member
/// is absent or null.
pub fn id_at(alloc: Global, row: &Value, path: &Path, field: &str) -> Result<Id, FieldFault>
    ensures { Reads (λ x. x) (id_of (view row.now) path.now field.now) result }
{
    match str_if(alloc, row, path, field) {
        Ok(Some(text)) => id_in(alloc, text, path, field),
        Ok(None) => Err(FieldFault::wrong_shape(alloc, path, field)),
        Err(fault) => Err(fault),
    }
}

/// An id: 1 to 256 visible ASCII characters.
pub fn id_if(alloc: Global, row: &Value, path: &Path, field: &str) -> Result<Option<Id>, FieldFault>
    ensures { Reads (λ x. x) (id_if_of (view row.now) path.now field.now) result }
{
    match str_if(alloc, row, path, field) {
        Ok(Some(text)) => Ok(Some(id_in(alloc, text, path, field)?)),
        Ok(None) => Ok(None),
        Err(fault) => Err(fault),
    }
}

/// An IPv4 address in dotted decimal notation, the high byte first.
pub fn addr_if(
    alloc: Global,
    row: &Value,
    path: &Path,
    field: &str,
) -> Result<Option<u32>, FieldFault>
    ensures { Reads (λ x. x) (addr_of_field (view row.now) path.now field.now) result }
{
    match str_if(alloc, row, path, field) {
        Ok(Some(text)) => match read_addr(text.as_bytes()) {
            Some(addr) => Ok(Some(addr)),
            None => Err(FieldFault::bad_text(alloc, path, field)),
        },
        Ok(None) => Ok(None),
        Err(fault) => Err(fault),
    }
}

/// A block of IPv4 addresses in CIDR notation. Host bits that are set are cleared.
pub fn prefix_if(
    alloc: Global,
    row: &Value,
    path: &Path,
    field: &str,
) -> Result<Option<Prefix>, FieldFault>
    ensures { Reads (λ x. x) (prefix_of_field (view row.now) path.now field.now) result }
{
    match str_if(alloc, row, path, field) {
        Ok(Some(text)) => match read_prefix(text.as_bytes()) {
            Some(prefix) => Ok(Some(prefix)),
            None => Err(FieldFault::bad_text(alloc, path, field)),
        },
        Ok(None) => Ok(None),
        Err(fault) => Err(fault),
    }
}
