// Members that must be there.
ghost use Rattle.std.specs.Prelude.{◌≡◌};
ghost use Rattle.serde_json.specs.View.{view};
ghost use Rattle.json_fields.specs.FieldFault.{Reads};
ghost use Rattle.json_fields.specs.Fields.{addr_of_field, flag_of, needed, prefix_of_field, text_of};

use crate::fields::{addr_if, flag_if, prefix_if, str_if};
use crate::{FieldFault, Path};
use prefix_text::Prefix;
use serde_json::Value;
use std::alloc::Global;

/// A JSON `true` or `false`, which must be there.
pub fn flag_at(alloc: Global, row: &Value, path: &Path, field: &str) -> Result<bool, FieldFault>
    ensures { Reads (λ x. x) (needed flag_of (view row.now) path.now field.now) result }
{
    match flag_if(alloc, row, path, field)? {
        Some(flag) => Ok(flag),
        None => Err(FieldFault::wrong_shape(alloc, path, field)),
    }
}

/// Any text, which must be there. No grammar is asked of it.
pub fn str_at<'a>(
    alloc: Global,
    row: &'a Value,
    path: &Path,
    field: &str,
) -> Result<&'a str, FieldFault>
    ensures { Reads (λ s. s.now) (needed text_of (view row.now) path.now field.now) result }
{
    match str_if(alloc, row, path, field) {
        Ok(Some(text)) => Ok(text),
        Ok(None) => Err(FieldFault::wrong_shape(alloc, path, field)),
        Err(fault) => Err(fault),
    }
}

/// An IPv4 address in dotted decimal notation, which must be there. The high byte comes first.
pub fn addr_at(alloc: Global, row: &Value, path: &Path, field: &str) -> Result<u32, FieldFault>
    ensures { Reads (λ x. x) (needed addr_of_field (view row.now) path.now field.now) result }
{
    match addr_if(alloc, row, path, field)? {
        Some(addr) => Ok(addr),
        None => Err(FieldFault::wrong_shape(alloc, path, field)),
    }
}

/// A block of IPv4 addresses in CIDR notation, which must be there. Host bits that are set are cleared.
pub fn prefix_at(alloc: Global, row: &Value, path: &Path, field: &str) -> Result<Prefix, FieldFault>
    ensures { Reads (λ x. x) (needed prefix_of_field (view row.now) path.now field.now) result }
{
    match prefix_if(alloc, row, path, field)? {
        Some(prefix) => Ok(prefix),
        None => Err(FieldFault::wrong_shape(alloc, path, field)),
    }
}
