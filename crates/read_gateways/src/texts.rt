// Texts that rows tell their state by.
ghost use Rattle.std.specs.Prelude.{◌≡◌};
ghost use Rattle.serde_json.specs.View.{view};
ghost use Rattle.json_fields.specs.FieldFault.{Reads};
ghost use Rattle.read_gateways.specs.Texts.{text_is};

use json_fields::{FieldFault, Path, str_at};
use serde_json::Value;
use std::alloc::Global;

/// Whether the member is this text. It must be there, and be a text.
pub fn text_is(
    alloc: Global,
    text: &str,
    row: &Value,
    path: &Path,
    field: &str,
) -> Result<bool, FieldFault>
    ensures { Reads (λ x. x) (text_is text.now (view row.now) path.now field.now) result }
{
    match str_at(alloc, row, path, field) {
        Ok(told) => Ok(told == text),
        Err(fault) => Err(fault),
    }
}
