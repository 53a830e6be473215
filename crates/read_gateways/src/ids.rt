// Ids that stand in lists.
ghost use Rattle.std.specs.Prelude.{◌≡◌, slice_get};
ghost use Rattle.serde_json.specs.View.{view};
ghost use Rattle.json_fields.specs.FieldFault.{Reads};
ghost use Rattle.read_gateways.specs.Transit.{id_item};

use json_fields::{FieldFault, Path, ReadRow};
use serde_json::Value;
use std::alloc::Global;
use vpc_model::Id;

/// The items of a list of ids, which are ids themselves.
pub struct IdItems;

impl ReadRow for IdItems {
    type Row = Id;

    ghost meaning = { id_item };

    fn read(alloc: Global, row: &Value, path: &Path) -> Result<Id, FieldFault> {
        let Some(text) = row.as_str() else {
            return Err(FieldFault::wrong_shape_of(alloc, path));
        };
        match Id::of(alloc, text.as_bytes())? {
            Some(id) => Ok(id),
            None => Err(FieldFault::bad_text_of(alloc, path)),
        }
    }
}

/// The first of the ids.
pub fn first_id(mut ids: Vec<Id>) -> Option<Id>
    ensures { result ≡ slice_get ids.items 0 }
{
    if ids.len() == 0 {
        return None;
    }
    Some(ids.swap_remove(0))
}
