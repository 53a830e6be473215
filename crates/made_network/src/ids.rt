// Ids of generated rows.
ghost use Rattle.std.specs.Prelude.{◌≡◌, ◌≤◌, IfOk, IsTrue, length};
ghost use Rattle.std.specs.List.{list_all};
ghost use Rattle.vpc_model.specs.Id.{is_id, is_visible};
ghost use Rattle.made_network.specs.Made.{numbered};

use std::alloc::Global;
use vpc_base::NoMemory;
use vpc_model::Id;

/// The id of a text that is one.
pub fn id_of(alloc: Global, text: &[u8]) -> Result<Id, NoMemory>
    requires { IsTrue (is_id text.now) }
    ensures { IfOk result (λ i. i ≡ text.now) }
{
    match Id::of(alloc, text)? {
        Some(id) => Ok(id),
        None => unreachable!(),
    }
}

/// The id of a kind of row with a number.
pub fn numbered(alloc: Global, kind: &str, number: u8) -> Result<Id, NoMemory>
    requires visible { IsTrue (list_all is_visible kind.now) }
    requires short { length kind.now ≤ 100 }
    ensures { IfOk result (λ i. i ≡ numbered kind.now number) }
{
    let text = format!(in alloc; "{kind}-{number}")?;
    id_of(alloc, text.as_bytes())
}
