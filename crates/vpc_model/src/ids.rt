// The names of what is described.
ghost use Rattle.std.specs.Prelude.{◌≡◌, IsTrue, IfOk};
ghost use Rattle.std.specs.List.{list_all};
ghost use Rattle.vpc_model.specs.Id.{is_id, is_visible};

use std::alloc::Global;
use std::marker::Model;
use vpc_base::NoMemory;

/// The name of a resource, of a zone or of a network function, as the EC2 API prints it: 1 to 256
/// visible ASCII characters. Contracts see its bytes.
#[derive(Drop)]
pub struct Id {
    text: Vec<u8>,
}

impl Model for Id {
    ghost use Rattle.std.specs.Prelude.{List, ℕ, IsTrue};
    ghost use Rattle.vpc_model.specs.Id.{is_id};

    ghost Value = { List ℕ };

    ghost view = { λ i. i.text.items };

    ghost invariant = { λ i. IsTrue (is_id i.text.items) };
}

fn are_visible(text: &[u8]) -> bool
    ensures { result ≡ list_all is_visible text.now }
{
    text.iter().all(|c| 33 <= *c && *c <= 126)
}

fn is_id(text: &[u8]) -> bool
    ensures { result ≡ is_id text.now }
{
    let length = text.len();
    1 <= length && length <= 256 && are_visible(text)
}

impl Id {
    ghost use Rattle.vpc_model.specs.Id.{IsIdOf};

    /// The id of this text; none where it is no id.
    pub fn of(alloc: Global, text: &[u8]) -> Result<Option<Id>, NoMemory>
        ensures { IfOk result (λ i. IsIdOf text.now i) }
    {
        if !is_id(text) {
            return Ok(None);
        }
        Ok(Some(Id {
            text: text.to_vec(alloc)?,
        }))
    }

    pub fn bytes(&self) -> &[u8]
        ensures value { result.now ≡ self.now }
        ensures visible { IsTrue (is_id self.now) }
    {
        self.text.as_slice()
    }

    /// The same id once more.
    pub fn copied(&self, alloc: Global) -> Result<Id, NoMemory>
        ensures { IfOk result (λ i. i ≡ self.now) }
    {
        Ok(Id {
            text: self.text.to_vec(alloc)?,
        })
    }
}
