// Ids that rows name, with the numbers of the rows.
ghost use Rattle.std.specs.Prelude.{◌≡◌, List, ℕ, bytes_eq, option_and_then, option_map, position, slice_get};
ghost use Rattle.fabric.specs.Named.{number_beside};

use reference_check::{FirstNumbers, Naming};
use std::alloc::{AllocError, Global};
use std::marker::Model;
use vpc_model::Id;

/// An id with the number of a row that names it.
#[derive(Drop)]
pub struct Named {
    pub id: Id,
    pub number: u32,
}

impl Naming for Named {
    ghost name_of = { λ r. r.id };

    fn name(&self) -> &Id {
        &self.id
    }
}

/// Ids by which the first number beside each is found. Contracts see the rows.
pub struct FirstNamed {
    rows: Vec<Named>,
    places: FirstNumbers,
}

impl Drop for FirstNamed {
    fn drop(self) {
        let FirstNamed { rows, places } = self;
        drop(rows);
        drop(places);
    }
}

impl Model for FirstNamed {
    ghost use Rattle.std.specs.Prelude.{List};
    ghost use Rattle.fabric.specs.Named.{ArePlaces};
    ghost use Rattle.fabric.specs.declared.named.Named.{Named};

    ghost Value = { List Named };

    ghost view = { λ t. t.rows.items };

    ghost invariant = { λ t. ArePlaces t.rows.items t.places };
}

// The number of the row in this place.
fn number_at(rows: &[Named], place: Option<usize>) -> Option<u32>
    ensures { result ≡ option_map (λ r. r.number) (option_and_then (slice_get rows.now) place) }
{
    let row = rows.get(place?)?;
    Some(row.number)
}

impl FirstNamed {
    ghost use Rattle.std.specs.Prelude.{IfOk};

    /// Rows, in the order in which the first of an id counts.
    pub fn of(alloc: Global, rows: Vec<Named>) -> Result<FirstNamed, AllocError>
        ensures { IfOk result (λ t. t ≡ rows.items) }
    {
        let places = FirstNumbers::of(alloc, rows.as_slice())?;
        Ok(FirstNamed { rows, places })
    }

    /// The number beside the first row with this id. It takes no memory.
    pub fn get(&self, id: &Id) -> Option<u32>
        ensures { result ≡ number_beside self.now id.now }
    {
        number_at(self.rows.as_slice(), self.places.get(id.bytes()))
    }
}
