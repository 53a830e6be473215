// Rows, found by the ids that they name.
ghost use Rattle.std.specs.Prelude.{◌≡◌, ℕ, IfOk, List, bytes_eq, map, position};
ghost use Rattle.reference_check.specs.FirstNumbers.{number_in};

use indexmap::IndexMap;
use std::alloc::{AllocError, Global};
use std::marker::Model;
use vpc_model::{Association, Attachment, Far, FirewallEndpoint, Group, Id, Subnet};

/// A row that names something by its id: an association its attachment, an attachment its gateway, a subnet
/// its zone, a network what leads there, a group, a firewall endpoint or an id itself.
pub trait Naming {
    ghost name_of: { Self → List ℕ };

    fn name(&self) -> &Id
        ensures { result.now ≡ name_of self.now };
}

impl Naming for Id {
    ghost name_of = { λ id. id };

    fn name(&self) -> &Id {
        self
    }
}

impl Naming for Association {
    ghost name_of = { λ r. r.attachment };

    fn name(&self) -> &Id {
        &self.attachment
    }
}

impl Naming for Attachment {
    ghost name_of = { λ r. r.gateway };

    fn name(&self) -> &Id {
        &self.gateway
    }
}

impl Naming for Subnet {
    ghost name_of = { λ r. r.zone };

    fn name(&self) -> &Id {
        &self.zone
    }
}

impl Naming for Group {
    ghost name_of = { λ r. r.id };

    fn name(&self) -> &Id {
        &self.id
    }
}

impl Naming for Far {
    ghost name_of = { λ r. r.id };

    fn name(&self) -> &Id {
        &self.id
    }
}

impl Naming for FirewallEndpoint {
    ghost name_of = { λ r. r.id };

    fn name(&self) -> &Id {
        &self.id
    }
}

/// The number of the first row that names each id. Contracts see the ids, each with its number.
pub struct FirstNumbers {
    numbers: IndexMap<Vec<u8>, usize>,
}

impl Drop for FirstNumbers {
    fn drop(self) {
        let FirstNumbers { numbers } = self;
        drop(numbers);
    }
}

impl Model for FirstNumbers {
    ghost use Rattle.std.specs.Prelude.{List, ℕ, map};

    ghost Value = { List (List ℕ × ℕ) };

    ghost view = { λ s. map (λ e. (e.0.items, e.1)) s.numbers.entries };
}

impl FirstNumbers {
    ghost use Rattle.std.specs.Prelude.{None, Some, [], ◌++◌, ◌∷◌, if◌then◌else◌, IsTrue, is_some, OnOk};

    /// Of no rows.
    pub(crate) fn new(alloc: Global) -> FirstNumbers
        ensures { result ≡ [] }
    {
        FirstNumbers {
            numbers: IndexMap::new(alloc),
        }
    }

    /// The number of the first row that names an id. It takes no memory.
    pub fn get(&self, id: &[u8]) -> Option<usize>
        ensures { result ≡ number_in self.now id.now }
    {
        self.numbers.get(id).copied()
    }

    /// The number of an id that a row names.
    pub fn number(&self, id: &Id) -> usize
        requires { IsTrue (is_some (number_in self.now id.now)) }
        ensures { number_in self.now id.now ≡ Some result }
    {
        match self.get(id.bytes()) {
            Some(number) => number,
            None => unreachable!(),
        }
    }

    fn append(&mut self, id: Vec<u8>, number: usize) -> Result<(), AllocError>
        requires { number_in self.old id.items ≡ None }
        ensures { OnOk result (self.new ≡ self.old ++ (id.items, number) ∷ []) }
    {
        self.numbers.insert(id, number)?;
        Ok(())
    }

    // An id that is there keeps its number.
    fn add(&mut self, alloc: Global, id: &Id, number: usize) -> Result<(), AllocError>
        ensures { OnOk result (self.new ≡ (if is_some (number_in self.old id.now) then self.old
            else self.old ++ (id.now, number) ∷ [])) }
    {
        match self.get(id.bytes()) {
            Some(_) => Ok(()),
            None => self.append(id.bytes().to_vec(alloc)?, number),
        }
    }

    /// The numbers of the rows, from 0. Of those that name one id the first counts.
    pub fn of<R: Naming>(alloc: Global, rows: &[R]) -> Result<FirstNumbers, AllocError>
        ensures { IfOk result (λ n. (id : List ℕ) → number_in n id
            ≡ position (λ r. bytes_eq (R.name_of r) id) rows.now) }
    {
        let mut numbers = FirstNumbers::new(alloc);
        for (number, row) in rows.iter().enumerate() {
            numbers.add(alloc, row.name(), number)?;
        }
        Ok(numbers)
    }
}
