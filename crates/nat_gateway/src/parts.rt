// Tables of the first entries of a list, each with a number of its own.
ghost use Rattle.std.specs.Prelude.{◌≡◌, ◌++◌, ◌∷◌, [], OnErr, OnOk};
ghost use Rattle.nat_gateway.specs.Tables.{ArePorts, IsFirst};

use crate::NatEntry;
use crate::ports::Ports;
use crate::sent::Sent;
use crate::table::Table;
use std::alloc::{AllocError, Global};
use vpc_base::Header;

/// A table of a list of translations.
pub(crate) trait Part {
    ghost use Rattle.std.specs.Prelude.{List};
    ghost use Rattle.vpc_model.specs.Nat.{Translation};

    ghost is_of: { Self → List Translation → Type 0 };

    /// Adds one more translation.
    fn add(&mut self, t: &NatEntry) -> Result<(), AllocError>
        ensures added { OnOk result ((ts : List Translation) → is_of self.old ts
            → is_of self.new (ts ++ t.now ∷ [])) }
        ensures err { OnErr result ((ts : List Translation) → is_of self.old ts → is_of self.new ts) };
}

/// A table of the first entries of a list.
pub(crate) struct First<T> {
    pub table: T,
    pub count: usize,
}

impl<T: Drop> Drop for First<T> {
    fn drop(self) {
        let First { table, count: _ } = self;
        drop(table);
    }
}

impl<T: Part> First<T> {
    /// Adds the rest of the list too, one by one, until memory is refused.
    pub fn learn(&mut self, list: &[NatEntry]) -> Result<(), AllocError>
        requires { IsFirst T.is_of self.old.table self.old.count list.now }
        ensures { IsFirst T.is_of self.new.table self.new.count list.now }
    {
        while self.count < list.len() {
            self.table.add(&list[self.count])?;
            self.count += 1;
        }
        Ok(())
    }
}

/// What each open became.
pub(crate) struct Afters {
    pub table: Table<Header>,
}

impl Drop for Afters {
    fn drop(self) {
        let Afters { table } = self;
        drop(table);
    }
}

impl Part for Afters {
    ghost use Rattle.nat_gateway.specs.Parts.{HasAfters};

    ghost is_of = { HasAfters };

    fn add(&mut self, t: &NatEntry) -> Result<(), AllocError> {
        let key = Sent {
            nat: t.nat,
            header: t.before,
        };
        if self.table.get(&key).is_some() {
            return Ok(());
        }
        self.table.put(key, t.after)
    }
}

/// What each translated open was.
pub(crate) struct Befores {
    pub table: Table<Header>,
}

impl Drop for Befores {
    fn drop(self) {
        let Befores { table } = self;
        drop(table);
    }
}

impl Part for Befores {
    ghost use Rattle.nat_gateway.specs.Parts.{HasBefores};

    ghost is_of = { HasBefores };

    fn add(&mut self, t: &NatEntry) -> Result<(), AllocError> {
        let key = Sent {
            nat: t.nat,
            header: t.after,
        };
        if self.table.get(&key).is_some() {
            return Ok(());
        }
        self.table.put(key, t.before)
    }
}

impl Part for Ports {
    ghost is_of = { ArePorts };

    fn add(&mut self, t: &NatEntry) -> Result<(), AllocError> {
        let flow = Sent::flow(t.nat, &t.after);
        self.take(flow.with_port(t.after.p))
    }
}

/// How many opens share a gateway, protocol, destination and q. The greatest number stands for more too.
pub(crate) struct Counts {
    pub table: Table<u32>,
}

impl Drop for Counts {
    fn drop(self) {
        let Counts { table } = self;
        drop(table);
    }
}

/// How many such opens a gateway keeps (VPC User Guide, "NAT gateways").
pub(crate) const MOST: u32 = 55000;

impl Part for Counts {
    ghost use Rattle.nat_gateway.specs.Parts.{HasCounts};

    ghost is_of = { HasCounts };

    fn add(&mut self, t: &NatEntry) -> Result<(), AllocError> {
        let flow = Sent::flow(t.nat, &t.after);
        let count = self.table.get(&flow).unwrap_or(0);
        if count >= MOST {
            return Ok(());
        }
        self.table.put(flow, count + 1)
    }
}
