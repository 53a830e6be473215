// A sorted table. It isn't hashed: whoever writes a file of events chooses its addresses and ports, and could
// choose ones that a hash of a fixed seed throws together.
ghost use Rattle.std.specs.Prelude.{◌≡◌, [], if◌then◌else◌, OnErr, OnOk};

use crate::sent::Sent;
use std::alloc::{AllocError, Global};
use std::collections::BTreeMap;
use std::marker::Model;

/// What is known of headers at gateways.
pub struct Table<V> {
    map: BTreeMap<Sent, V>,
}

impl<V: Drop> Drop for Table<V> {
    fn drop(self) {
        let Table { map } = self;
        drop(map);
    }
}

impl<V> Model for Table<V> {
    ghost use Rattle.std.specs.Prelude.{List};
    ghost use Rattle.nat_gateway.specs.declared.sent.Sent.{Sent};

    ghost Value = { List (Sent × V) };

    ghost view = { λ t. t.map.entries };
}

impl<V: Copy> Table<V> {
    ghost use Rattle.nat_gateway.specs.declared.sent.Sent.{Sent};
    ghost use Rattle.nat_gateway.specs.Sent.{same_sent};
    ghost use Rattle.nat_gateway.specs.Tables.{value_at};

    pub fn new(alloc: Global) -> Table<V>
        ensures { result ≡ [] }
    {
        Table {
            map: BTreeMap::new(alloc),
        }
    }

    pub fn get(&self, key: &Sent) -> Option<V>
        ensures { result ≡ value_at self.now key.now }
    {
        self.map.get(key).copied()
    }

    /// Gives the key this value, in place of the one that it had. A key that has one takes no memory.
    pub fn put(&mut self, key: Sent, value: V) -> Result<(), AllocError>
        ensures put { OnOk result ((k : Sent)
            → value_at self.new k ≡ (if same_sent key k then Some value else value_at self.old k)) }
        ensures err { OnErr result (self.new ≡ self.old) }
    {
        self.map.insert(key, value)?;
        Ok(())
    }
}
