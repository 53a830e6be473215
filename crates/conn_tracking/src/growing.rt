// Connections of a session.
ghost use Rattle.std.specs.Prelude.{◌≡◌, ◌≤◌, [], OnOk};
ghost use Rattle.std.specs.List.{list_any};
ghost use Rattle.vpc_model.specs.Connections.{same_connection};
ghost use Rattle.conn_tracking.specs.Tracked.{AreFirst};

use crate::entry::{is_among, opposite};
use crate::{Entry, Tracker};
use std::alloc::{AllocError, Global};
use std::collections::BTreeSet;
use std::marker::Model;
use vpc_base::{Dir, Header, NoMemory};
use vpc_model::EniNo;

/// As many connections as room was made for.
///
/// Only `reserve` takes memory. A look-up among n connections takes some log n steps, and a step for each
/// connection that was added after the latest `reserve`, whatever addresses and ports they have.
pub struct GrowingConns {
    list: Vec<Entry>,
    // The first `count` ones of the list. They are sorted, not hashed: whoever writes a file of events
    // chooses its addresses and ports, and could choose ones that a hash of a fixed seed throws together.
    known: BTreeSet<Entry>,
    count: usize,
}

impl Drop for GrowingConns {
    fn drop(self) {
        let GrowingConns {
            list,
            known,
            count: _,
        } = self;
        drop(list);
        drop(known);
    }
}

impl Model for GrowingConns {
    ghost use Rattle.std.specs.Prelude.{◌-◌, vec_capacity, vec_len};
    ghost use Rattle.conn_tracking.specs.Tracked.{AreFirst, Tracked};

    ghost Value = { Tracked };

    ghost view = { λ g. record { conns = g.list.items; spare = vec_capacity g.list - vec_len g.list } };

    ghost invariant = { λ g. AreFirst g.known.keys g.count g.list.items };
}

impl GrowingConns {
    pub fn new(alloc: Global) -> GrowingConns
        ensures { result.conns ≡ [] }
    {
        GrowingConns {
            list: Vec::new(alloc),
            known: BTreeSet::new(alloc),
            count: 0,
        }
    }

    /// Makes room for n more connections, and sorts those that were added since the latest call.
    pub fn reserve(&mut self, n: usize) -> Result<(), NoMemory>
        ensures conns { self.new.conns ≡ self.old.conns }
        ensures room { OnOk result (n ≤ self.new.spare) }
        ensures kept { self.old.spare ≤ self.new.spare }
    {
        learn(&mut self.known, &mut self.count, self.list.as_slice())?;
        self.list.reserve(n)?;
        Ok(())
    }

    fn has(&self, e: &Entry) -> bool
        ensures { result ≡ list_any (same_connection e.now) self.now.conns }
    {
        let (_, later) = self.list.as_slice().split_at(self.count);
        self.known.contains(e) || is_among(later, e)
    }
}

// Sorts the rest of the list too, one by one, until memory is refused.
fn learn(known: &mut BTreeSet<Entry>, count: &mut usize, list: &[Entry]) -> Result<(), AllocError>
    requires { AreFirst known.old.keys count.old list.now }
    ensures { AreFirst known.new.keys count.new list.now }
{
    while *count < list.len() {
        known.insert(list[*count])?;
        *count += 1;
    }
    Ok(())
}

impl Tracker for GrowingConns {
    ghost conns = { λ s. s.conns };

    ghost spare = { λ s. s.spare };

    fn tracked(&self, eni: EniNo, dir: Dir, h: &Header) -> bool {
        match h.opening() {
            Some(header) => {
                let dir = opposite(dir);
                self.has(&Entry { eni, dir, header })
            }
            None => false,
        }
    }

    fn add(&mut self, e: Entry) {
        if self.has(&e) {
            return;
        }
        match self.list.push(e) {
            Ok(()) => {}
            Err(_) => unreachable!(),
        }
    }
}
