// Translations of a session.
ghost use Rattle.std.specs.Prelude.{◌≡◌, ◌≤◌, ◌-◌, [], OnOk, option_map};
ghost use Rattle.vpc_model.specs.Nat as model;
ghost use Rattle.nat_gateway.specs.Parts.{IsKept};
ghost use Rattle.nat_gateway.specs.Tables.{SameUsed, is_taken_beside, made_into};

use crate::book::{Entries, send};
use crate::entry::{after_of, answer_to, before_of, count_sharing, first_port, is_taken};
use crate::parts::{Afters, Befores, Counts, First, MOST};
use crate::ports::{PORTS, Ports};
use crate::sent::Sent;
use crate::table::Table;
use crate::{NatBook, NatEntry, NatStop};
use std::alloc::{AllocError, Global};
use std::marker::Model;
use vpc_base::{Header, NoMemory};
use vpc_model::NatNo;

/// As many translations as room was made for.
///
/// Only `reserve` takes memory, in proportion to the translations, whatever they go to. A look-up among n translations takes some
/// log n steps, and a step for each translation that was added after the latest `reserve`, whatever addresses
/// and ports they have.
pub struct GrowingNats {
    list: Vec<NatEntry>,
    afters: First<Afters>,
    befores: First<Befores>,
    ports: First<Ports>,
    counts: First<Counts>,
}

impl Drop for GrowingNats {
    fn drop(self) {
        let GrowingNats {
            list,
            afters,
            befores,
            ports,
            counts,
        } = self;
        drop(list);
        drop(afters);
        drop(befores);
        drop(ports);
        drop(counts);
    }
}

impl Model for GrowingNats {
    ghost use Rattle.std.specs.Prelude.{◌-◌, vec_capacity, vec_len};
    ghost use Rattle.nat_gateway.specs.Book.{Book};
    ghost use Rattle.nat_gateway.specs.Parts.{IsKept};

    ghost Value = { Book };

    ghost view = { λ g. record { entries = g.list.items; spare = vec_capacity g.list - vec_len g.list } };

    ghost invariant = { λ g. IsKept g.list.items g.afters.table g.afters.count g.befores.table
        g.befores.count g.ports.table g.ports.count g.counts.table g.counts.count };
}

impl GrowingNats {
    pub fn new(alloc: Global) -> GrowingNats
        ensures { result.entries ≡ [] }
    {
        GrowingNats {
            list: Vec::new(alloc),
            afters: First {
                table: Afters {
                    table: Table::new(alloc),
                },
                count: 0,
            },
            befores: First {
                table: Befores {
                    table: Table::new(alloc),
                },
                count: 0,
            },
            ports: First {
                table: Ports::new(alloc),
                count: 0,
            },
            counts: First {
                table: Counts {
                    table: Table::new(alloc),
                },
                count: 0,
            },
        }
    }

    /// Makes room for n more translations, and sorts those that were added since the latest call.
    pub fn reserve(&mut self, n: usize) -> Result<(), NoMemory>
        ensures entries { self.new.entries ≡ self.old.entries }
        ensures room { OnOk result (n ≤ self.new.spare) }
        ensures kept { self.old.spare ≤ self.new.spare }
    {
        learn(
            &mut self.afters,
            &mut self.befores,
            &mut self.ports,
            &mut self.counts,
            self.list.as_slice(),
        )?;
        self.list.reserve(n)?;
        Ok(())
    }

    // What the translated open was.
    fn made(&self, nat: NatNo, h: &Header) -> Option<Header>
        ensures { result ≡ option_map (λ t. t.before) (made_into self.now.entries nat h.now) }
    {
        let (_, later) = self.list.as_slice().split_at(self.befores.count);
        match self.befores.table.table.get(&Sent { nat, header: *h }) {
            Some(before) => Some(before),
            None => before_of(later, nat, h),
        }
    }

    fn first_free(&mut self, nat: NatNo, h: &Header, from: u32, end: u32) -> Option<u16>
        requires from { from ≤ end }
        requires most { end ≤ 65536 }
        ensures answer { result ≡ model.first_free (model.is_taken self.old.entries nat h.now)
            (end - from) from }
        ensures same { self.new ≡ self.old }
    {
        let (_, later) = self.list.as_slice().split_at(self.ports.count);
        first_free(&mut self.ports.table, later, nat, h, from, end)
    }
}

// Sorts the rest of the list too, until memory is refused.
fn learn(
    afters: &mut First<Afters>,
    befores: &mut First<Befores>,
    ports: &mut First<Ports>,
    counts: &mut First<Counts>,
    list: &[NatEntry],
) -> Result<(), AllocError>
    requires { IsKept list.now afters.old.table afters.old.count befores.old.table befores.old.count
        ports.old.table ports.old.count counts.old.table counts.old.count }
    ensures { IsKept list.now afters.new.table afters.new.count befores.new.table befores.new.count
        ports.new.table ports.new.count counts.new.table counts.new.count }
{
    afters.learn(list)?;
    befores.learn(list)?;
    ports.learn(list)?;
    counts.learn(list)
}

// The first port from this one on that isn't taken, before an end.
fn first_free(
    ports: &mut Ports,
    later: &[NatEntry],
    nat: NatNo,
    h: &Header,
    from: u32,
    end: u32,
) -> Option<u16>
    requires from { from ≤ end }
    requires most { end ≤ 65536 }
    ensures answer { result ≡ model.first_free (is_taken_beside ports.old later.now nat h.now)
        (end - from) from }
    ensures same { SameUsed ports.new ports.old }
{
    let flow = Sent::flow(nat, h);
    let mut port = from;
    while port < end {
        let free = ports.free_from(&flow, port);
        if free >= end {
            return None;
        }
        if !is_taken(later, nat, h, free) {
            return Some(free as u16);
        }
        port = free + 1;
    }
    None
}

impl Entries for GrowingNats {
    ghost entries = { λ s. s.entries };

    ghost spare = { λ s. s.spare };

    fn known(&self, nat: NatNo, h: &Header) -> Option<Header> {
        let (_, later) = self.list.as_slice().split_at(self.afters.count);
        match self.afters.table.table.get(&Sent { nat, header: *h }) {
            Some(after) => Some(after),
            None => after_of(later, nat, h),
        }
    }

    fn is_full(&self, nat: NatNo, h: &Header) -> bool {
        let (_, later) = self.list.as_slice().split_at(self.counts.count);
        let count = self
            .counts
            .table
            .table
            .get(&Sent::flow(nat, h))
            .unwrap_or(0);
        count_sharing(later, nat, h) >= MOST.saturating_sub(count) as usize
    }

    fn free_port(&mut self, nat: NatNo, h: &Header) -> u16 {
        let first = first_port(h.p);
        match self.first_free(nat, h, first, PORTS) {
            Some(port) => port,
            None => self.first_free(nat, h, 1024, first).unwrap_or(first as u16),
        }
    }

    fn append(&mut self, t: NatEntry) {
        match self.list.push(t) {
            Ok(()) => {}
            Err(_) => unreachable!(),
        }
    }
}

impl NatBook for GrowingNats {
    ghost entries = { λ s. s.entries };

    ghost spare = { λ s. s.spare };

    fn outward(&mut self, nat: NatNo, own: u32, h: &Header) -> Result<Header, NatStop> {
        send(self, nat, own, h)
    }

    fn inward(&self, nat: NatNo, h: &Header) -> Option<Header> {
        let _list = &self.list;
        match h.opening() {
            Some(after) => answer_to(self.made(nat, &after)),
            None => None,
        }
    }
}
