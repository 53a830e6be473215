// Translations of a single request.
ghost use Rattle.std.specs.Prelude.{◌≡◌, ◌≤◌, ◌-◌, [], option_map, unwrap_or};
ghost use Rattle.vpc_model.specs.Nat as model;

use crate::book::{Entries, send};
use crate::entry::{after_of, answer_to, before_of, count_sharing, first_port, is_taken};
use crate::parts::MOST;
use crate::ports::PORTS;
use crate::{NatBook, NatEntry, NatStop};
use arrayvec::ArrayVec;
use std::marker::Model;
use vpc_base::Header;
use vpc_model::NatNo;

/// Up to 128 translations, without memory: a walk of 64 places and the walk of its answer add no more.
#[derive(Drop)]
pub struct SmallNats {
    entries: ArrayVec<NatEntry, 128>,
}

impl Model for SmallNats {
    ghost use Rattle.std.specs.Prelude.{◌-◌, length};
    ghost use Rattle.nat_gateway.specs.Book.{Book};
    ghost use Rattle.vpc_laws.specs.Translations.{IsBook};

    ghost Value = { Book };

    ghost view = { λ s. record { entries = s.entries.items; spare = 128 - length s.entries.items } };

    ghost invariant = { λ s. IsBook s.entries.items };
}

impl SmallNats {
    pub fn new() -> SmallNats
        ensures { result ≡ record { entries = []; spare = 128 } }
    {
        SmallNats {
            entries: ArrayVec::new(),
        }
    }
}

// The first port from this one on that isn't taken, before an end.
fn first_free(entries: &[NatEntry], nat: NatNo, h: &Header, from: u32, end: u32) -> Option<u16>
    requires most { end ≤ 65536 }
    ensures { result ≡ model.first_free (model.is_taken entries.now nat h.now) (end - from) from }
{
    for port in from..end {
        if !is_taken(entries, nat, h, port) {
            return Some(port as u16);
        }
    }
    None
}

impl Entries for SmallNats {
    ghost entries = { λ s. s.entries };

    ghost spare = { λ s. s.spare };

    fn known(&self, nat: NatNo, h: &Header) -> Option<Header> {
        after_of(self.entries.as_slice(), nat, h)
    }

    fn is_full(&self, nat: NatNo, h: &Header) -> bool {
        count_sharing(self.entries.as_slice(), nat, h) >= MOST as usize
    }

    fn free_port(&mut self, nat: NatNo, h: &Header) -> u16 {
        let entries = self.entries.as_slice();
        let first = first_port(h.p);
        match first_free(entries, nat, h, first, PORTS) {
            Some(port) => port,
            None => first_free(entries, nat, h, 1024, first).unwrap_or(first as u16),
        }
    }

    fn append(&mut self, t: NatEntry) {
        self.entries.push(t);
    }
}

impl NatBook for SmallNats {
    ghost entries = { λ s. s.entries };

    ghost spare = { λ s. s.spare };

    fn outward(&mut self, nat: NatNo, own: u32, h: &Header) -> Result<Header, NatStop> {
        send(self, nat, own, h)
    }

    fn inward(&self, nat: NatNo, h: &Header) -> Option<Header> {
        match h.opening() {
            Some(after) => answer_to(before_of(self.entries.as_slice(), nat, &after)),
            None => None,
        }
    }
}
