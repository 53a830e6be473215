// Connections of a single request.
ghost use Rattle.std.specs.Prelude.{◌≡◌, []};

use crate::entry::{is_among, opposite};
use crate::{Entry, Tracker};
use arrayvec::ArrayVec;
use std::marker::Model;
use vpc_base::{Dir, Header};
use vpc_model::EniNo;

/// Up to 128 connections, without memory: a walk of 64 places and the walk of its answer add no more.
#[derive(Drop)]
pub struct SmallConns {
    entries: ArrayVec<Entry, 128>,
}

impl Model for SmallConns {
    ghost use Rattle.std.specs.Prelude.{◌-◌, length};
    ghost use Rattle.conn_tracking.specs.Tracked.{Tracked};

    ghost Value = { Tracked };

    ghost view = { λ s. record { conns = s.entries.items; spare = 128 - length s.entries.items } };
}

impl SmallConns {
    pub fn new() -> SmallConns
        ensures { result ≡ record { conns = []; spare = 128 } }
    {
        SmallConns {
            entries: ArrayVec::new(),
        }
    }
}

impl Tracker for SmallConns {
    ghost conns = { λ s. s.conns };

    ghost spare = { λ s. s.spare };

    fn tracked(&self, eni: EniNo, dir: Dir, h: &Header) -> bool {
        match h.opening() {
            Some(header) => {
                let dir = opposite(dir);
                is_among(self.entries.as_slice(), &Entry { eni, dir, header })
            }
            None => false,
        }
    }

    fn add(&mut self, e: Entry) {
        if !is_among(self.entries.as_slice(), &e) {
            self.entries.push(e);
        }
    }
}
