// Packets one after another.
ghost use Rattle.std.specs.Prelude.{◌≡◌, ◌<◌, ◌^◌, [], IfOk, IsTrue, OnErr, OnOk};
ghost use Rattle.replay_laws.specs.Interleaved.{PortsAreApart};
ghost use Rattle.vpc_laws.specs.Sound.{EndsWell};
ghost use Rattle.vpc_model.specs.Place.{start_of};
ghost use Rattle.vpc_model.specs.Replay.{moment_of};
ghost use Rattle.vpc_model.specs.Sound.{is_sound};
ghost use Rattle.vpc_model.specs.Walk.{walk_of};

use crate::walks::{Hops, walk};
use appliances::Deciders;
use conn_tracking::GrowingConns;
use fabric::Fabric;
use nat_gateway::GrowingNats;
use std::alloc::Global;
use std::marker::Model;
use vpc_base::NoMemory;
use vpc_model::{Event, Outcome, start_place};

// A walk has at most 64 places, and adds at most one entry at each.
const MOST_ADDED: usize = 64;

// Says what the type says of a number that is behind a reference.
fn fits(p: u16)
    ensures { p < 2 ^ 16 }
{
    let _ = p;
}

/// What the network remembers between packets that come one after another.
pub struct Session {
    conns: GrowingConns,
    nats: GrowingNats,
    // Those of the latest walk. They stand here so that no packet makes room for 64 of them anew.
    hops: Hops,
}

impl Drop for Session {
    fn drop(self) {
        let Session { conns, nats, hops } = self;
        drop(conns);
        drop(nats);
        drop(hops);
    }
}

impl Model for Session {
    ghost use Rattle.packet_emulator.specs.Session.{Remembered};
    ghost use Rattle.vpc_laws.specs.Translations.{IsBook};

    ghost Value = { Remembered };

    ghost view = { λ s. record { conns = s.conns.conns; nats = s.nats.entries } };

    ghost invariant = { λ s. IsBook s.nats.entries };
}

impl Session {
    /// A network that no packet has met yet.
    pub fn new(alloc: Global) -> Session
        ensures { result ≡ record { conns = []; nats = [] } }
    {
        Session {
            conns: GrowingConns::new(alloc),
            nats: GrowingNats::new(alloc),
            hops: Hops::new(),
        }
    }

    /// How the walk of the next packet ends. What it leaves is remembered, also where it is stopped; a refusal
    /// of memory comes before the walk and leaves all as it was.
    pub fn forward(
        &mut self,
        f: &Fabric,
        deciders: &Deciders,
        e: &Event,
    ) -> Result<Outcome, NoMemory>
        requires start { IsTrue (is_sound f.now (start_of e.now.start)) }
        ensures outcome { let w = walk_of f.now deciders.now.appliances e.now.label
            (moment_of e.now self.old.conns self.old.nats) in IfOk result (λ o. o ≡ w.outcome) }
        ensures conns { let w = walk_of f.now deciders.now.appliances e.now.label
            (moment_of e.now self.old.conns self.old.nats) in OnOk result (self.new.conns ≡ w.conns) }
        ensures nats { let w = walk_of f.now deciders.now.appliances e.now.label
            (moment_of e.now self.old.conns self.old.nats) in OnOk result (self.new.nats ≡ w.nats) }
        ensures kept { OnErr result (self.new ≡ self.old) }
        ensures ports { PortsAreApart self.new.nats }
        ensures told { IfOk result (λ o. EndsWell f.now o) }
    {
        self.conns.reserve(MOST_ADDED)?;
        self.nats.reserve(MOST_ADDED)?;
        let Event {
            label,
            start,
            header,
        } = *e;
        fits(header.p);
        self.hops.clear();
        let place = start_place(&start);
        let outcome = walk(
            f,
            deciders,
            place,
            label,
            header,
            &mut self.conns,
            &mut self.nats,
            &mut self.hops,
        );
        // That the network is accepted is a clause of this call.
        let _ = f.network().description();
        Ok(outcome)
    }
}
