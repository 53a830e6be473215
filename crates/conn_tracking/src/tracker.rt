// What a walk asks of tracked connections.
ghost use Rattle.std.specs.Prelude.{◌≡◌, ◌≤◌, ◌<◌, ◌+◌, List, ℕ};

use crate::Entry;
use vpc_base::{Dir, Header};
use vpc_model::EniNo;

/// A list of the connections that passed security groups, in the order in which they were added, and how
/// many more it takes without memory (EC2 User Guide, "Security group connection tracking").
pub trait Tracker {
    ghost use Rattle.vpc_model.specs.Connections.{Connection, added, is_tracked};

    ghost conns: { Self → List Connection };

    ghost spare: { Self → ℕ };

    /// Whether the header answers a connection that passed the interface the other way.
    fn tracked(&self, eni: EniNo, dir: Dir, h: &Header) -> bool
        ensures { result ≡ is_tracked (conns self.now) eni dir h.now };

    /// Adds a connection at the end, unless it is there.
    fn add(&mut self, e: Entry)
        requires { 0 < spare self.old }
        ensures conns { conns self.new ≡ added (conns self.old) e }
        ensures spare { spare self.old ≤ spare self.new + 1 };
}
