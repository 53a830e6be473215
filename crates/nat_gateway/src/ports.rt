// Which ports are taken, and the first one after them.
ghost use Rattle.std.specs.Prelude.{◌≡◌, ◌≤◌, ◌<◌, ◌+◌, [], false, if◌then◌else◌, OnErr, OnOk, Some};
ghost use Rattle.nat_gateway.specs.Tables.{AllUsed, AreRuns, SameUsed, is_used, value_at};
ghost use Rattle.nat_gateway.specs.Sent.{same_sent, with_port};

use crate::sent::Sent;
use crate::table::Table;
use std::alloc::{AllocError, Global};
use std::marker::Model;

/// The number of ports. Each is smaller.
pub(crate) const PORTS: u32 = 65536;

/// Taken ports of each gateway, protocol, destination and q. Beside a port stands a later one, up to which all
/// are taken, so a search jumps over whole runs. What it finds is written beside each port that it came by: then
/// n searches and additions take some n log n steps, also where many opens ask for the same ports.
pub(crate) struct Ports {
    table: Table<u32>,
}

impl Drop for Ports {
    fn drop(self) {
        let Ports { table } = self;
        drop(table);
    }
}

impl Model for Ports {
    ghost use Rattle.std.specs.Prelude.{List, ℕ};
    ghost use Rattle.nat_gateway.specs.declared.sent.Sent.{Sent};
    ghost use Rattle.nat_gateway.specs.Tables.{AreRuns};

    ghost Value = { List (Sent × ℕ) };

    ghost view = { λ p. p.table };

    ghost invariant = { λ p. AreRuns p.table };
}

impl Ports {
    ghost use Rattle.nat_gateway.specs.declared.sent.Sent.{Sent};

    pub fn new(alloc: Global) -> Ports
        ensures { result ≡ [] }
    {
        Ports {
            table: Table::new(alloc),
        }
    }

    /// Takes the port of a key.
    pub fn take(&mut self, key: Sent) -> Result<(), AllocError>
        requires { key.header.p < 65536 }
        ensures taken { OnOk result ((k : Sent)
            → value_at self.new k
            ≡ (if same_sent key k then Some (key.header.p + 1) else value_at self.old k)) }
        ensures err { OnErr result (self.new ≡ self.old) }
    {
        self.table.put(key, u32::from(key.header.p) + 1)
    }

    /// The first port from this one on that isn't taken, 65,536 where all are.
    pub fn free_from(&mut self, flow: &Sent, port: u32) -> u32
        requires { port ≤ 65536 }
        ensures from { port ≤ result }
        ensures most { result ≤ 65536 }
        ensures taken { AllUsed self.old flow.now port result }
        ensures free { result < 65536 → is_used self.old flow.now result ≡ false }
        ensures same { SameUsed self.new self.old }
    {
        let end = self.run_end(flow, port);
        self.shorten(flow, port, end);
        end
    }

    fn run_end(&self, flow: &Sent, port: u32) -> u32
        requires { port ≤ 65536 }
        ensures from { port ≤ result }
        ensures most { result ≤ 65536 }
        ensures taken { AllUsed self.now flow.now port result }
        ensures free { result < 65536 → is_used self.now flow.now result ≡ false }
    {
        let mut end = port;
        while end < PORTS {
            match self.table.get(&flow.with_port(end as u16)) {
                Some(later) => end = later,
                None => return end,
            }
        }
        end
    }

    // Writes the end beside each port that the search came by.
    fn shorten(&mut self, flow: &Sent, port: u32, end: u32)
        requires from { port ≤ end }
        requires most { end ≤ 65536 }
        requires taken { AllUsed self.old flow.now port end }
        ensures { SameUsed self.new self.old }
    {
        let mut port = port;
        while port < end {
            port = self.jump(flow, port, end);
        }
    }

    // The next port that the search came by.
    fn jump(&mut self, flow: &Sent, port: u32, end: u32) -> u32
        requires from { port < end }
        requires most { end ≤ 65536 }
        requires taken { AllUsed self.old flow.now port end }
        ensures later { port < result }
        ensures most { result ≤ end }
        ensures same { SameUsed self.new self.old }
    {
        let key = flow.with_port(port as u16);
        let later = self.table.get(&key).unwrap_or(end);
        if later >= end {
            return end;
        }
        // A key that is there takes no memory.
        match self.table.put(key, end) {
            Ok(()) => later,
            Err(_) => end,
        }
    }
}
