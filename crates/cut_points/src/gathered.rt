// Cuts while they are gathered.
ghost use Rattle.std.specs.Prelude.{◌≡◌, ◌+◌, ◌-◌, ◌∷◌, ◌++◌, ◌||◌, [], nat_le, filter, map, OnOk};
ghost use Rattle.vpc_base.specs.Cuts.{no_cuts};
ghost use Rattle.vpc_model.specs.Cuts.{cuts_of_blocks, cuts_of_rule, edges, proto_cuts, shifted_edges};
ghost use Rattle.cut_points.specs.Dividing.{divides, dividing};
ghost use Rattle.cut_points.specs.Gathered.{gathered_with, translated_to, up_to};

use header_boxes::Box5;
use std::alloc::{AllocError, Global};
use std::marker::Model;

const LAST_PROTOCOL: u32 = 255;

const LAST_PORT: u32 = 65535;

// The first port that a NAT gateway translates to (this project's profile).
const FIRST_NAT_PORT: u64 = 1024;

// How far below a source port the port may have been that a NAT gateway translated to it.
const NAT_SHIFT: u64 = 1024;

// An ICMP echo request on the side q: 256 times its type, 8 (RFC 792).
const ECHO_REQUEST: u64 = 2048;

/// Cuts in the order in which rows give them, with repeats. Numbers past a side's last one are dropped.
#[derive(Drop)]
pub struct Gathered {
    pub proto: Vec<u32>,
    pub addr: Vec<u32>,
    pub p: Vec<u32>,
    pub q: Vec<u32>,
}

impl Model for Gathered {
    ghost use Rattle.vpc_base.specs.Cuts.{CutLists};

    ghost Value = { CutLists };

    ghost view = { λ c. record { proto = c.proto.items; addr = c.addr.items; p = c.p.items; q = c.q.items } };
}

// Adds a number unless it is past the side's last one.
fn push_within(side: &mut Vec<u32>, n: u64, last: u32) -> Result<(), AllocError>
    ensures { OnOk result (side.new.items ≡ side.old.items ++ up_to last (n ∷ [])) }
{
    if n <= u64::from(last) {
        side.push(n as u32)?;
    }
    Ok(())
}

// Adds two numbers, such as those at which a range begins and has ended.
fn push_both(side: &mut Vec<u32>, first: u64, second: u64, last: u32) -> Result<(), AllocError>
    ensures { OnOk result (side.new.items ≡ side.old.items ++ up_to last (first ∷ second ∷ [])) }
{
    push_within(side, first, last)?;
    push_within(side, second, last)
}

// Adds the source port that a NAT gateway may have translated to this one.
fn push_shifted(side: &mut Vec<u32>, port: u64, last: u32) -> Result<(), AllocError>
    ensures { OnOk result (side.new.items ≡ side.old.items ++ up_to last (translated_to (port ∷ []))) }
{
    if port >= NAT_SHIFT {
        push_within(side, port - NAT_SHIFT, last)?;
    }
    Ok(())
}

// Adds a rule's edges, and the source ports that a NAT gateway may have translated to them.
fn push_edges(side: &mut Vec<u32>, from: u64, past: u64, last: u32) -> Result<(), AllocError>
    ensures { OnOk result (side.new.items ≡ side.old.items ++ up_to last (shifted_edges (from ∷ past ∷ []))) }
{
    push_both(side, from, past, last)?;
    push_shifted(side, from, last)?;
    push_shifted(side, past, last)
}

// Adds the edges of two ranges.
fn push_ranges(side: &mut Vec<u32>, a: (u16, u16), b: (u16, u16)) -> Result<(), AllocError>
    ensures { OnOk result (side.new.items ≡ side.old.items ++ up_to 65535 (edges a.0 a.1 ++ edges b.0 b.1)) }
{
    push_both(side, u64::from(a.0), u64::from(a.1) + 1, LAST_PORT)?;
    push_both(side, u64::from(b.0), u64::from(b.1) + 1, LAST_PORT)
}

// Adds the source ports that a NAT gateway may have translated to the edges of a range.
fn push_shifted_range(side: &mut Vec<u32>, range: (u16, u16)) -> Result<(), AllocError>
    ensures { OnOk result (side.new.items
        ≡ side.old.items ++ up_to 65535 (translated_to (edges range.0 range.1))) }
{
    push_shifted(side, u64::from(range.0), LAST_PORT)?;
    push_shifted(side, u64::from(range.1) + 1, LAST_PORT)
}

// Adds the edges of two ranges, and the source ports that a NAT gateway may have translated to them.
#[tactic(auto, using(crate::proofs::Additions::two_ranges))]
fn push_shifted_ranges(side: &mut Vec<u32>, a: (u16, u16), b: (u16, u16)) -> Result<(), AllocError>
    ensures { OnOk result (side.new.items
        ≡ side.old.items ++ up_to 65535 (shifted_edges (edges a.0 a.1 ++ edges b.0 b.1))) }
{
    push_ranges(side, a, b)?;
    push_shifted_range(side, a)?;
    push_shifted_range(side, b)
}

// Whether a cut divides a range: the range has a number below the cut, and one that is not below it.
fn is_divided(range: (u32, u32), cut: u32) -> bool
    ensures { result ≡ divides range cut }
{
    range.0 < cut && cut <= range.1
}

// Keeps the cuts that divide a range.
fn keep_dividing(cuts: &mut Vec<u32>, range: (u32, u32))
    ensures { cuts.new.items ≡ filter (divides range) cuts.old.items }
{
    cuts.retain(|cut| is_divided(range, *cut));
}

// Keeps the cuts that divide one of two ranges.
fn keep_dividing_either(cuts: &mut Vec<u32>, a: (u32, u32), b: (u32, u32))
    ensures { cuts.new.items ≡ filter (λ c. divides a c || divides b c) cuts.old.items }
{
    cuts.retain(|cut| is_divided(a, *cut) || is_divided(b, *cut));
}

// Keeps the cuts that divide a range of protocols.
fn keep_dividing8(cuts: &mut Vec<u32>, range: (u8, u8))
    ensures { cuts.new.items ≡ filter (divides range) cuts.old.items }
{
    keep_dividing(cuts, (u32::from(range.0), u32::from(range.1)));
}

// Keeps the cuts that divide a range of ports.
fn keep_dividing16(cuts: &mut Vec<u32>, range: (u16, u16))
    ensures { cuts.new.items ≡ filter (divides range) cuts.old.items }
{
    keep_dividing(cuts, (u32::from(range.0), u32::from(range.1)));
}

impl Gathered {
    /// No cuts.
    pub fn new(alloc: Global) -> Gathered
        ensures { result ≡ no_cuts }
    {
        Gathered {
            proto: Vec::new(alloc),
            addr: Vec::new(alloc),
            p: Vec::new(alloc),
            q: Vec::new(alloc),
        }
    }

    /// Adds the addresses at which a range begins and where it has ended.
    #[tactic(auto, using(crate::proofs::Additions::untouched_sides), unfolding(crate::specs::Gathered::gathered_with))]
    pub fn add_addresses(&mut self, first: u32, past: u64) -> Result<(), AllocError>
        ensures { OnOk result (self.new ≡ gathered_with self.old (cuts_of_blocks (first ∷ past ∷ []))) }
    {
        push_both(&mut self.addr, u64::from(first), past, u32::MAX)
    }

    /// Cuts a protocol out on both sides.
    #[tactic(auto, using(crate::proofs::Additions::untouched_sides), unfolding(crate::specs::Gathered::gathered_with))]
    pub fn add_protocol(&mut self, n: u8) -> Result<(), AllocError>
        ensures { OnOk result (self.new ≡ gathered_with self.old
            (record no_cuts { proto = n ∷ (n + 1) ∷ [] })) }
    {
        let first = u64::from(n);
        push_both(&mut self.proto, first, first + 1, LAST_PROTOCOL)
    }

    /// Adds the edges of a range of protocols.
    #[tactic(auto, using(crate::proofs::Additions::untouched_sides), unfolding(crate::specs::Gathered::gathered_with))]
    pub fn add_protocols(&mut self, range: (u8, u8)) -> Result<(), AllocError>
        ensures { OnOk result (self.new ≡ gathered_with self.old
            (record no_cuts { proto = edges range.0 range.1 })) }
    {
        let first = u64::from(range.0);
        let past = u64::from(range.1) + 1;
        push_both(&mut self.proto, first, past, LAST_PROTOCOL)
    }

    /// Adds the edges of a range of addresses.
    pub fn add_address_range(&mut self, range: (u32, u32)) -> Result<(), AllocError>
        ensures { OnOk result (self.new ≡ gathered_with self.old (cuts_of_blocks (edges range.0 range.1))) }
    {
        self.add_addresses(range.0, u64::from(range.1) + 1)
    }

    /// Adds the edges of ranges of p and of q to both sides, and to p those from which a NAT gateway may
    /// have translated.
    #[tactic(auto, using(crate::proofs::Additions::untouched_sides), unfolding(crate::specs::Gathered::gathered_with))]
    pub fn add_ranges(&mut self, p: (u16, u16), q: (u16, u16)) -> Result<(), AllocError>
        ensures { OnOk result (self.new ≡ gathered_with self.old (record no_cuts {
          p = shifted_edges
              (edges p.0 p.1 ++ edges q.0 q.1);
          q = edges p.0 p.1 ++ edges q.0 q.1;
        })) }
    {
        push_shifted_ranges(&mut self.p, p, q)?;
        push_ranges(&mut self.q, p, q)
    }

    /// Adds the edges of a rule's range of q, and those from which a NAT gateway may have translated.
    #[tactic(auto, using(crate::proofs::Additions::untouched_sides), unfolding(crate::specs::Gathered::gathered_with))]
    pub fn add_range(&mut self, from: u16, to: u16) -> Result<(), AllocError>
        ensures { OnOk result (self.new ≡ gathered_with self.old
            (record no_cuts { p = shifted_edges (edges from to); q = edges from to })) }
    {
        let first = u64::from(from);
        let past = u64::from(to) + 1;
        push_edges(&mut self.p, first, past, LAST_PORT)?;
        push_both(&mut self.q, first, past, LAST_PORT)
    }

    /// Adds what a rule's protocol and range give.
    #[tactic(auto, using(crate::proofs::Additions::additions))]
    pub fn add_rule(&mut self, proto: Option<u8>, from: u16, to: u16) -> Result<(), AllocError>
        ensures { OnOk result (self.new ≡ gathered_with self.old (cuts_of_rule proto from to [])) }
    {
        if let Some(n) = proto {
            self.add_protocol(n)?;
        }
        self.add_range(from, to)
    }

    /// Adds the cuts of every network's source ports and of the ICMP echo request.
    #[tactic(auto, using(crate::proofs::Additions::untouched_sides), unfolding(crate::specs::Gathered::gathered_with))]
    pub fn add_known_ports(&mut self) -> Result<(), AllocError>
        ensures { OnOk result (self.new ≡ gathered_with self.old
            (record no_cuts { p = 1024 ∷ []; q = 2048 ∷ 2049 ∷ [] })) }
    {
        push_within(&mut self.p, FIRST_NAT_PORT, LAST_PORT)?;
        push_both(&mut self.q, ECHO_REQUEST, ECHO_REQUEST + 1, LAST_PORT)
    }

    /// Keeps the cuts that divide a side of the box, of addresses those that divide its sources or its
    /// destinations.
    pub fn keep_dividing_sides(&mut self, b: &Box5)
        ensures { self.new ≡ dividing self.old b.now }
    {
        keep_dividing8(&mut self.proto, b.proto);
        keep_dividing_either(&mut self.addr, b.src, b.dst);
        keep_dividing16(&mut self.p, b.p);
        keep_dividing16(&mut self.q, b.q);
    }
}
