// Which TCP ports of one interface another one reaches.
ghost use Rattle.std.specs.Prelude.{◌≡◌, ◌≤◌, IfOk, IsTrue};
ghost use Rattle.vpc_model.specs.Appliances.{appliances_of};
ghost use Rattle.vpc_model.specs.Sound.{is_eni};
ghost use Rattle.reach_matrix.specs.Pairs.{IsAddressed, address_of, has_primary, requests_between};
ghost use Rattle.reach_matrix.specs.Ranges.{ArePairRanges};

use appliances::Deciders;
use box_walk::{RoundProbe, ThroughProbe};
use fabric::Fabric;
use fabric::rows::interface_at;
use header_boxes::Box5;
use ordered_cover::ports::open_ports;
use std::alloc::Global;
use vpc_base::NoMemory;
use vpc_model::{End, EniNo};

const TCP: u8 = 6;

/// Whether an interface has a primary private address.
pub(crate) fn has_primary(f: &Fabric, eni: EniNo) -> bool
    requires { IsTrue (is_eni f.now eni) }
    ensures { result ≡ has_primary f.now eni }
{
    interface_at(f, eni).primary.is_some()
}

fn address_of(f: &Fabric, eni: EniNo) -> u32
    requires { IsTrue (is_eni f.now eni) }
    ensures { result ≡ address_of f.now eni }
{
    interface_at(f, eni).primary.unwrap_or(0)
}

fn requests_between(src: u32, dst: u32, ports: (u16, u16)) -> Box5
    ensures { result ≡ requests_between src dst ports }
{
    Box5 {
        proto: (TCP, TCP),
        src: (src, src),
        dst: (dst, dst),
        p: (0, u16::MAX),
        q: ports,
    }
}

/// The ranges of ports by which a pair is reached, by a probe of the network that is turned to the pair: one moment
/// serves all pairs.
pub(crate) fn reach_by(
    alloc: Global,
    f: &Fabric,
    round: &mut RoundProbe,
    from: EniNo,
    to: EniNo,
    ports: (u16, u16),
) -> Result<Vec<(u16, u16)>, NoMemory>
    requires network { round.old.fabric.now ≡ f.now }
    requires from { IsAddressed f.now from }
    requires to { IsAddressed f.now to }
    requires ports { ports.0 ≤ ports.1 }
    ensures ranges { IfOk result (λ v. ArePairRanges f.now ports (from, to) v.items) }
    ensures network { round.new.fabric.now ≡ f.now }
{
    round.turn(End::Interface(from), End::Interface(to));
    let sides = requests_between(address_of(f, from), address_of(f, to), ports);
    round.look_ahead(&sides);
    open_ports(alloc, &ThroughProbe::of(round), sides)
}

/// A probe of the network, which is still to be turned to a pair.
pub(crate) fn probe_of<'a>(f: &'a Fabric, deciders: &'a Deciders) -> RoundProbe<'a>
    requires { deciders.now.appliances ≡ appliances_of f.now }
    ensures { result.fabric.now ≡ f.now }
{
    RoundProbe::of(f, deciders, End::Internet, End::Internet)
}

/// The TCP ports of one interface, of those in a range, that another one reaches from its primary private address and
/// some port: such a request gets to the other's primary private address, and its reply back. Fails for want of
/// memory alone.
pub fn reach(
    alloc: Global,
    f: &Fabric,
    deciders: &Deciders,
    from: EniNo,
    to: EniNo,
    ports: (u16, u16),
) -> Result<Vec<(u16, u16)>, NoMemory>
    requires appliances { deciders.now.appliances ≡ appliances_of f.now }
    requires from { IsAddressed f.now from }
    requires to { IsAddressed f.now to }
    requires ports { ports.0 ≤ ports.1 }
    ensures { IfOk result (λ v. ArePairRanges f.now ports (from, to) v.items) }
{
    reach_by(alloc, f, &mut probe_of(f, deciders), from, to, ports)
}
