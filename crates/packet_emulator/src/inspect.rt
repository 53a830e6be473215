// Through a firewall endpoint.
ghost use Rattle.std.specs.Prelude.{◌≡◌, if◌then◌else◌, IsTrue};
ghost use Rattle.packet_emulator.specs.Comes.{comes};
ghost use Rattle.vpc_model.specs.Appliances.{passes};
ghost use Rattle.vpc_model.specs.Firewalls.{boxes_behind};
ghost use Rattle.vpc_model.specs.Sound.{is_sound};
ghost use Rattle.vpc_model.specs.Step.Inspect.{firewall_subnet};
ghost use Rattle.vpc_model.specs.Step.Words.{go, stop};
ghost use Rattle.vpc_model.specs.declared.places.Came.TheVariants as from;
ghost use Rattle.vpc_model.specs.declared.places.Place.TheVariants as places;
ghost use Rattle.vpc_model.specs.declared.stops.Stop.TheVariants as stops;

use crate::next::Next;
use fabric::Fabric;
use header_boxes::Box5;
use vpc_base::Header;
use vpc_model::{Came, FirewallNo, Place, Stop};

// Whether one of the boxes has the header.
fn passes(boxes: &[Box5], h: &Header) -> bool
    ensures { result ≡ passes boxes.now h.now }
{
    boxes.iter().any(|b| b.holds(h))
}

/// On to the router of the endpoint's subnet, if the firewall sends the packet on (Gateway Load Balancers guide,
/// "Gateway Load Balancer endpoints").
pub fn inspect(f: &Fabric, e: FirewallNo, h: &Header) -> Next
    requires { IsTrue (is_sound f.now (places.Inspect e)) }
    ensures { comes result ≡ (if passes (boxes_behind f.now e) h.now
        then go (places.Router (firewall_subnet f.now e) (from.Firewall e)) h.now else stop (stops.InspectDrop e)) }
{
    if passes(f.boxes_behind(e), h) {
        Next::Go(Place::Router(f.firewall_subnet(e), Came::Firewall(e)), *h)
    } else {
        Next::Stop(Stop::InspectDrop(e))
    }
}
