// Through a firewall endpoint.
ghost use Rattle.std.specs.Prelude.{if◌then◌else◌, IsTrue};
ghost use Rattle.box_images.specs.Answers.{Answers};
ghost use Rattle.box_images.specs.Images.{IsImageOfWalk, IsValidImage, header_at};
ghost use Rattle.box_steps.specs.Cuts.{Standing};
ghost use Rattle.box_steps.specs.Onward.{onward_of};
ghost use Rattle.vpc_model.specs.Appliances.{passes};
ghost use Rattle.vpc_model.specs.Firewalls.{boxes_behind};
ghost use Rattle.vpc_model.specs.Sound.{is_sound};
ghost use Rattle.vpc_model.specs.Step.Inspect.{firewall_subnet};
ghost use Rattle.vpc_model.specs.Step.Words.{go, stop};
ghost use Rattle.vpc_model.specs.declared.places.Came.TheVariants as from;
ghost use Rattle.vpc_model.specs.declared.places.Place.TheVariants as places;
ghost use Rattle.vpc_model.specs.declared.stops.Stop.TheVariants as stops;

use crate::onward::{Onward, onward_if};
use appliances::passes_on;
use box_images::{Image, Part};
use fabric::Fabric;
use vpc_model::{Came, FirewallNo, Place, Stop};

/// On to the router of the endpoint's subnet, if the firewall sends the packets on (Gateway Load Balancers guide,
/// "Gateway Load Balancer endpoints").
pub fn inspect_on(f: &Fabric, e: FirewallNo, i: &Image) -> Part<Onward>
    requires firewall { IsTrue (is_sound f.now (places.Inspect e)) }
    requires valid { IsValidImage i.now }
    requires walk { IsImageOfWalk i.now }
    ensures { let boxes = boxes_behind f.now e in let next = places.Router (firewall_subnet f.now e) (from.Firewall e) in
        Answers (Standing f.now) (λ h. let k = header_at i.now h in
        onward_of (if passes boxes k then go next k else stop (stops.InspectDrop e))) i.now.part result }
{
    let passed = passes_on(f.boxes_behind(e), i);
    let next = Place::Router(f.firewall_subnet(e), Came::Firewall(e));
    onward_if(&passed, Onward::Go(next), Stop::InspectDrop(e))
}
