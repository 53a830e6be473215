// From subnet to subnet, and to an interface: what has no place of its own.
ghost use Rattle.std.specs.Prelude.{◌≡◌, if◌then◌else◌, IsTrue};
ghost use Rattle.box_images.specs.Answers.{Answers};
ghost use Rattle.box_images.specs.Images.{IsImageOfWalk, IsValidImage, header_at};
ghost use Rattle.box_steps.specs.Cuts.{Standing};
ghost use Rattle.box_steps.specs.Onward.{onward_of};
ghost use Rattle.vpc_base.specs.declared.headers.Header.{Header};
ghost use Rattle.vpc_model.specs.Acls.{acl_verdict};
ghost use Rattle.vpc_model.specs.Choice.{or_else};
ghost use Rattle.vpc_model.specs.Lookup as rows;
ghost use Rattle.vpc_model.specs.Sound.{is_eni, is_subnet};
ghost use Rattle.vpc_model.specs.Step.Crossing as model;
ghost use Rattle.vpc_model.specs.Step.Words.{go, stop};
ghost use Rattle.vpc_model.specs.declared.places.Place.TheVariants as places;
ghost use Rattle.vpc_model.specs.declared.stops.Stop.TheVariants as stops;

use crate::onward::Onward;
use box_images::{Image, Part};
use fabric::Fabric;
use fabric::rows::interface_at;
use vpc_base::Dir;
use vpc_model::{EniNo, InterfaceKind, Place, Stop, SubnetNo};

// What the subnet's ACL says in a direction.
fn verdict_on(f: &Fabric, s: SubnetNo, dir: Dir, i: &Image) -> Part<(bool, u16)>
    requires subnet { IsTrue (is_subnet f.now s) }
    requires valid { IsValidImage i.now }
    requires walk { IsImageOfWalk i.now }
    ensures { let acl = rows.acl_at f.now (rows.acl_of f.now s) in Answers (Standing f.now)
        (λ h. acl_verdict acl.rows dir (header_at i.now h)) i.now.part result }
{
    let n = f.network();
    let _ = n.description();
    let a = n.acl_of(s);
    f.acl(a).decide_on(dir, i)
}

fn refused_out(f: &Fabric, s: SubnetNo, verdict: (bool, u16)) -> Option<Stop>
    requires { IsTrue (is_subnet f.now s) }
    ensures { result ≡ model.refused_out f.now s verdict }
{
    match verdict {
        (true, _) => None,
        (false, rule) => Some(Stop::AclOut(f.network().acl_of(s), rule)),
    }
}

fn refused_in(f: &Fabric, s: SubnetNo, verdict: (bool, u16)) -> Option<Stop>
    requires { IsTrue (is_subnet f.now s) }
    ensures { result ≡ model.refused_in f.now s verdict }
{
    match verdict {
        (true, _) => None,
        (false, rule) => Some(Stop::AclIn(f.network().acl_of(s), rule)),
    }
}

/// The stop of headers that leave the subnet, where its ACL refuses them (VPC User Guide, "Network
/// ACLs").
pub fn leaving_on(f: &Fabric, s: SubnetNo, i: &Image) -> Part<Option<Stop>>
    requires subnet { IsTrue (is_subnet f.now s) }
    requires valid { IsValidImage i.now }
    requires walk { IsImageOfWalk i.now }
    ensures { Answers (Standing f.now)
        (λ h. model.leaving f.now s (header_at i.now h)) i.now.part result }
{
    let verdict = verdict_on(f, s, Dir::Outward, i);
    Part {
        body: verdict.body,
        told: refused_out(f, s, verdict.told),
    }
}

/// The stop of headers that enter the subnet, where its ACL refuses them (VPC User Guide, "Network ACLs").
pub fn entering_on(f: &Fabric, s: SubnetNo, i: &Image) -> Part<Option<Stop>>
    requires subnet { IsTrue (is_subnet f.now s) }
    requires valid { IsValidImage i.now }
    requires walk { IsImageOfWalk i.now }
    ensures { Answers (Standing f.now)
        (λ h. model.entering f.now s (header_at i.now h)) i.now.part result }
{
    let verdict = verdict_on(f, s, Dir::Inward, i);
    Part {
        body: verdict.body,
        told: refused_in(f, s, verdict.told),
    }
}

/// The stop of headers that leave one subnet and enter another. Both ACLs are evaluated, even if the
/// two subnets are one.
pub fn between_on(f: &Fabric, s: SubnetNo, t: SubnetNo, i: &Image) -> Part<Option<Stop>>
    requires from { IsTrue (is_subnet f.now s) }
    requires to { IsTrue (is_subnet f.now t) }
    requires valid { IsValidImage i.now }
    requires walk { IsImageOfWalk i.now }
    ensures { Answers (Standing f.now) (λ h. let k = header_at i.now h in
        or_else (model.leaving f.now s k) (model.entering f.now t k)) i.now.part result }
{
    let first = leaving_on(f, s, i);
    match first.told {
        Some(_) => first,
        None => entering_on(f, t, &i.within(&first.body)),
    }
}

/// The stop of headers that go from one subnet to another; inside one subnet no ACL is evaluated.
pub fn crossing_on(f: &Fabric, s: SubnetNo, t: SubnetNo, i: &Image) -> Part<Option<Stop>>
    requires from { IsTrue (is_subnet f.now s) }
    requires to { IsTrue (is_subnet f.now t) }
    requires valid { IsValidImage i.now }
    requires walk { IsImageOfWalk i.now }
    ensures { Answers (Standing f.now)
        (λ h. model.crossing f.now s t (header_at i.now h)) i.now.part result }
{
    if s.0 == t.0 {
        return Part {
            body: i.part,
            told: None,
        };
    }
    between_on(f, s, t, i)
}

/// Into an interface, unless it belongs to a gateway and so hosts nothing.
pub fn into_host(f: &Fabric, e: EniNo) -> Onward
    requires { IsTrue (is_eni f.now e) }
    ensures { (h : Header) → let row = rows.interface_at f.now e in
        onward_of (if model.is_gateway row.kind then stop (stops.NotAHost e) else go (places.Into e) h)
        ≡ result }
{
    match interface_at(f, e).kind {
        InterfaceKind::Host => Onward::Go(Place::Into(e)),
        InterfaceKind::Gateway => Onward::Stop(Stop::NotAHost(e)),
    }
}

/// Headers are delivered to an interface, or to the NAT gateway whose interface it is. All of them
/// come to the same place.
pub fn deliver_to(f: &Fabric, e: EniNo) -> Onward
    requires { IsTrue (is_eni f.now e) }
    ensures { (h : Header) → onward_of (model.deliver f.now e h) ≡ result }
{
    match f.nat_of(e) {
        Some(n) => Onward::Go(Place::NatIn(n)),
        None => into_host(f, e),
    }
}
