// NAT gateways of all headers of a box at once, in walks that start without translations.
ghost use Rattle.std.specs.Prelude.{◌≡◌, ◌==◌, ◌+◌, Contains, IfSome, List, ℕ};
ghost use Rattle.box_images.specs.Answers.{Answers};
ghost use Rattle.box_images.specs.Images.{IsImageOfAnswer, IsImageOfOpen, IsValidImage, header_at};
ghost use Rattle.cut_laws.specs.Dividing.{Divide};
ghost use Rattle.vpc_model.specs.Cuts.{fixed_cuts};
ghost use Rattle.vpc_model.specs.Nat.{is_translatable};
ghost use Rattle.vpc_model.specs.declared.numbers.NatNo.{NatNo};
ghost use Rattle.nat_gateway.specs.OnImages.{AreAnswerAndTranslated, FirstOpenIsSent, GivesInward, GivesSent};

use crate::entry::{ICMP, TCP, UDP};
use box_images::{Image, Part, Side};
use conn_tracking::{answers_on, reply_on};

/// An open gets the port that is tried first at a gateway that has translated nothing yet.
pub fn first_open_is_sent()
    ensures { FirstOpenIsSent }
{}

/// What an open becomes at a gateway that has translated nothing yet, and whose own private address
/// this is: none where it isn't TCP, UDP or ICMP (VPC User Guide, "NAT gateways").
pub fn outward_on(own: u32, i: &Image) -> Part<Option<Image>>
    requires valid { IsValidImage i.now }
    requires kinds { (addresses : List ℕ) × IsImageOfOpen addresses i.now }
    ensures answer { GivesSent own i.now result }
    ensures kind { (addresses : List ℕ) → Contains addresses own → IsImageOfOpen addresses i.now
        → IfSome result.told (IsImageOfOpen addresses) }
{
    let translatable = translatable_on(i);
    if !translatable.told {
        return Part {
            body: translatable.body,
            told: None,
        };
    }
    let shifted = i.within(&translatable.body).shift_p();
    Part {
        body: shifted.body,
        told: Some(shifted.told.set_src(own)),
    }
}

/// What an answer becomes at a gateway that has translated one open: the reply of the open as it was
/// before, where the header is the reply of what it became.
pub fn inward_on(before: &Image, after: &Image, i: &Image) -> Part<Option<Image>>
    requires valid { IsValidImage i.now }
    requires valid_before { IsValidImage before.now }
    requires valid_after { IsValidImage after.now }
    requires part_before { before.now.part ≡ i.now.part }
    requires part_after { after.now.part ≡ i.now.part }
    requires kinds { (addresses : List ℕ)
        × AreAnswerAndTranslated addresses i.now before.now after.now }
    ensures answer { (addresses : List ℕ) (n : NatNo)
        → AreAnswerAndTranslated addresses i.now before.now after.now
        → GivesInward addresses n before.now after.now i.now result }
    ensures kind { (addresses : List ℕ)
        → AreAnswerAndTranslated addresses i.now before.now after.now
        → IfSome result.told (IsImageOfAnswer addresses) }
{
    let answers = answers_on(i, after);
    if !answers.told {
        return Part {
            body: answers.body,
            told: None,
        };
    }
    reply_on(&before.within(&answers.body))
}

// Whether packets of the protocol go out. A protocol that does is told alone, and any other one up to
// the next that does.
fn translatable_on(i: &Image) -> Part<bool>
    requires valid { IsValidImage i.now }
    requires kinds { (addresses : List ℕ) × IsImageOfOpen addresses i.now }
    ensures { Answers (Divide fixed_cuts)
        (λ h. is_translatable (header_at i.now h).proto) i.now.part result }
{
    let icmp = protocol_on(i, ICMP);
    if icmp.told {
        return icmp;
    }
    let tcp = protocol_on(&i.within(&icmp.body), TCP);
    if tcp.told {
        return tcp;
    }
    protocol_on(&i.within(&tcp.body), UDP)
}

// Whether the protocol is this one, which every network cuts out.
fn protocol_on(i: &Image, n: u8) -> Part<bool>
    requires valid { IsValidImage i.now }
    requires kinds { (addresses : List ℕ) × IsImageOfOpen addresses i.now }
    requires cuts { Contains fixed_cuts.proto n × Contains fixed_cuts.proto (n + 1) }
    ensures { Answers (Divide fixed_cuts) (λ h. (header_at i.now h).proto == n) i.now.part result }
{
    i.narrow(Side::Proto, u32::from(n), u32::from(n))
}
