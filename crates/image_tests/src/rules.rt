// What rules of ACLs and groups ask.
ghost use Rattle.std.specs.Prelude.{[], ◌≡◌, nat_le, ℕ};
ghost use Rattle.box_images.specs.Answers.{Answers};
ghost use Rattle.box_images.specs.Fields.{number_of};
ghost use Rattle.box_images.specs.Images.{IsImageOfWalk, IsValidImage, header_at};
ghost use Rattle.cut_laws.specs.Dividing.{Divide};
ghost use Rattle.prefix_text.specs.Block.{holds};
ghost use Rattle.vpc_base.specs.declared.headers.Header.{Header};
ghost use Rattle.vpc_model.specs.Cuts.{cuts_of_rule};
ghost use Rattle.vpc_model.specs.Filter.{far_address, is_between, matches_proto};
ghost use Rattle.image_tests.specs.Tests.{IsAddressSide, TellsSide, cuts_of_block, cuts_of_proto, cuts_of_range, fits_rule};

use box_images::{Image, Part, Side};
use prefix_text::Prefix;
use vpc_base::Dir;

/// Whether the protocol is a rule's; none stands for all protocols.
pub fn proto_on(i: &Image, proto: Option<u8>) -> Part<bool>
    requires valid { IsValidImage i.now }
    requires walk { IsImageOfWalk i.now }
    ensures { Answers (Divide (cuts_of_proto proto))
        (λ h. matches_proto proto (header_at i.now h).proto) i.now.part result }
{
    match proto {
        None => Part {
            body: i.part,
            told: true,
        },
        Some(n) => side_on(i, Side::Proto, u32::from(n), u32::from(n)),
    }
}

/// Whether the number on a side lies between the two, which it doesn't where the first is greater.
pub fn side_on(i: &Image, side: Side, from: u32, to: u32) -> Part<bool>
    requires { IsValidImage i.now }
    ensures { TellsSide i.now side from to result }
{
    if from > to {
        return Part {
            body: i.part,
            told: false,
        };
    }
    i.narrow(side, from, to)
}

/// Whether q lies in a rule's range of ports. A reversed range has none.
pub fn range_on(i: &Image, from: u16, to: u16) -> Part<bool>
    requires valid { IsValidImage i.now }
    requires walk { IsImageOfWalk i.now }
    ensures { Answers (Divide (cuts_of_range from to))
        (λ h. is_between from to (header_at i.now h).q) i.now.part result }
{
    side_on(i, Side::Q, u32::from(from), u32::from(to))
}

/// Whether q has come to the first port of a rule.
pub fn begins_on(i: &Image, from: u16) -> Part<bool>
    requires valid { IsValidImage i.now }
    requires walk { IsImageOfWalk i.now }
    ensures { (to : ℕ) → Answers (Divide (cuts_of_range from to))
        (λ h. nat_le from (header_at i.now h).q) i.now.part result }
{
    side_on(i, Side::Q, u32::from(from), 65535)
}

/// Whether a block holds the source or the destination.
pub fn block_on(i: &Image, side: Side, block: &Prefix) -> Part<bool>
    requires valid { IsValidImage i.now }
    requires walk { IsImageOfWalk i.now }
    requires address { IsAddressSide side }
    ensures { Answers (Divide (cuts_of_block block.now))
        (λ h. holds (number_of (header_at i.now h) side) block.now) i.now.part result }
{
    side_on(i, side, block.first(), block.last())
}

/// The side of the far address: the source of inbound packets, the destination of outbound ones.
pub fn far_side(dir: Dir) -> Side
    ensures far { (h : Header) → number_of h result ≡ far_address dir h }
    ensures address { IsAddressSide result }
{
    match dir {
        Dir::Inward => Side::Src,
        Dir::Outward => Side::Dst,
    }
}

/// Whether protocol and range of a rule fit. The range is asked where the protocol fits.
pub fn rule_on(i: &Image, proto: Option<u8>, from: u16, to: u16) -> Part<bool>
    requires valid { IsValidImage i.now }
    requires walk { IsImageOfWalk i.now }
    ensures { Answers (Divide (cuts_of_rule proto from to []))
        (λ h. fits_rule proto from to (header_at i.now h)) i.now.part result }
{
    let fits = proto_on(i, proto);
    if !fits.told {
        return fits;
    }
    range_on(&i.within(&fits.body), from, to)
}
