// Which interfaces have the addresses of all headers.
ghost use Rattle.std.specs.Prelude.{◌==◌, ◌≡◌, IsTrue};
ghost use Rattle.std.specs.List.{list_any};
ghost use Rattle.box_images.specs.Answers.{Answers};
ghost use Rattle.box_images.specs.Fields.{number_of};
ghost use Rattle.box_images.specs.Images.{IsImageOfWalk, IsValidImage, header_at};
ghost use Rattle.box_steps.specs.Cuts.{Standing};
ghost use Rattle.box_steps.specs.Hosts.{DivideAddress, DivideBlocks, DivideOwn, own_address};
ghost use Rattle.image_tests.specs.Tests.{IsAddressSide};
ghost use Rattle.prefix_text.specs.Block.{holds};
ghost use Rattle.vpc_base.specs.declared.headers.Header.{Header};
ghost use Rattle.vpc_laws.specs.Hosts.{delegated_host};
ghost use Rattle.vpc_model.specs.Lookup as model;
ghost use Rattle.vpc_model.specs.Sound.{is_eni, is_vpc};

use box_images::{Image, Part, Side};
use fabric::Fabric;
use fabric::rows::interface_at;
use image_tests::{block_on, entry_on, low_on, up_to};
use prefix_text::Prefix;
use vpc_base::Dir;
use vpc_model::{EniNo, VpcNo};

// To which interface of a VPC the source or the destination is delegated. A body lies in one delegated block, or between two.
fn delegated_on(f: &Fabric, v: VpcNo, side: Side, i: &Image) -> Part<Option<EniNo>>
    requires vpc { IsTrue (is_vpc f.now v) }
    requires valid { IsValidImage i.now }
    requires walk { IsImageOfWalk i.now }
    requires address { IsAddressSide side }
    ensures { Answers (Standing f.now)
        (λ h. delegated_host f.now v (number_of (header_at i.now h) side)) i.now.part result }
{
    let low = low_on(i, side);
    let (last, told) = f.network().delegated(v, low);
    Part {
        body: up_to(i, side, low, last),
        told,
    }
}

// The interface of a VPC that has the source or the destination. Blocks are asked where it is assigned to none.
fn found_on(f: &Fabric, v: VpcNo, side: Side, i: &Image) -> Part<Option<EniNo>>
    requires vpc { IsTrue (is_vpc f.now v) }
    requires valid { IsValidImage i.now }
    requires walk { IsImageOfWalk i.now }
    requires address { IsAddressSide side }
    ensures { Answers (Standing f.now)
        (λ h. model.host_of f.now v (number_of (header_at i.now h) side)) i.now.part result }
{
    // That the network is accepted is a clause of this call.
    let _ = f.network().description();
    let assigned = entry_on(i, side, f.hosts(), v.0);
    match assigned.told {
        Some(_) => assigned,
        None => delegated_on(f, v, side, &i.within(&assigned.body)),
    }
}

/// The interface of a VPC that has the destination (EC2 API, DescribeNetworkInterfaces). A body has
/// one address that is assigned to an interface of the VPC, or the gap up to the next that is, as far as
/// it lies in one delegated block or in none.
pub fn host_on(f: &Fabric, v: VpcNo, i: &Image) -> Part<Option<EniNo>>
    requires vpc { IsTrue (is_vpc f.now v) }
    requires valid { IsValidImage i.now }
    requires walk { IsImageOfWalk i.now }
    ensures { Answers (Standing f.now)
        (λ h. model.host_of f.now v (header_at i.now h).dst) i.now.part result }
{
    found_on(f, v, Side::Dst, i)
}

/// The interface of a VPC that has the source, likewise.
pub fn sender_on(f: &Fabric, v: VpcNo, i: &Image) -> Part<Option<EniNo>>
    requires vpc { IsTrue (is_vpc f.now v) }
    requires valid { IsValidImage i.now }
    requires walk { IsImageOfWalk i.now }
    ensures { Answers (Standing f.now)
        (λ h. model.host_of f.now v (header_at i.now h).src) i.now.part result }
{
    found_on(f, v, Side::Src, i)
}

// The side of an interface's own address.
fn own_side(dir: Dir) -> Side
    ensures own { (h : Header) → number_of h result ≡ own_address dir h }
    ensures address { IsAddressSide result }
{
    match dir {
        Dir::Outward => Side::Src,
        Dir::Inward => Side::Dst,
    }
}

// Whether the source or the destination is the address.
fn address_on(own: u32, side: Side, i: &Image) -> Part<bool>
    requires valid { IsValidImage i.now }
    requires walk { IsImageOfWalk i.now }
    requires address { IsAddressSide side }
    ensures { Answers (DivideAddress own)
        (λ h. own == number_of (header_at i.now h) side) i.now.part result }
{
    i.narrow(side, own, own)
}

// Whether it is one of the addresses. They are asked one after the other.
fn addresses_on(addresses: &[(u32, Option<u32>)], side: Side, i: &Image) -> Part<bool>
    requires valid { IsValidImage i.now }
    requires walk { IsImageOfWalk i.now }
    requires address { IsAddressSide side }
    ensures { Answers (DivideOwn addresses.now)
        (λ h. list_any (λ x. x.0 == number_of (header_at i.now h) side) addresses.now)
        i.now.part result }
{
    let mut rest = *i;
    for own in addresses {
        let has = address_on(own.0, side, &rest);
        if has.told {
            return Part {
                body: has.body,
                told: true,
            };
        }
        rest = rest.within(&has.body);
    }
    Part {
        body: rest.part,
        told: false,
    }
}

// Whether one of the blocks holds it. They are asked one after the other.
fn blocks_on(blocks: &[Prefix], side: Side, i: &Image) -> Part<bool>
    requires valid { IsValidImage i.now }
    requires walk { IsImageOfWalk i.now }
    requires address { IsAddressSide side }
    ensures { Answers (DivideBlocks blocks.now)
        (λ h. list_any (holds (number_of (header_at i.now h) side)) blocks.now) i.now.part result }
{
    let mut rest = *i;
    for block in blocks {
        let has = block_on(&rest, side, block);
        if has.told {
            return Part {
                body: has.body,
                told: true,
            };
        }
        rest = rest.within(&has.body);
    }
    Part {
        body: rest.part,
        told: false,
    }
}

/// Whether the source of outbound packets, or the destination of inbound ones, is a private address of the
/// interface, assigned or in a block that is delegated to it (EC2 API, SourceDestCheck). No other
/// interface's addresses divide the body.
pub fn own_on(f: &Fabric, e: EniNo, dir: Dir, i: &Image) -> Part<bool>
    requires eni { IsTrue (is_eni f.now e) }
    requires valid { IsValidImage i.now }
    requires walk { IsImageOfWalk i.now }
    ensures { let row = model.interface_at f.now e in Answers (Standing f.now)
        (λ h. model.has_address row (own_address dir (header_at i.now h))) i.now.part result }
{
    let row = interface_at(f, e);
    let side = own_side(dir);
    let assigned = addresses_on(row.addresses.as_slice(), side, i);
    if assigned.told {
        return assigned;
    }
    blocks_on(row.prefixes.as_slice(), side, &i.within(&assigned.body))
}
