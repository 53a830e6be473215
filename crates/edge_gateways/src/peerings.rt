// What peerings carry.
ghost use Rattle.std.specs.Prelude.{◌≡◌, IfOk, IsTrue, None, slice_index_or};
ghost use Rattle.box_images.specs.Answers.{Answers};
ghost use Rattle.box_images.specs.Fields.{number_of};
ghost use Rattle.box_images.specs.Images.{IsImageOfWalk, IsValidImage, header_at};
ghost use Rattle.cut_laws.specs.Dividing.{DivideTurns};
ghost use Rattle.image_tests.specs.Tests.{IsAddressSide};
ghost use Rattle.edge_gateways.specs.Carry.{carried};
ghost use Rattle.edge_gateways.specs.OnImages.{DivideSides};
ghost use Rattle.edge_gateways.specs.Sides.{HasPeeringsOf, has_address, is_one_of, other_of};

use crate::blocks::{blocks_of, is_in, is_in_on};
use crate::sides::{Sides, all_sides};
use address_sets::AddressSet;
use box_images::{Image, Part, Side};
use reference_check::Network;
use std::alloc::{AllocError, Global};
use vpc_base::Header;
use vpc_model::{PeerNo, VpcNo};

/// Whether a peering carries a packet.
#[derive(Clone, Copy, Debug, PartialEq, Eq)]
pub enum Carry {
    Yes,
    /// No block of the sending VPC holds the source.
    BadSource,
    /// No block of the other VPC holds the destination.
    BadDestination,
}

/// The addresses of each VPC's blocks, and the sides of each peering.
pub struct PeeringMaps {
    pub blocks: Vec<AddressSet>,
    pub sides: Vec<Option<Sides>>,
}

impl Drop for PeeringMaps {
    fn drop(self) {
        let PeeringMaps { blocks, sides } = self;
        drop(blocks);
        drop(sides);
    }
}

fn is_one_of(sides: Option<Sides>, v: VpcNo) -> bool
    ensures { result ≡ is_one_of v sides }
{
    match sides {
        Some(sides) => sides.one.0 == v.0 || sides.other.0 == v.0,
        None => false,
    }
}

// The side that isn't the sender, or the sender of a peering that joins it with itself.
fn other_of(sides: Option<Sides>, sender: VpcNo) -> VpcNo
    requires { IsTrue (is_one_of sender sides) }
    ensures { result ≡ other_of sender sides }
{
    match sides {
        Some(sides) => {
            if sides.one.0 == sender.0 {
                sides.other
            } else {
                sides.one
            }
        }
        None => unreachable!(),
    }
}

impl PeeringMaps {
    pub fn of(alloc: Global, n: &Network) -> Result<PeeringMaps, AllocError>
        ensures { IfOk result (λ m. HasPeeringsOf n.now m.blocks.items m.sides.items) }
    {
        let d = n.description();
        let vpcs = d.vpcs.as_slice();
        let blocks = blocks_of(alloc, vpcs)?;
        let sides = all_sides(alloc, n)?;
        Ok(PeeringMaps { blocks, sides })
    }

    /// Whether a block of the VPC holds the address.
    pub fn has_address(&self, v: VpcNo, a: u32) -> bool
        ensures { result ≡ has_address self.now.blocks.items v a }
    {
        is_in(self.blocks.as_slice(), v.0, a)
    }

    fn sides_of(&self, x: PeerNo) -> Option<Sides>
        ensures { result ≡ slice_index_or self.now.sides.items x.0 None }
    {
        let x = x.0 as usize;
        if x < self.sides.len() {
            self.sides[x]
        } else {
            None
        }
    }

    pub fn is_carrier(&self, x: PeerNo, sender: VpcNo) -> bool
        ensures { result ≡ is_one_of sender (slice_index_or self.now.sides.items x.0 None) }
    {
        is_one_of(self.sides_of(x), sender)
    }

    pub fn carries(&self, x: PeerNo, sender: VpcNo, h: &Header) -> Carry
        requires { IsTrue (is_one_of sender (slice_index_or self.now.sides.items x.0 None)) }
        ensures { result ≡ carried self.now.blocks.items self.now.sides.items x sender h.now }
    {
        let receiver = other_of(self.sides_of(x), sender);
        if !self.has_address(sender, h.src) {
            return Carry::BadSource;
        }
        if !self.has_address(receiver, h.dst) {
            return Carry::BadDestination;
        }
        Carry::Yes
    }

    /// Whether a block of the VPC holds the source or the destination.
    pub fn address_on(&self, v: VpcNo, i: &Image, side: Side) -> Part<bool>
        requires valid { IsValidImage i.now }
        requires walk { IsImageOfWalk i.now }
        requires address { IsAddressSide side }
        ensures { Answers (DivideTurns (has_address self.now.blocks.items v))
            (λ h. has_address self.now.blocks.items v (number_of (header_at i.now h) side))
            i.now.part result }
    {
        is_in_on(self.blocks.as_slice(), v.0, i, side)
    }

    pub fn carries_on(&self, x: PeerNo, sender: VpcNo, i: &Image) -> Part<Carry>
        requires side { IsTrue (is_one_of sender (slice_index_or self.now.sides.items x.0 None)) }
        requires valid { IsValidImage i.now }
        requires walk { IsImageOfWalk i.now }
        ensures { Answers (DivideSides self.now.blocks.items self.now.sides.items x sender)
            (λ h. carried self.now.blocks.items self.now.sides.items x sender (header_at i.now h))
            i.now.part result }
    {
        let receiver = other_of(self.sides_of(x), sender);
        let source = self.address_on(sender, i, Side::Src);
        if !source.told {
            return Part {
                body: source.body,
                told: Carry::BadSource,
            };
        }
        let rest = i.within(&source.body);
        let destination = self.address_on(receiver, &rest, Side::Dst);
        Part {
            body: destination.body,
            told: if destination.told {
                Carry::Yes
            } else {
                Carry::BadDestination
            },
        }
    }
}
