// The maps of a network's edges.
ghost use Rattle.std.specs.Prelude.{◌≡◌};

use crate::addresses::AddressMaps;
use crate::beyond::beyond_of;
use crate::blocks::{is_in, is_in_on};
use crate::peerings::{Carry, PeeringMaps};
use address_sets::AddressSet;
use box_images::{Image, Part, Side};
use reference_check::Network;
use std::alloc::Global;
use std::marker::Model;
use vpc_base::{Header, NoMemory};
use vpc_model::{FarNo, PeerNo, VpcNo};

/// The public addresses of a network, the blocks of its VPCs and of networks that aren't described, and the
/// sides of its peerings. Contracts see these lists, and `of` says what the description has in their place.
pub struct EdgeMaps {
    addresses: AddressMaps,
    peerings: PeeringMaps,
    beyond: Vec<AddressSet>,
}

impl Drop for EdgeMaps {
    fn drop(self) {
        let EdgeMaps {
            addresses,
            peerings,
            beyond,
        } = self;
        drop(addresses);
        drop(peerings);
        drop(beyond);
    }
}

impl Model for EdgeMaps {
    ghost use Rattle.edge_gateways.specs.Edges.{EdgeLists};

    ghost Value = { EdgeLists };

    ghost view = { λ m. record {
      publics = m.addresses.publics;
      owners = m.addresses.owners;
      blocks = m.peerings.blocks.items;
      sides = m.peerings.sides.items;
      beyond = m.beyond.items;
    } };
}

impl EdgeMaps {
    ghost use Rattle.std.specs.Prelude.{IfOk, IsTrue, is_some};
    ghost use Rattle.box_images.specs.Answers.{Answers};
    ghost use Rattle.box_images.specs.Images.{IsImageOfWalk, IsValidImage, header_at};
    ghost use Rattle.box_images.specs.Fields.{number_of};
    ghost use Rattle.cut_laws.specs.Dividing.{CutOut};
    ghost use Rattle.image_tests.specs.Tests.{IsAddressSide};
    ghost use Rattle.vpc_base.specs.Cuts.{AreAmong};
    ghost use Rattle.vpc_model.specs.Cuts.{standing_cuts};
    ghost use Rattle.vpc_model.specs.Far.{blocks_beyond, is_within};
    ghost use Rattle.vpc_model.specs.Lookup.{far_at};
    ghost use Rattle.vpc_model.specs.Peerings.{has_block};
    ghost use Rattle.vpc_model.specs.Sound.{is_far, is_vpc};
    ghost use Rattle.vpc_model.specs.declared.rows.Description.{Description};
    ghost use Rattle.edge_gateways.specs.Edges.{AreEdgesOf, carry, is_carrier, owner_in, public_in};
    ghost use Rattle.edge_gateways.specs.OnImages.{DivideSides};

    /// The maps of a network. It takes time n log n in its interfaces' addresses, in the blocks of its VPCs
    /// and of networks that aren't described, and in its peerings.
    pub fn of(alloc: Global, n: &Network) -> Result<EdgeMaps, NoMemory>
        ensures { IfOk result (AreEdgesOf n.now) }
    {
        let _ = n.description();
        let addresses = AddressMaps::of(alloc, n)?;
        let peerings = PeeringMaps::of(alloc, n)?;
        let beyond = beyond_of(alloc, n)?;
        Ok(EdgeMaps {
            addresses,
            peerings,
            beyond,
        })
    }

    /// The public address of a private one in a VPC (VPC User Guide, "Internet gateways"); none where it has
    /// none. It takes no memory.
    pub fn out_addr(&self, v: VpcNo, own: u32) -> Option<u32>
        ensures { result ≡ public_in self.now v own }
    {
        self.addresses.public(v, own)
    }

    /// The VPC of a public address, and the private address there; none where no interface has it. It takes
    /// no memory.
    pub fn in_addr(&self, public: u32) -> Option<(VpcNo, u32)>
        ensures { result ≡ owner_in self.now public }
    {
        self.addresses.owner(public)
    }

    /// Whether the peering is active between two described VPCs, of which the sender is one.
    pub fn is_carrier(&self, x: PeerNo, sender: VpcNo) -> bool
        ensures { result ≡ is_carrier self.now x sender }
    {
        self.peerings.is_carrier(x, sender)
    }

    /// Whether a peering carries a packet from the sending VPC to its other one (this project's profile). It
    /// takes no memory.
    pub fn carries(&self, x: PeerNo, sender: VpcNo, h: &Header) -> Carry
        requires { IsTrue (is_carrier self.now x sender) }
        ensures { result ≡ carry self.now x sender h.now }
    {
        self.peerings.carries(x, sender, h)
    }

    /// The public address of the source in a VPC, for all headers of an image (VPC User Guide, "Internet
    /// gateways"). A body has one address that has a public one, or the gap up to the next that has.
    pub fn out_addr_on(&self, v: VpcNo, i: &Image) -> Part<Option<u32>>
        requires valid { IsValidImage i.now }
        requires walk { IsImageOfWalk i.now }
        ensures { Answers (CutOut (λ own. is_some (public_in self.now v own)))
            (λ h. let carried = header_at i.now h in public_in self.now v carried.src)
            i.now.part result }
    {
        self.addresses.public_on(v, i)
    }

    /// The owner of the destination, for all headers of an image.
    pub fn in_addr_on(&self, i: &Image) -> Part<Option<(VpcNo, u32)>>
        requires valid { IsValidImage i.now }
        requires walk { IsImageOfWalk i.now }
        ensures { Answers (CutOut (λ public. is_some (owner_in self.now public)))
            (λ h. let carried = header_at i.now h in owner_in self.now carried.dst)
            i.now.part result }
    {
        self.addresses.owner_on(i)
    }

    /// Whether a block of the VPC holds the address.
    pub fn is_inside(&self, v: VpcNo, address: u32) -> bool
        ensures { (d : Description) → AreEdgesOf d self.now → IsTrue (is_vpc d v)
            → result ≡ has_block d v address }
    {
        self.peerings.has_address(v, address)
    }

    /// Whether a block of the VPC holds an address of the headers of an image.
    pub fn is_inside_on(&self, v: VpcNo, i: &Image, side: Side) -> Part<bool>
        requires valid { IsValidImage i.now }
        requires walk { IsImageOfWalk i.now }
        requires address { IsAddressSide side }
        ensures { (d : Description) → AreEdgesOf d self.now → IsTrue (is_vpc d v)
            → Answers (AreAmong (standing_cuts d))
            (λ h. has_block d v (number_of (header_at i.now h) side)) i.now.part result }
    {
        self.peerings.address_on(v, i, side)
    }

    /// Whether a block that is told of a network that isn't described holds the address.
    pub fn is_beyond(&self, k: FarNo, address: u32) -> bool
        ensures { (d : Description) → AreEdgesOf d self.now → IsTrue (is_far d k)
            → result ≡ is_within (blocks_beyond d (far_at d k)) address }
    {
        is_in(self.beyond.as_slice(), k.0, address)
    }

    /// Whether a block that is told of a network that isn't described holds an address of the headers of
    /// an image.
    pub fn is_beyond_on(&self, k: FarNo, i: &Image, side: Side) -> Part<bool>
        requires valid { IsValidImage i.now }
        requires walk { IsImageOfWalk i.now }
        requires address { IsAddressSide side }
        ensures { (d : Description) → AreEdgesOf d self.now → IsTrue (is_far d k)
            → Answers (AreAmong (standing_cuts d))
            (λ h. is_within (blocks_beyond d (far_at d k)) (number_of (header_at i.now h) side))
            i.now.part result }
    {
        is_in_on(self.beyond.as_slice(), k.0, i, side)
    }

    /// Whether a peering carries packets, for all headers of an image. The destination is asked where the
    /// source passes.
    pub fn carries_on(&self, x: PeerNo, sender: VpcNo, i: &Image) -> Part<Carry>
        requires carrier { IsTrue (is_carrier self.now x sender) }
        requires valid { IsValidImage i.now }
        requires walk { IsImageOfWalk i.now }
        ensures { Answers (DivideSides self.now.blocks self.now.sides x sender)
            (λ h. carry self.now x sender (header_at i.now h)) i.now.part result }
    {
        self.peerings.carries_on(x, sender, i)
    }
}
