// The index of all transit gateways.
ghost use Rattle.std.specs.Prelude.{◌≡◌, ◌≤◌, ◌<◌, ◌+◌, ◌-◌, ◌*◌, ◌^◌, ℕ, List, length};
ghost use Rattle.transit_gateway.specs.Index.{entered_in};

use crate::associations::Associated;
use crate::gateways::Gateways;
use crate::tables::all_pieces;
use crate::zones::Zones;
use box_images::{Image, Part};
use image_tests::piece_on;
use piece_table::{Pieces, Steps};
use reference_check::Network;
use std::alloc::Global;
use std::marker::Model;
use std::sync::ledger::Ledger;
use vpc_base::NoMemory;
use vpc_model::{AttNo, FarNo, SubnetNo, TgwTableNo};

/// Why a packet doesn't come into a transit gateway.
#[derive(Clone, Copy, Debug, PartialEq, Eq)]
pub enum EnterStop {
    /// The gateway has no attachment to the VPC.
    NoAttachment,
    /// The attachment has no subnet in the zone.
    NoZone(AttNo),
}

/// What is asked of the transit gateways of a network, as tables. Contracts see their lists, and `of` says
/// what the description has in their place.
pub struct TransitIndex {
    gateways: Gateways,
    zones: Zones,
    associated: Associated,
    routes: Vec<Pieces>,
}

impl Drop for TransitIndex {
    fn drop(self) {
        let TransitIndex {
            gateways,
            zones,
            associated,
            routes,
        } = self;
        drop(gateways);
        drop(zones);
        drop(associated);
        drop(routes);
    }
}

impl Model for TransitIndex {
    ghost use Rattle.transit_gateway.specs.Gateways.{AreShort};
    ghost use Rattle.transit_gateway.specs.Lists.{TransitLists};

    ghost Value = { TransitLists };

    ghost view = { λ x. record {
      gateways = x.gateways.numbers;
      attachments = x.gateways.attachments;
      sites = x.zones.sites.items;
      subnets = x.zones.subnets;
      firsts = x.zones.firsts.items;
      tables = x.associated.tables.items;
      behind = x.associated.behind.items;
      routes = x.routes.items;
    } };

    ghost invariant = { λ x. AreShort x.gateways.numbers };
}

impl TransitIndex {
    ghost use Rattle.std.specs.Prelude.{IfOk, IsTrue};
    ghost use Rattle.vpc_model.specs.declared.rows.Description.{Description};
    ghost use Rattle.box_images.specs.Answers.{Answers};
    ghost use Rattle.box_images.specs.Images.{IsImageOfWalk, IsValidImage, header_at};
    ghost use Rattle.cut_laws.specs.Dividing.{Divide};
    ghost use Rattle.vpc_model.specs.Cuts.{cuts_of_tgw_table};
    ghost use Rattle.vpc_model.specs.Lookup.{far_at, tgw_table_at};
    ghost use Rattle.vpc_model.specs.Transit.{chosen_tgw_route, leave_subnet, table_of_attachment};
    ghost use Rattle.transit_gateway.specs.Index.{HasAttachment, HasFar, HasSubnet, HasTable, IsTransitOf};
    ghost use Rattle.transit_gateway.specs.Index.{entered, routes_of};
    ghost use Rattle.transit_gateway.specs.Tables.{table_behind};

    /// The index of a network. Takes time n log n in the number of rows. Fails for want of memory alone.
    pub fn of(alloc: Global, n: &Network) -> Result<TransitIndex, NoMemory>
        ensures { IfOk result (IsTransitOf n.now) }
    {
        let d = n.description();
        let gateways = Gateways::of(alloc, n)?;
        let zones = Zones::of(alloc, n)?;
        let associated = Associated::of(alloc, n)?;
        let routes = all_pieces(alloc, d.tgw_tables.as_slice())?;
        Ok(TransitIndex {
            gateways,
            zones,
            associated,
            routes,
        })
    }

    // By the lists of the index.
    fn entered(&self, gateway: &[u8], s: SubnetNo) -> Result<(AttNo, SubnetNo), EnterStop>
        requires { HasSubnet self.now s }
        ensures { result ≡ entered_in self.now gateway.now s }
    {
        let site = self.zones.sites[s.0 as usize];
        let Some(a) = self.gateways.attachment(gateway, site.vpc) else {
            return Err(EnterStop::NoAttachment);
        };
        match self.zones.subnet(a, s) {
            Some(t) => Ok((a, t)),
            None => Err(EnterStop::NoZone(a)),
        }
    }

    /// By which attachment a packet comes into a gateway from a subnet, and into which of the attachment's
    /// subnets. The first attachment of the gateway to the subnet's VPC decides, also where only a later one
    /// has a subnet in the zone.
    pub fn enter(&self, gateway: &[u8], s: SubnetNo) -> Result<(AttNo, SubnetNo), EnterStop>
        requires subnet { HasSubnet self.now s }
        ensures { (d : Description) → IsTransitOf d self.now → result ≡ entered d gateway.now s }
    {
        self.entered(gateway, s)
    }

    /// The described table that an attachment is associated with.
    pub fn table_of(&self, a: AttNo) -> Option<TgwTableNo>
        requires attachment { HasAttachment self.now a }
        ensures { (d : Description) → IsTransitOf d self.now → result ≡ table_of_attachment d a }
    {
        self.associated.tables[a.0 as usize]
    }

    /// The described table of the attachment that leads to a network that isn't described.
    pub fn table_behind(&self, k: FarNo) -> Option<TgwTableNo>
        requires network { HasFar self.now k }
        ensures { (d : Description) → IsTransitOf d self.now → result ≡ table_behind d (far_at d k) }
    {
        self.associated.behind[k.0 as usize]
    }

    /// The number of the route that a table chooses for a destination, by a search that reads at most
    /// 2 + log2(2m + 1) pieces of a table with m routes.
    pub fn choose<L: Ledger>(&self, t: TgwTableNo, dst: u32, steps: &mut Steps<L>) -> Option<u32>
        requires table { HasTable self.now t }
        ensures chosen { (d : Description) → IsTransitOf d self.now
            → result ≡ chosen_tgw_route (routes_of d t) dst }
        ensures later { steps.old ≤ steps.new }
        ensures few { (d : Description) → IsTransitOf d self.now
            → 2 ^ (steps.new - steps.old) ≤ 8 * length (routes_of d t) + 4 }
    {
        let (_, _, told) = self.routes[t.0 as usize].find(dst, steps);
        told
    }

    /// The number of the route that a table chooses for the destinations of an image's headers, for those of
    /// them that go to the same piece as the low corner.
    pub fn choose_on<L: Ledger>(
        &self,
        t: TgwTableNo,
        i: &Image,
        steps: &mut Steps<L>,
    ) -> Part<Option<u32>>
        requires table { HasTable self.now t }
        requires valid { IsValidImage i.now }
        requires walk { IsImageOfWalk i.now }
        ensures answer { (d : Description) → IsTransitOf d self.now
            → Answers (Divide (cuts_of_tgw_table (tgw_table_at d t)))
            (λ h. chosen_tgw_route (routes_of d t) (header_at i.now h).dst) i.now.part result }
        ensures later { steps.old ≤ steps.new }
        ensures few { (d : Description) → IsTransitOf d self.now
            → 2 ^ (steps.new - steps.old) ≤ 8 * length (routes_of d t) + 4 }
    {
        piece_on(i, &self.routes[t.0 as usize], steps)
    }

    /// By which of an attachment's subnets a packet leaves that came into the gateway in this subnet: the
    /// first one in its zone, else the first one; none where the attachment's VPC isn't described or it has
    /// no subnet.
    pub fn leave(&self, a: AttNo, entered: SubnetNo) -> Option<SubnetNo>
        requires attachment { HasAttachment self.now a }
        requires subnet { HasSubnet self.now entered }
        ensures { (d : Description) → IsTransitOf d self.now → result ≡ leave_subnet d a entered }
    {
        self.zones.leave(a, entered)
    }
}
