// What leads to networks that aren't described and to firewalls, and by what tables packets come in.
ghost use Rattle.std.specs.Prelude.{◌≡◌, IfSome, IsTrue};
ghost use Rattle.vpc_model.specs.Far as model;
ghost use Rattle.vpc_model.specs.Firewalls.{boxes_behind, entrance_table, firewall_of, is_firewall_in};
ghost use Rattle.vpc_model.specs.Lookup.{far_at};
ghost use Rattle.vpc_model.specs.Sound.{is_entry, is_far, is_firewall, is_sound, is_subnet, is_table};
ghost use Rattle.vpc_model.specs.Sound.{is_tgw_table, is_vpc};
ghost use Rattle.vpc_model.specs.Step.Inspect.{firewall_subnet};
ghost use Rattle.vpc_model.specs.declared.places.EnterBy.TheVariants as through;
ghost use Rattle.vpc_model.specs.declared.places.Place.TheVariants as places;
ghost use Rattle.fabric.specs.Outside.{network_table};

use crate::Fabric;
use header_boxes::Box5;
use vpc_model::{EnterBy, FarNo, FirewallNo, Id, SubnetNo, TableNo, TgwTableNo, VpcNo};

impl Fabric {
    /// The described table of the attachment that leads to a network.
    pub fn table_behind(&self, k: FarNo) -> Option<TgwTableNo>
        requires { IsTrue (is_far self.now k) }
        ensures number { let row = far_at self.now k in
            result ≡ model.table_of_attachment_id self.now row.id }
        ensures within { IfSome result (λ t. IsTrue (is_tgw_table self.now t)) }
    {
        self.transit().table_behind(k)
    }

    // The route table of the internet gateway of a VPC.
    fn gateway_table(&self, v: VpcNo) -> Option<TableNo>
        requires { IsTrue (is_vpc self.now v) }
        ensures { result ≡ entrance_table self.now v through.Gateway }
    {
        let g = self.network().gateway_of(v)?;
        self.outside().gateway_table(g)
    }

    // The route table of the virtual private gateway that leads to a network.
    fn network_table(&self, k: FarNo) -> Option<TableNo>
        requires { IsTrue (is_far self.now k) }
        ensures { result ≡ network_table self.now (far_at self.now k) }
    {
        self.outside().network_table(k)
    }

    /// The route table of the gateway by which packets enter a VPC, if it has one.
    pub fn entrance_table(&self, v: VpcNo, by: EnterBy) -> Option<TableNo>
        requires vpc { IsTrue (is_vpc self.now v) }
        requires entry { IsTrue (is_entry self.now by) }
        ensures number { result ≡ entrance_table self.now v by }
        ensures within { IfSome result (λ t. IsTrue (is_table self.now t)) }
    {
        match by {
            EnterBy::Gateway => self.gateway_table(v),
            EnterBy::Peering(_) => None,
            EnterBy::Far(k) => self.network_table(k),
        }
    }

    // Whether a firewall endpoint is in the VPC, and it is told what stands behind it.
    fn is_firewall_in(&self, v: VpcNo, e: FirewallNo) -> bool
        requires vpc { IsTrue (is_vpc self.now v) }
        requires firewall { IsTrue (is_firewall self.now e) }
        ensures { result ≡ is_firewall_in self.now v e }
    {
        let own = self.network().vpc_at(v).id.bytes();
        self.network().firewall_at(e).vpc.bytes() == own && self.outside().is_told(e)
    }

    /// The firewall endpoint of a VPC with this id, where it is told what stands behind it.
    pub fn firewall_of(&self, v: VpcNo, id: &Id) -> Option<FirewallNo>
        requires { IsTrue (is_vpc self.now v) }
        ensures number { result ≡ firewall_of self.now v id.now }
        ensures within { IfSome result (λ e. IsTrue (is_sound self.now (places.Inspect e))) }
    {
        let e = self.network().firewall(id.bytes())?;
        if self.is_firewall_in(v, e) {
            Some(e)
        } else {
            None
        }
    }

    /// The subnet of a firewall endpoint.
    pub fn firewall_subnet(&self, e: FirewallNo) -> SubnetNo
        requires { IsTrue (is_sound self.now (places.Inspect e)) }
        ensures number { result ≡ firewall_subnet self.now e }
        ensures within { IsTrue (is_subnet self.now result) }
    {
        let n = self.network();
        let _ = n.description();
        n.subnet_named(&n.firewall_at(e).subnet)
    }

    /// The boxes of the headers that the firewall behind an endpoint sends on.
    pub fn boxes_behind(&self, e: FirewallNo) -> &[Box5]
        requires { IsTrue (is_firewall self.now e) }
        ensures { result.now ≡ boxes_behind self.now e }
    {
        self.outside().boxes(e)
    }
}
