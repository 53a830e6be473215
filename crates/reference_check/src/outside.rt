// Networks that aren't described, and firewall endpoints.
ghost use Rattle.std.specs.Prelude.{◌≡◌, ◌<◌, ◌^◌, IfSome, IsTrue, List, Some, bytes_eq, length, position, ℕ};
ghost use Rattle.vpc_model.specs.Far as model;
ghost use Rattle.vpc_model.specs.Firewalls.{firewall_of_id};
ghost use Rattle.vpc_model.specs.Lookup.{has_vpc, peer_no};
ghost use Rattle.vpc_model.specs.Sound.{is_end, is_far, is_firewall, is_vpc};
ghost use Rattle.vpc_model.specs.declared.places.End.TheVariants as ends;
ghost use Rattle.reference_check.specs.FirstNumbers.{number_in};
ghost use Rattle.reference_check.specs.Outside.{is_half_known, vpc_of_peering};

use crate::Network;
use crate::directory::Kind;
use crate::first_numbers::{FirstNumbers, Naming};
use vpc_model::{Far, FarKind, FarNo, FirewallNo, Id, PeerNo, VpcNo};

// The number of the first row that names an id.
fn first_of<R: Naming>(rows: &[R], numbers: &FirstNumbers, id: &[u8]) -> Option<u32>
    requires numbered { (x : List ℕ) → number_in numbers.now x
        ≡ position (λ r. bytes_eq (R.name_of r) x) rows.now }
    requires counted { length rows.now < 2 ^ 32 }
    ensures number { result ≡ position (λ r. bytes_eq (R.name_of r) id.now) rows.now }
    ensures within { IfSome result (λ k. k < length rows.now) }
{
    let _ = rows;
    match numbers.get(id) {
        Some(k) => Some(k as u32),
        None => None,
    }
}

impl Network {
    /// The network to which what has this id leads.
    pub fn far(&self, id: &[u8]) -> Option<FarNo>
        ensures number { result ≡ model.far_of_id self.now id.now }
        ensures within { IfSome result (λ k. IsTrue (is_far self.now k)) }
    {
        let rows = self.directory();
        let fars = rows.description().fars.as_slice();
        match first_of(fars, &rows.ids().outside.fars, id) {
            Some(k) => Some(FarNo(k)),
            None => None,
        }
    }

    /// The firewall endpoint with this id.
    pub fn firewall(&self, id: &[u8]) -> Option<FirewallNo>
        ensures number { result ≡ firewall_of_id self.now id.now }
        ensures within { IfSome result (λ e. IsTrue (is_firewall self.now e)) }
    {
        let rows = self.directory();
        let firewalls = rows.description().firewalls.as_slice();
        match first_of(firewalls, &rows.ids().outside.firewalls, id) {
            Some(k) => Some(FirewallNo(k)),
            None => None,
        }
    }

    /// The number of the peering with this id: of one that isn't described, how many there are.
    pub fn peering_number(&self, id: &Id) -> PeerNo
        ensures { result ≡ peer_no self.now id.now }
    {
        match self.peering(id.bytes()) {
            Some(x) => x,
            None => PeerNo(self.description().peerings.as_slice().len() as u32),
        }
    }

    /// The peering that leads to a network.
    pub fn peering_to(&self, far: &Far) -> PeerNo
        ensures { result ≡ model.peering_to self.now far.now }
    {
        self.peering_number(&far.id)
    }

    fn described_vpc(&self, vpc: &Id) -> Option<VpcNo>
        ensures number { result ≡ model.described_vpc self.now (Some vpc.now) }
        ensures within { IfSome result (λ v. IsTrue (is_vpc self.now v)) }
    {
        self.vpc(vpc.bytes())
    }

    // The described VPC that a virtual private gateway is attached to.
    fn vpc_of_gateway(&self, vpc: &Option<Id>) -> Option<VpcNo>
        ensures number { result ≡ model.described_vpc self.now vpc.now }
        ensures within { IfSome result (λ v. IsTrue (is_vpc self.now v)) }
    {
        match vpc {
            Some(vpc) => self.described_vpc(vpc),
            None => None,
        }
    }

    // Of the two VPCs of a peering the first that is described.
    fn vpc_of_pair(&self, pair: &Option<(Id, Id)>) -> Option<VpcNo>
        ensures number { result ≡ model.vpc_of_pair self.now pair.now }
        ensures within { IfSome result (λ v. IsTrue (is_vpc self.now v)) }
    {
        match pair {
            Some((one, other)) => match self.described_vpc(one) {
                Some(v) => Some(v),
                None => self.described_vpc(other),
            },
            None => None,
        }
    }

    // The first described VPC of the peering with this id.
    fn vpc_of_peering(&self, id: &Id) -> Option<VpcNo>
        ensures number { result ≡ vpc_of_peering self.now id.now }
        ensures within { IfSome result (λ v. IsTrue (is_vpc self.now v)) }
    {
        match self.directory().peering(id) {
            Some(peering) => self.vpc_of_pair(&peering.pair),
            None => None,
        }
    }

    /// The described VPC beside a network.
    pub fn vpc_beside(&self, far: &Far) -> Option<VpcNo>
        ensures number { result ≡ model.vpc_beside self.now far.now }
        ensures within { IfSome result (λ v. IsTrue (is_vpc self.now v)) }
    {
        match &far.kind {
            FarKind::PrivateGateway(vpc) => self.vpc_of_gateway(vpc),
            FarKind::Attachment(_) => None,
            FarKind::Peering(_, _) => self.vpc_of_peering(&far.id),
            FarKind::Endpoint(vpc) => self.described_vpc(vpc),
        }
    }

    fn has_vpc(&self, vpc: &Id) -> bool
        ensures { result ≡ has_vpc self.now vpc.now }
    {
        self.directory().has(Kind::Vpc, vpc)
    }

    // No VPC, or one that isn't described.
    fn is_elsewhere(&self, vpc: &Option<Id>) -> bool
        ensures { result ≡ model.is_elsewhere self.now vpc.now }
    {
        match vpc {
            Some(vpc) => !self.has_vpc(vpc),
            None => true,
        }
    }

    // Whether exactly one of the two VPCs of an active peering is described.
    fn is_half(&self, pair: &Option<(Id, Id)>) -> bool
        ensures { result ≡ model.is_half self.now pair.now }
    {
        match pair {
            Some((one, other)) => {
                if self.has_vpc(one) {
                    !self.has_vpc(other)
                } else {
                    self.has_vpc(other)
                }
            }
            None => false,
        }
    }

    // Whether a peering with this id is described, and exactly one of its VPCs.
    fn is_half_known(&self, id: &Id) -> bool
        ensures { result ≡ is_half_known self.now id.now }
    {
        match self.directory().peering(id) {
            Some(peering) => self.is_half(&peering.pair),
            None => false,
        }
    }

    /// Whether packets start and arrive at a network that isn't described.
    pub fn is_far_end(&self, far: &Far) -> bool
        ensures { result ≡ model.is_far_end self.now far.now }
    {
        match &far.kind {
            FarKind::PrivateGateway(_) => true,
            FarKind::Attachment(vpc) => self.is_elsewhere(vpc),
            FarKind::Peering(_, _) => self.is_half_known(&far.id),
            FarKind::Endpoint(vpc) => self.has_vpc(vpc),
        }
    }

    /// The network to which what has this id leads, where it is an end.
    pub fn far_end(&self, id: &[u8]) -> Option<FarNo>
        ensures number { result ≡ model.far_end_of_id self.now id.now }
        ensures within { IfSome result (λ k. IsTrue (is_end self.now (ends.Far k))) }
    {
        match self.far(id) {
            Some(k) => {
                if self.is_far_end(self.far_at(k)) {
                    Some(k)
                } else {
                    None
                }
            }
            None => None,
        }
    }
}
