// Rows that name others which aren't described, or aren't where they must be.
ghost use Rattle.std.specs.Prelude.{◌≡◌, List};
ghost use Rattle.std.specs.List.{flat_map};
ghost use Rattle.vpc_model.specs.Accepted.{is_interface_in, is_side, is_subnet_of, missing_of_life, missing_of_reach, missing_of_route, missing_of_target, missing_references, serves_vpc, wanted};
ghost use Rattle.vpc_model.specs.Lookup.{is_assigned};
ghost use Rattle.reference_check.specs.Kinds.{has_row};
ghost use Rattle.reference_check.specs.Missing.{has_interface_for, has_nat_for, has_peering_for, missing_by_part, missing_filters, missing_gateways, missing_networks, missing_of_rule};
ghost use Rattle.reference_check.specs.Told.{Tells};

use crate::directory::{Directory, Kind};
use std::alloc::Global;
use vpc_model::{
    Acl, Appliance, ApplianceAt, Attachment, FirewallEndpoint, Group, Id, Interface,
    InternetGateway, NatGateway, NatLife, Peering, Permission, Reach, Refusal, Route, RouteTable,
    Subnet, Target,
};

/// A row that names others.
trait Refers {
    ghost use Rattle.vpc_model.specs.declared.rows.Description.{Description};
    ghost use Rattle.vpc_model.specs.declared.refusals.Refusal.{Refusal};

    ghost missing_of: { Description → Self → List Refusal };

    /// Refuses the first of the others that isn't there.
    fn check(&self, alloc: Global, rows: &Directory) -> Result<(), Refusal>
        ensures { Tells (missing_of rows.now self.now) result };
}

// Checks the rows of a list.
fn check_all<R: Refers>(alloc: Global, rows: &Directory, list: &[R]) -> Result<(), Refusal>
    ensures { Tells (flat_map (R.missing_of rows.now) list.now) result }
{
    for row in list {
        row.check(alloc, rows)?;
    }
    Ok(())
}

// Refuses what isn't there.
fn want(alloc: Global, is_there: bool, from: &Id, to: &Id) -> Result<(), Refusal>
    ensures { Tells (wanted is_there from.now to.now) result }
{
    if is_there {
        return Ok(());
    }
    Err(Refusal::MissingReference(from.copied(alloc)?, to.copied(alloc)?))
}

// Refuses the first of these that isn't described.
fn want_all(
    alloc: Global,
    rows: &Directory,
    kind: Kind,
    from: &Id,
    ids: &[Id],
) -> Result<(), Refusal>
    ensures { Tells (flat_map (λ x. wanted (has_row rows.now kind x) from.now x) ids.now) result }
{
    for id in ids {
        want(alloc, rows.has(kind, id), from, id)?;
    }
    Ok(())
}

// Whether the subnet is described, and in the VPC.
fn is_subnet_of(rows: &Directory, vpc: &Id, id: &Id) -> bool
    ensures { result ≡ is_subnet_of rows.now vpc.now id.now }
{
    match rows.subnet(id) {
        Some(subnet) => subnet.vpc.bytes() == vpc.bytes(),
        None => false,
    }
}

// Refuses the first of these that isn't a subnet of the VPC.
fn want_subnets(
    alloc: Global,
    rows: &Directory,
    vpc: &Id,
    from: &Id,
    ids: &[Id],
) -> Result<(), Refusal>
    ensures { Tells (flat_map (λ x. wanted (is_subnet_of rows.now vpc.now x) from.now x) ids.now) result }
{
    for id in ids {
        want(alloc, is_subnet_of(rows, vpc, id), from, id)?;
    }
    Ok(())
}

impl Refers for Subnet {
    ghost use Rattle.vpc_model.specs.Accepted.{missing_of_subnet};

    ghost missing_of = { missing_of_subnet };

    fn check(&self, alloc: Global, rows: &Directory) -> Result<(), Refusal> {
        want(alloc, rows.has(Kind::Vpc, &self.vpc), &self.id, &self.vpc)
    }
}

impl Refers for Interface {
    ghost use Rattle.vpc_model.specs.Accepted.{missing_of_interface};

    ghost missing_of = { missing_of_interface };

    fn check(&self, alloc: Global, rows: &Directory) -> Result<(), Refusal> {
        want(
            alloc,
            rows.has(Kind::Subnet, &self.subnet),
            &self.id,
            &self.subnet,
        )?;
        want_all(alloc, rows, Kind::Group, &self.id, self.groups.as_slice())
    }
}

// Whether a live NAT gateway is in a subnet of the VPC.
fn serves(rows: &Directory, vpc: &Id, life: &NatLife) -> bool
    ensures { result ≡ serves_vpc rows.now vpc.now life.now }
{
    match life {
        NatLife::Gone | NatLife::Unmodelled => true,
        NatLife::Live { subnet, .. } => is_subnet_of(rows, vpc, subnet),
    }
}

// Whether an active peering has the VPC on a side.
fn is_side(vpc: &Id, peering: &Peering) -> bool
    ensures { result ≡ is_side vpc.now peering.now.pair }
{
    match &peering.pair {
        None => true,
        Some((one, other)) => one.bytes() == vpc.bytes() || other.bytes() == vpc.bytes(),
    }
}

// Whether a NAT gateway is described that serves the VPC.
fn has_nat(rows: &Directory, vpc: &Id, id: &Id) -> bool
    ensures { result ≡ has_nat_for rows.now vpc.now id.now }
{
    match rows.nat(id) {
        Some(nat) => serves(rows, vpc, &nat.life),
        None => false,
    }
}

// Whether a peering is described that has the VPC on a side where it is active.
fn has_peering(rows: &Directory, vpc: &Id, id: &Id) -> bool
    ensures { result ≡ has_peering_for rows.now vpc.now id.now }
{
    match rows.peering(id) {
        Some(peering) => is_side(vpc, peering),
        None => false,
    }
}

// Whether an interface of the VPC is described.
fn has_interface(rows: &Directory, vpc: &Id, id: &Id) -> bool
    ensures { result ≡ has_interface_for rows.now vpc.now id.now }
{
    match rows.interface(id) {
        Some(interface) => is_subnet_of(rows, vpc, &interface.subnet),
        None => false,
    }
}

// The prefix list of a route.
fn check_reach(
    alloc: Global,
    rows: &Directory,
    t: &RouteTable,
    reach: &Reach,
) -> Result<(), Refusal>
    ensures { Tells (missing_of_reach rows.now t.now reach.now) result }
{
    match reach {
        Reach::Block(_) => Ok(()),
        Reach::List(id) => want(alloc, rows.has(Kind::List, id), &t.id, id),
    }
}

// The target of a route that isn't gone.
fn check_target(
    alloc: Global,
    rows: &Directory,
    t: &RouteTable,
    target: &Target,
) -> Result<(), Refusal>
    ensures { Tells (missing_of_target rows.now t.now target.now) result }
{
    match target {
        Target::Local | Target::Transit(_) | Target::Other(_) => Ok(()),
        Target::Internet(id) => want(alloc, rows.has(Kind::InternetGateway, id), &t.id, id),
        Target::Nat(id) => want(alloc, has_nat(rows, &t.vpc, id), &t.id, id),
        Target::Peer(id) => want(alloc, has_peering(rows, &t.vpc, id), &t.id, id),
        Target::Interface(id) => want(alloc, has_interface(rows, &t.vpc, id), &t.id, id),
    }
}

fn check_route(
    alloc: Global,
    rows: &Directory,
    t: &RouteTable,
    route: &Route,
) -> Result<(), Refusal>
    ensures { Tells (missing_of_route rows.now t.now route.now) result }
{
    check_reach(alloc, rows, t, &route.reach)?;
    if route.blackhole {
        return Ok(());
    }
    check_target(alloc, rows, t, &route.target)
}

fn check_routes(alloc: Global, rows: &Directory, t: &RouteTable) -> Result<(), Refusal>
    ensures { Tells (flat_map (missing_of_route rows.now t.now) t.now.routes) result }
{
    for route in t.routes.as_slice() {
        check_route(alloc, rows, t, route)?;
    }
    Ok(())
}

impl Refers for RouteTable {
    ghost use Rattle.vpc_model.specs.Accepted.{missing_of_table};

    ghost missing_of = { missing_of_table };

    fn check(&self, alloc: Global, rows: &Directory) -> Result<(), Refusal> {
        want(alloc, rows.has(Kind::Vpc, &self.vpc), &self.id, &self.vpc)?;
        want_subnets(alloc, rows, &self.vpc, &self.id, self.subnets.as_slice())?;
        check_routes(alloc, rows, self)
    }
}

impl Refers for Acl {
    ghost use Rattle.vpc_model.specs.Accepted.{missing_of_acl};

    ghost missing_of = { missing_of_acl };

    fn check(&self, alloc: Global, rows: &Directory) -> Result<(), Refusal> {
        want_all(alloc, rows, Kind::Subnet, &self.id, self.subnets.as_slice())
    }
}

// The prefix lists of some rules of a group.
fn check_rules(
    alloc: Global,
    rows: &Directory,
    from: &Id,
    rules: &[Permission],
) -> Result<(), Refusal>
    ensures { Tells (flat_map (missing_of_rule rows.now from.now) rules.now) result }
{
    for rule in rules {
        want_all(alloc, rows, Kind::List, from, rule.lists.as_slice())?;
    }
    Ok(())
}

impl Refers for Group {
    ghost use Rattle.vpc_model.specs.Accepted.{missing_of_group};

    ghost missing_of = { missing_of_group };

    fn check(&self, alloc: Global, rows: &Directory) -> Result<(), Refusal> {
        want(alloc, rows.has(Kind::Vpc, &self.vpc), &self.id, &self.vpc)?;
        check_rules(alloc, rows, &self.id, self.inward.as_slice())?;
        check_rules(alloc, rows, &self.id, self.outward.as_slice())
    }
}

impl Refers for InternetGateway {
    ghost use Rattle.vpc_model.specs.Accepted.{missing_of_igw};

    ghost missing_of = { missing_of_igw };

    fn check(&self, alloc: Global, rows: &Directory) -> Result<(), Refusal> {
        want_all(alloc, rows, Kind::Vpc, &self.id, self.vpcs.as_slice())
    }
}

// Whether the address is assigned to the interface.
fn is_assigned(interface: &Interface, address: u32) -> bool
    ensures { result ≡ is_assigned interface.now address }
{
    interface
        .addresses
        .as_slice()
        .iter()
        .any(|x| x.0 == address)
}

// Whether the interface is described, in the subnet, and has the address.
fn is_interface_in(rows: &Directory, subnet: &Id, id: &Id, address: u32) -> bool
    ensures { result ≡ is_interface_in rows.now subnet.now id.now address }
{
    match rows.interface(id) {
        Some(interface) => {
            interface.subnet.bytes() == subnet.bytes() && is_assigned(interface, address)
        }
        None => false,
    }
}

impl Refers for NatGateway {
    ghost use Rattle.vpc_model.specs.Accepted.{missing_of_life};

    ghost missing_of = { λ d n. missing_of_life d n.id n.life };

    fn check(&self, alloc: Global, rows: &Directory) -> Result<(), Refusal> {
        match &self.life {
            NatLife::Gone | NatLife::Unmodelled => Ok(()),
            NatLife::Live {
                subnet,
                eni,
                address,
            } => {
                want(alloc, rows.has(Kind::Subnet, subnet), &self.id, subnet)?;
                want(
                    alloc,
                    is_interface_in(rows, subnet, eni, *address),
                    &self.id,
                    eni,
                )
            }
        }
    }
}

impl Refers for Attachment {
    ghost use Rattle.vpc_model.specs.Accepted.{missing_of_attachment};

    ghost missing_of = { missing_of_attachment };

    fn check(&self, alloc: Global, rows: &Directory) -> Result<(), Refusal> {
        if !rows.has(Kind::Vpc, &self.vpc) {
            return Ok(());
        }
        want_subnets(alloc, rows, &self.vpc, &self.id, self.subnets.as_slice())
    }
}

impl Refers for Appliance {
    ghost use Rattle.vpc_model.specs.Accepted.{missing_of_appliance};

    ghost missing_of = { missing_of_appliance };

    fn check(&self, alloc: Global, rows: &Directory) -> Result<(), Refusal> {
        match self.at {
            ApplianceAt::Interface => want(
                alloc,
                rows.has(Kind::Interface, &self.id),
                &self.id,
                &self.id,
            ),
            ApplianceAt::Endpoint => Ok(()),
        }
    }
}

impl Refers for FirewallEndpoint {
    ghost use Rattle.vpc_model.specs.Accepted.{missing_of_firewall};

    ghost missing_of = { missing_of_firewall };

    fn check(&self, alloc: Global, rows: &Directory) -> Result<(), Refusal> {
        if rows.is_followed(self) && rows.has(Kind::Vpc, &self.vpc) {
            return want(
                alloc,
                is_subnet_of(rows, &self.vpc, &self.subnet),
                &self.id,
                &self.subnet,
            );
        }
        Ok(())
    }
}

fn check_networks(alloc: Global, rows: &Directory) -> Result<(), Refusal>
    ensures { Tells (missing_networks rows.now) result }
{
    let d = rows.description();
    check_all(alloc, rows, d.subnets.as_slice())?;
    check_all(alloc, rows, d.interfaces.as_slice())?;
    check_all(alloc, rows, d.tables.as_slice())
}

fn check_filters(alloc: Global, rows: &Directory) -> Result<(), Refusal>
    ensures { Tells (missing_filters rows.now) result }
{
    let d = rows.description();
    check_all(alloc, rows, d.acls.as_slice())?;
    check_all(alloc, rows, d.groups.as_slice())
}

fn check_gateways(alloc: Global, rows: &Directory) -> Result<(), Refusal>
    ensures { Tells (missing_gateways rows.now) result }
{
    let d = rows.description();
    check_all(alloc, rows, d.igws.as_slice())?;
    check_all(alloc, rows, d.nats.as_slice())?;
    check_all(alloc, rows, d.attachments.as_slice())?;
    check_all(alloc, rows, d.appliances.as_slice())?;
    check_all(alloc, rows, d.firewalls.as_slice())
}

fn check_parts(alloc: Global, rows: &Directory) -> Result<(), Refusal>
    ensures { Tells (missing_by_part rows.now) result }
{
    check_networks(alloc, rows)?;
    check_filters(alloc, rows)?;
    check_gateways(alloc, rows)
}

/// Refuses the first row that names another which isn't there.
pub fn check_references(alloc: Global, rows: &Directory) -> Result<(), Refusal>
    ensures { Tells (missing_references rows.now) result }
{
    check_parts(alloc, rows)
}
