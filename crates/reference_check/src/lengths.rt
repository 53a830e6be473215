// Lists that are too long.
ghost use Rattle.std.specs.Prelude.{◌≡◌, drop, filter};
ghost use Rattle.std.specs.List.{list_any};
ghost use Rattle.vpc_model.specs.Accepted.{is_long, is_long_far, is_long_rule, list_of_far, too_long, too_many_rows};
ghost use Rattle.reference_check.specs.LongLists as long;
ghost use Rattle.reference_check.specs.Told.{Tells};

use vpc_model::{
    Acl, Appliance, Association, Attachment, Description, Far, FarKind, FirewallEndpoint, Group,
    Interface, InternetGateway, ListName, NatGateway, Peering, Permission, PrefixList, Refusal,
    RouteTable, Subnet, TgwTable, Vpc,
};

// More items than a list may have (profile).
fn is_long<T>(items: &[T]) -> bool
    ensures { result ≡ is_long items.now }
{
    items.len() > 100_000
}

// A row that may have lists of its own.
trait HasLists {
    ghost use Rattle.std.specs.Prelude.{Bool};

    ghost is_long_row: { Self → Bool };

    // Whether one of them is too long.
    fn has_long_list(&self) -> bool
        ensures { result ≡ is_long_row self.now };
}

impl HasLists for Vpc {
    ghost is_long_row = { λ v. is_long v.blocks };

    fn has_long_list(&self) -> bool {
        is_long(self.blocks.as_slice())
    }
}

impl HasLists for Subnet {
    ghost use Rattle.std.specs.Prelude.{false};

    ghost is_long_row = { λ s. false };

    fn has_long_list(&self) -> bool {
        false
    }
}

impl HasLists for Interface {
    ghost use Rattle.std.specs.Prelude.{◌||◌};

    ghost is_long_row = { λ e. is_long e.addresses || (is_long e.prefixes || is_long e.groups) };

    fn has_long_list(&self) -> bool {
        is_long(self.addresses.as_slice())
            || (is_long(self.prefixes.as_slice()) || is_long(self.groups.as_slice()))
    }
}

impl HasLists for RouteTable {
    ghost use Rattle.std.specs.Prelude.{◌||◌};

    ghost is_long_row = { λ t. is_long t.subnets || (is_long t.gateways || is_long t.routes) };

    fn has_long_list(&self) -> bool {
        is_long(self.subnets.as_slice())
            || (is_long(self.gateways.as_slice()) || is_long(self.routes.as_slice()))
    }
}

impl HasLists for PrefixList {
    ghost is_long_row = { λ l. is_long l.entries };

    fn has_long_list(&self) -> bool {
        is_long(self.entries.as_slice())
    }
}

impl HasLists for Acl {
    ghost use Rattle.std.specs.Prelude.{◌||◌};

    ghost is_long_row = { λ a. is_long a.subnets || is_long a.rows };

    fn has_long_list(&self) -> bool {
        is_long(self.subnets.as_slice()) || is_long(self.rows.as_slice())
    }
}

impl HasLists for Permission {
    ghost is_long_row = { is_long_rule };

    fn has_long_list(&self) -> bool {
        is_long(self.blocks.as_slice())
            || (is_long(self.lists.as_slice()) || is_long(self.groups.as_slice()))
    }
}

impl HasLists for Group {
    ghost use Rattle.vpc_model.specs.Accepted.{is_long_group};

    ghost is_long_row = { is_long_group };

    fn has_long_list(&self) -> bool {
        let inward = self.inward.as_slice();
        let outward = self.outward.as_slice();
        is_long(inward) || (is_long(outward) || (has_long_row(inward) || has_long_row(outward)))
    }
}

impl HasLists for InternetGateway {
    ghost is_long_row = { λ g. is_long g.vpcs };

    fn has_long_list(&self) -> bool {
        is_long(self.vpcs.as_slice())
    }
}

impl HasLists for NatGateway {
    ghost use Rattle.std.specs.Prelude.{false};

    ghost is_long_row = { λ n. false };

    fn has_long_list(&self) -> bool {
        false
    }
}

impl HasLists for Peering {
    ghost use Rattle.std.specs.Prelude.{false};

    ghost is_long_row = { λ x. false };

    fn has_long_list(&self) -> bool {
        false
    }
}

impl HasLists for Attachment {
    ghost is_long_row = { λ a. is_long a.subnets };

    fn has_long_list(&self) -> bool {
        is_long(self.subnets.as_slice())
    }
}

impl HasLists for Association {
    ghost use Rattle.std.specs.Prelude.{false};

    ghost is_long_row = { λ x. false };

    fn has_long_list(&self) -> bool {
        false
    }
}

impl HasLists for TgwTable {
    ghost is_long_row = { λ t. is_long t.routes };

    fn has_long_list(&self) -> bool {
        is_long(self.routes.as_slice())
    }
}

impl HasLists for Appliance {
    ghost use Rattle.std.specs.Prelude.{false};

    ghost is_long_row = { λ a. false };

    fn has_long_list(&self) -> bool {
        false
    }
}

impl HasLists for FirewallEndpoint {
    ghost use Rattle.std.specs.Prelude.{false};

    ghost is_long_row = { λ e. false };

    fn has_long_list(&self) -> bool {
        false
    }
}

fn has_long_row<R: HasLists>(rows: &[R]) -> bool
    ensures { result ≡ list_any R.is_long_row rows.now }
{
    rows.iter().any(|r| r.has_long_list())
}

fn check_list<R: HasLists>(name: ListName, rows: &[R]) -> Result<(), Refusal>
    ensures { Tells (too_long name R.is_long_row rows.now) result }
{
    if is_long(rows) || has_long_row(rows) {
        return Err(Refusal::TooManyRows(name));
    }
    Ok(())
}

fn check_networks(d: &Description) -> Result<(), Refusal>
    ensures { Tells (long.long_networks d.now) result }
{
    check_list(ListName::Vpcs, d.vpcs.as_slice())?;
    check_list(ListName::Subnets, d.subnets.as_slice())?;
    check_list(ListName::NetworkInterfaces, d.interfaces.as_slice())?;
    check_list(ListName::RouteTables, d.tables.as_slice())?;
    check_list(ListName::PrefixLists, d.lists.as_slice())
}

fn check_filters(d: &Description) -> Result<(), Refusal>
    ensures { Tells (long.long_filters d.now) result }
{
    check_list(ListName::NetworkAcls, d.acls.as_slice())?;
    check_list(ListName::SecurityGroups, d.groups.as_slice())
}

fn check_gateways(d: &Description) -> Result<(), Refusal>
    ensures { Tells (long.long_gateways d.now) result }
{
    check_list(ListName::InternetGateways, d.igws.as_slice())?;
    check_list(ListName::NatGateways, d.nats.as_slice())?;
    check_list(ListName::VpcPeeringConnections, d.peerings.as_slice())?;
    check_list(
        ListName::TransitGatewayVpcAttachments,
        d.attachments.as_slice(),
    )?;
    check_list(
        ListName::TransitGatewayAttachments,
        d.associations.as_slice(),
    )?;
    check_list(ListName::TransitGatewayRoutes, d.tgw_tables.as_slice())?;
    check_list(ListName::Appliances, d.appliances.as_slice())
}

// The list that tells what leads to a network.
fn list_of_far(kind: &FarKind) -> ListName
    ensures { result ≡ list_of_far kind.now }
{
    match kind {
        FarKind::PrivateGateway(_) => ListName::VpnGateways,
        FarKind::Attachment(_) => ListName::TransitGatewayAttachments,
        FarKind::Peering(_, _) => ListName::VpcPeeringConnections,
        FarKind::Endpoint(_) => ListName::VpcEndpoints,
    }
}

// Whether a side of a peering has too many blocks.
fn is_long_far(kind: &FarKind) -> bool
    ensures { result ≡ is_long_far kind.now }
{
    match kind {
        FarKind::Peering(requester, accepter) => {
            is_long(requester.as_slice()) || is_long(accepter.as_slice())
        }
        FarKind::PrivateGateway(_) | FarKind::Attachment(_) | FarKind::Endpoint(_) => false,
    }
}

// Refuses more networks than a list may have, by the list that tells the first of those past the others.
fn check_count(fars: &[Far], most: usize) -> Result<(), Refusal>
    ensures { Tells (long.told_by_list (drop most fars.now)) result }
{
    match fars.get(most) {
        Some(far) => Err(Refusal::TooManyRows(list_of_far(&far.kind))),
        None => Ok(()),
    }
}

// Refuses the first network with too many blocks.
fn check_blocks(fars: &[Far]) -> Result<(), Refusal>
    ensures { Tells (long.told_by_list (filter (λ f. is_long_far f.kind) fars.now)) result }
{
    for far in fars {
        if is_long_far(&far.kind) {
            return Err(Refusal::TooManyRows(list_of_far(&far.kind)));
        }
    }
    Ok(())
}

fn check_outside(d: &Description) -> Result<(), Refusal>
    ensures { Tells (long.long_outside d.now) result }
{
    check_count(d.fars.as_slice(), 100_000)?;
    check_blocks(d.fars.as_slice())?;
    check_list(ListName::VpcEndpoints, d.firewalls.as_slice())
}

fn check_parts(d: &Description) -> Result<(), Refusal>
    ensures { Tells (long.long_by_part d.now) result }
{
    check_networks(d)?;
    check_filters(d)?;
    check_gateways(d)?;
    check_outside(d)
}

/// The first list of more than 100,000 rows, or with such a list in one of its rows.
pub fn check_lengths(d: &Description) -> Result<(), Refusal>
    ensures { Tells (too_many_rows d.now) result }
{
    check_parts(d)
}
