// Rows by their numbers.

/// The number of a row in `Description::vpcs`, from 0.
#[derive(Clone, Copy, Debug, PartialEq, Eq, Default)]
pub struct VpcNo(pub u32);

/// The number of a row in `Description::subnets`, from 0.
#[derive(Clone, Copy, Debug, PartialEq, Eq, Default)]
pub struct SubnetNo(pub u32);

/// The number of a row in `Description::interfaces`, from 0.
#[derive(Clone, Copy, Debug, PartialEq, Eq, Default)]
pub struct EniNo(pub u32);

/// The number of a row in `Description::tables`, from 0.
#[derive(Clone, Copy, Debug, PartialEq, Eq, Default)]
pub struct TableNo(pub u32);

/// The number of a row in `Description::acls`, from 0.
#[derive(Clone, Copy, Debug, PartialEq, Eq, Default)]
pub struct AclNo(pub u32);

/// The number of a row in `Description::groups`, from 0.
#[derive(Clone, Copy, Debug, PartialEq, Eq, Default)]
pub struct GroupNo(pub u32);

/// The number of a row in `Description::igws`, from 0.
#[derive(Clone, Copy, Debug, PartialEq, Eq, Default)]
pub struct IgwNo(pub u32);

/// The number of a row in `Description::nats`, from 0.
#[derive(Clone, Copy, Debug, PartialEq, Eq, Default)]
pub struct NatNo(pub u32);

/// The number of a row in `Description::peerings`, from 0.
#[derive(Clone, Copy, Debug, PartialEq, Eq, Default)]
pub struct PeerNo(pub u32);

/// The number of a row in `Description::attachments`, from 0.
#[derive(Clone, Copy, Debug, PartialEq, Eq, Default)]
pub struct AttNo(pub u32);

/// The number of a row in `Description::tgw_tables`, from 0.
#[derive(Clone, Copy, Debug, PartialEq, Eq, Default)]
pub struct TgwTableNo(pub u32);

/// The number of a row in `Description::fars`, from 0.
#[derive(Clone, Copy, Debug, PartialEq, Eq, Default)]
pub struct FarNo(pub u32);

/// The number of a row in `Description::firewalls`, from 0.
#[derive(Clone, Copy, Debug, PartialEq, Eq, Default)]
pub struct FirewallNo(pub u32);
