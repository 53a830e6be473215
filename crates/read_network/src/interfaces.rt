// Network interfaces.
ghost use Rattle.std.specs.Prelude.{◌≡◌, IfOk};
ghost use Rattle.serde_json.specs.View.{view};
ghost use Rattle.json_fields.specs.FieldFault.{Reads};
ghost use Rattle.read_network.specs.Interfaces.{addresses_of, delegated_prefix, group_id, interface_of, is_listed, kind_at, manner_of, private_address, with_primary};

use crate::types::kind_of;
use json_fields::{
    FieldFault, Path, ReadRow, addr_at, addr_if, addr_if_within, flag_if, has_text, id_at,
    prefix_at, read_items, str_if,
};
use prefix_text::Prefix;
use serde_json::Value;
use std::alloc::{AllocError, Global};
use vpc_base::OwnList;
use vpc_model::{Id, Interface, InterfaceKind};

/// The addresses of an interface.
#[derive(Drop)]
struct Addresses {
    primary: Option<u32>,
    /// The private ones, each with its public one if it has one.
    all: OwnList<(u32, Option<u32>)>,
}

/// What an interface does with packets, apart from its addresses.
#[derive(Drop)]
struct Manner {
    groups: OwnList<Id>,
    checked: bool,
    idle: bool,
    kind: InterfaceKind,
}

fn private_address(
    alloc: Global,
    row: &Value,
    path: &Path,
) -> Result<(u32, Option<u32>), FieldFault>
    ensures { Reads (λ x. x) (private_address (view row.now) path.now) result }
{
    let own = addr_at(alloc, row, path, "PrivateIpAddress")?;
    let public = addr_if_within(alloc, row, path, "Association", "PublicIp")?;
    Ok((own, public))
}

/// The rows of an interface's `PrivateIpAddresses`.
struct PrivateAddresses;

impl ReadRow for PrivateAddresses {
    type Row = (u32, Option<u32>);

    ghost meaning = { private_address };

    fn read(alloc: Global, row: &Value, path: &Path) -> Result<(u32, Option<u32>), FieldFault> {
        private_address(alloc, row, path)
    }
}

fn is_listed(own: u32, listed: &[(u32, Option<u32>)]) -> bool
    ensures { result ≡ is_listed own listed.now }
{
    listed.iter().any(|a| a.0 == own)
}

fn with_primary(
    primary: Option<u32>,
    listed: Vec<(u32, Option<u32>)>,
) -> Result<Vec<(u32, Option<u32>)>, AllocError>
    ensures { IfOk result (λ v. v.items ≡ with_primary primary listed.items) }
{
    let mut all = listed;
    match primary {
        Some(own) if !is_listed(own, all.as_slice()) => {
            all.insert(0, (own, None))?;
            Ok(all)
        }
        _ => Ok(all),
    }
}

fn addresses_of(alloc: Global, row: &Value, path: &Path) -> Result<Addresses, FieldFault>
    ensures { Reads (λ x. x) (addresses_of (view row.now) path.now) result }
{
    let primary = addr_if(alloc, row, path, "PrivateIpAddress")?;
    let listed = read_items::<PrivateAddresses>(alloc, row, path, "PrivateIpAddresses")?;
    let all = with_primary(primary, listed)?;
    Ok(Addresses {
        primary,
        all: OwnList::of(all),
    })
}

/// The rows of an interface's `Groups`.
struct GroupIds;

impl ReadRow for GroupIds {
    type Row = Id;

    ghost meaning = { group_id };

    fn read(alloc: Global, row: &Value, path: &Path) -> Result<Id, FieldFault> {
        id_at(alloc, row, path, "GroupId")
    }
}

fn kind_at(alloc: Global, row: &Value, path: &Path) -> Result<InterfaceKind, FieldFault>
    ensures { Reads (λ x. x) (kind_at (view row.now) path.now) result }
{
    match str_if(alloc, row, path, "InterfaceType") {
        Ok(text) => Ok(kind_of(text)),
        Err(fault) => Err(fault),
    }
}

fn manner_of(alloc: Global, row: &Value, path: &Path) -> Result<Manner, FieldFault>
    ensures { Reads (λ x. x) (manner_of (view row.now) path.now) result }
{
    let groups = read_items::<GroupIds>(alloc, row, path, "Groups")?;
    let checked = flag_if(alloc, row, path, "SourceDestCheck")?;
    let idle = has_text(alloc, "available", row, path, "Status")?;
    let kind = kind_at(alloc, row, path)?;
    Ok(Manner {
        groups: OwnList::of(groups),
        checked: checked.unwrap_or(true),
        idle,
        kind,
    })
}

/// The rows of an interface's `Ipv4Prefixes`.
struct DelegatedPrefixes;

impl ReadRow for DelegatedPrefixes {
    type Row = Prefix;

    ghost meaning = { delegated_prefix };

    fn read(alloc: Global, row: &Value, path: &Path) -> Result<Prefix, FieldFault> {
        prefix_at(alloc, row, path, "Ipv4Prefix")
    }
}

fn interface_of(alloc: Global, row: &Value, path: &Path) -> Result<Interface, FieldFault>
    ensures { Reads (λ x. x) (interface_of (view row.now) path.now) result }
{
    let id = id_at(alloc, row, path, "NetworkInterfaceId")?;
    let subnet = id_at(alloc, row, path, "SubnetId")?;
    let addresses = addresses_of(alloc, row, path)?;
    let manner = manner_of(alloc, row, path)?;
    let prefixes = read_items::<DelegatedPrefixes>(alloc, row, path, "Ipv4Prefixes")?;
    Ok(Interface {
        id,
        subnet,
        primary: addresses.primary,
        addresses: addresses.all,
        prefixes: OwnList::of(prefixes),
        groups: manner.groups,
        checked: manner.checked,
        idle: manner.idle,
        kind: manner.kind,
    })
}

/// The rows of `NetworkInterfaces`.
pub struct Interfaces;

impl ReadRow for Interfaces {
    type Row = Interface;

    ghost meaning = { interface_of };

    fn read(alloc: Global, row: &Value, path: &Path) -> Result<Interface, FieldFault> {
        interface_of(alloc, row, path)
    }
}
