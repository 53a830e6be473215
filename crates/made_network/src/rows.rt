// VPCs, subnets, interfaces and route tables.
ghost use Rattle.std.specs.Prelude.{◌≡◌, IfOk};
ghost use Rattle.prefix_text.specs.Addr.{addr_at};
ghost use Rattle.made_network.specs.Made.{local_route, made_interface, made_subnet, made_table};
ghost use Rattle.made_network.specs.Made.{made_vpc, route_to_gateway, vpc_block};

use crate::ids::{id_of, numbered};
use crate::lists::{no_rows, only_row, two_rows};
use prefix_text::Prefix;
use std::alloc::Global;
use vpc_base::NoMemory;
use vpc_model::{Interface, InterfaceKind, Reach, Route, RouteTable, Subnet, Target, Vpc};

/// A row that the network has for each number.
pub trait MadeRow {
    ghost use Rattle.std.specs.Prelude.{ℕ};

    // the row with this number
    ghost row_of: { ℕ → Self };

    fn made(alloc: Global, number: u8) -> Result<Self, NoMemory>
        ensures { IfOk result (λ r. r ≡ row_of number) };
}

// The address 10.NUMBER.THIRD.FOURTH.
fn address(number: u8, third: u8, fourth: u8) -> u32
    ensures { result ≡ addr_at 10 number third fourth }
{
    u32::from_be_bytes([10, number, third, fourth])
}

/// The block of the VPC with this number.
pub fn vpc_block(number: u8) -> Prefix
    ensures { result ≡ vpc_block number }
{
    Prefix::of(address(number, 0, 0), 16)
}

impl MadeRow for Vpc {
    ghost row_of = { made_vpc };

    fn made(alloc: Global, number: u8) -> Result<Vpc, NoMemory> {
        Ok(Vpc {
            id: numbered(alloc, "vpc", number)?,
            blocks: only_row(alloc, vpc_block(number))?,
            access: None,
        })
    }
}

impl MadeRow for Subnet {
    ghost row_of = { made_subnet };

    fn made(alloc: Global, number: u8) -> Result<Subnet, NoMemory> {
        Ok(Subnet {
            id: numbered(alloc, "subnet", number)?,
            vpc: numbered(alloc, "vpc", number)?,
            zone: id_of(alloc, b"z")?,
            access: None,
        })
    }
}

impl MadeRow for Interface {
    ghost row_of = { made_interface };

    fn made(alloc: Global, number: u8) -> Result<Interface, NoMemory> {
        let address = address(number, 1, 10);
        Ok(Interface {
            id: numbered(alloc, "eni", number)?,
            subnet: numbered(alloc, "subnet", number)?,
            primary: Some(address),
            addresses: only_row(alloc, (address, None))?,
            prefixes: no_rows(alloc),
            groups: only_row(alloc, numbered(alloc, "sg", number)?)?,
            checked: true,
            idle: false,
            kind: InterfaceKind::Host,
        })
    }
}

fn local_route(number: u8) -> Route
    ensures { result ≡ local_route number }
{
    Route {
        reach: Reach::Block(vpc_block(number)),
        target: Target::Local,
        blackhole: false,
        propagated: false,
    }
}

// The route to the other VPCs.
fn route_to_gateway(alloc: Global) -> Result<Route, NoMemory>
    ensures { IfOk result (λ r. r ≡ route_to_gateway) }
{
    Ok(Route {
        reach: Reach::Block(Prefix::of(address(0, 0, 0), 8)),
        target: Target::Transit(id_of(alloc, b"tgw-1")?),
        blackhole: false,
        propagated: false,
    })
}

impl MadeRow for RouteTable {
    ghost row_of = { made_table };

    fn made(alloc: Global, number: u8) -> Result<RouteTable, NoMemory> {
        Ok(RouteTable {
            id: numbered(alloc, "rtb", number)?,
            vpc: numbered(alloc, "vpc", number)?,
            main: true,
            subnets: no_rows(alloc),
            gateways: no_rows(alloc),
            routes: two_rows(alloc, local_route(number), route_to_gateway(alloc)?)?,
        })
    }
}
