// The generated network.
ghost use Rattle.std.specs.Prelude.{◌≡◌, ◌≤◌, IfOk, None};
ghost use Rattle.vpc_model.specs.Lookup.{no_scope};
ghost use Rattle.reference_check.specs.Told.{IsTold};
ghost use Rattle.made_network.specs.Made.{for_each, made, made_gateway_table};

use crate::ids::id_of;
use crate::lists::{add, no_rows, only_row};
use crate::rows::MadeRow;
use reference_check::Network;
use std::alloc::Global;
use vpc_base::{NoMemory, OwnList};
use vpc_model::{Description, GroupScope, Refusal, TgwTable};

// The rows for each number from 1 to n.
fn rows<R: MadeRow + Drop>(alloc: Global, n: u8) -> Result<OwnList<R>, NoMemory>
    ensures { IfOk result (λ l. l ≡ for_each R.row_of n) }
{
    let mut rows = Vec::with_capacity(alloc, usize::from(n))?;
    for number in 1..=n {
        add(&mut rows, R::made(alloc, number)?)?;
    }
    Ok(OwnList::of(rows))
}

fn gateway_table(alloc: Global, n: u8) -> Result<TgwTable, NoMemory>
    ensures { IfOk result (λ t. t ≡ made_gateway_table n) }
{
    Ok(TgwTable {
        id: id_of(alloc, b"tgw-rtb-1")?,
        routes: rows(alloc, n)?,
    })
}

fn no_scope(alloc: Global) -> GroupScope
    ensures { result ≡ no_scope }
{
    GroupScope {
        gateways: no_rows(alloc),
        attachments: no_rows(alloc),
        vpcs: no_rows(alloc),
    }
}

fn description(alloc: Global, n: u8) -> Result<Description, NoMemory>
    ensures { IfOk result (λ d. d ≡ made n) }
{
    Ok(Description {
        vpcs: rows(alloc, n)?,
        subnets: rows(alloc, n)?,
        interfaces: rows(alloc, n)?,
        tables: rows(alloc, n)?,
        lists: no_rows(alloc),
        acls: rows(alloc, n)?,
        groups: rows(alloc, n)?,
        igws: no_rows(alloc),
        nats: no_rows(alloc),
        peerings: no_rows(alloc),
        attachments: rows(alloc, n)?,
        associations: rows(alloc, n)?,
        tgw_tables: only_row(alloc, gateway_table(alloc, n)?)?,
        appliances: no_rows(alloc),
        fars: no_rows(alloc),
        firewalls: no_rows(alloc),
        scope: no_scope(alloc),
    })
}

// An accepted description is refused for want of memory alone.
fn no_memory(cause: Refusal) -> NoMemory
    requires { IsTold None cause }
{
    match cause {
        Refusal::Memory => NoMemory,
        _ => unreachable!(),
    }
}

/// The network of n VPCs that a transit gateway joins. In each of them one host lets in TCP to a
/// hundred ports of its own from anywhere. Beside the check of the description it takes time and
/// memory linear in the rows.
pub fn made_network(alloc: Global, n: u32) -> Result<Network, NoMemory>
    requires some { 1 ≤ n }
    requires most { n ≤ 50 }
    ensures { IfOk result (λ d. d ≡ made n) }
{
    match Network::of(alloc, description(alloc, n as u8)?) {
        Ok(network) => Ok(network),
        Err(cause) => Err(no_memory(cause)),
    }
}
