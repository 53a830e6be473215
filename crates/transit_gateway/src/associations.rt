// The tables of the attachments.
ghost use Rattle.std.specs.Prelude.{◌≡◌, IfOk, map, option_and_then, slice_get};
ghost use Rattle.vpc_model.specs.Far.{table_of_attachment_id};
ghost use Rattle.vpc_model.specs.Lookup.{tgw_table_of_id};
ghost use Rattle.transit_gateway.specs.Tables.{AreAssociated, table_behind, table_of_row};

use reference_check::{FirstNumbers, Network};
use std::alloc::{AllocError, Global};
use vpc_model::{Association, Id, TgwTableNo};

// The number of the first association of each attachment.
fn numbers_of(alloc: Global, n: &Network) -> Result<FirstNumbers, AllocError>
    ensures { IfOk result (AreAssociated n.now) }
{
    let rows = n.description().associations.as_slice();
    FirstNumbers::of(alloc, rows)
}

// The table that the association with this number names.
fn table_at(n: &Network, rows: &[Association], number: Option<usize>) -> Option<TgwTableNo>
    ensures { result ≡ option_and_then (λ x. tgw_table_of_id n.now x.table)
        (option_and_then (slice_get rows.now) number) }
{
    let association = rows.get(number?)?;
    n.tgw_table(association.table.bytes())
}

fn table_of(n: &Network, associated: &FirstNumbers, attachment: &Id) -> Option<TgwTableNo>
    requires { AreAssociated n.now associated.now }
    ensures { result ≡ table_of_attachment_id n.now attachment.now }
{
    let rows = n.description().associations.as_slice();
    table_at(n, rows, associated.get(attachment.bytes()))
}

// The described table of each attachment, in their order.
fn tables_of(
    alloc: Global,
    n: &Network,
    associated: &FirstNumbers,
) -> Result<Vec<Option<TgwTableNo>>, AllocError>
    requires { AreAssociated n.now associated.now }
    ensures { IfOk result (λ v. v.items ≡ map (table_of_row n.now) n.now.attachments) }
{
    let attachments = n.description().attachments.as_slice();
    let mut tables = Vec::with_capacity(alloc, attachments.len())?;
    for attachment in attachments {
        tables.push(table_of(n, associated, &attachment.id))?;
    }
    Ok(tables)
}

// That of the attachment that leads to each network that isn't described.
fn tables_behind(
    alloc: Global,
    n: &Network,
    associated: &FirstNumbers,
) -> Result<Vec<Option<TgwTableNo>>, AllocError>
    requires { AreAssociated n.now associated.now }
    ensures { IfOk result (λ v. v.items ≡ map (table_behind n.now) n.now.fars) }
{
    let fars = n.description().fars.as_slice();
    let mut tables = Vec::with_capacity(alloc, fars.len())?;
    for far in fars {
        tables.push(table_of(n, associated, &far.id))?;
    }
    Ok(tables)
}

/// The described tables of the VPC attachments, and of the attachments that lead to networks that aren't
/// described.
pub struct Associated {
    pub tables: Vec<Option<TgwTableNo>>,
    pub behind: Vec<Option<TgwTableNo>>,
}

impl Drop for Associated {
    fn drop(self) {
        let Associated { tables, behind } = self;
        drop(tables);
        drop(behind);
    }
}

impl Associated {
    /// The tables of a network's attachments.
    pub fn of(alloc: Global, n: &Network) -> Result<Associated, AllocError>
        ensures tables { IfOk result (λ a. a.tables.items ≡ map (table_of_row n.now) n.now.attachments) }
        ensures behind { IfOk result (λ a. a.behind.items ≡ map (table_behind n.now) n.now.fars) }
    {
        let associated = numbers_of(alloc, n)?;
        let tables = tables_of(alloc, n, &associated)?;
        let behind = tables_behind(alloc, n, &associated)?;
        Ok(Associated { tables, behind })
    }
}
