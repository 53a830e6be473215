// The lines of routes that tables choose.
ghost use Rattle.std.specs.Prelude.{◌≡◌, ◌++◌, IsTrue, OnOk, slice_index_or};
ghost use Rattle.block_report.specs.Words.{word};
ghost use Rattle.prefix_text.specs.Block.{block_text};
ghost use Rattle.vpc_model.specs.Lookup.{tgw_table_at};
ghost use Rattle.vpc_model.specs.Sound.{is_route, is_tgw_route};
ghost use Rattle.vpc_model.specs.Step.Transit.{no_tgw_route};
ghost use Rattle.vpc_model.specs.Told.{reach_text, target_id};
ghost use Rattle.walk_reasons.specs.Reasons.{attachment_text, route_line, transit_line};

use block_report::{put, put_end, put_word};
use fabric::Fabric;
use fabric::rows::{route_at, table_at};
use prefix_text::{Prefix, put_prefix};
use reference_check::Network;
use vpc_base::NoMemory;
use vpc_model::{Id, Reach, TableNo, Target, TgwRoute, TgwTableNo};

fn put_block_word(out: &mut Vec<u8>, block: &Prefix) -> Result<(), NoMemory>
    ensures { OnOk result (out.new.items ≡ out.old.items ++ word (block_text block.now)) }
{
    put(out, b" ")?;
    put_prefix(out, block)
}

fn put_reach_word(out: &mut Vec<u8>, reach: &Reach) -> Result<(), NoMemory>
    ensures { OnOk result (out.new.items ≡ out.old.items ++ word (reach_text reach.now)) }
{
    match reach {
        Reach::Block(block) => put_block_word(out, block),
        Reach::List(id) => put_word(out, id.bytes()),
    }
}

fn target_id(target: &Target) -> &[u8]
    ensures { result.now ≡ target_id target.now }
{
    match target {
        Target::Local => b"local",
        Target::Internet(id) => id.bytes(),
        Target::Nat(id) => id.bytes(),
        Target::Transit(id) => id.bytes(),
        Target::Peer(id) => id.bytes(),
        Target::Interface(id) => id.bytes(),
        Target::Other(id) => id.bytes(),
    }
}

/// Appends the line of a route: its table, the block or prefix list that it reaches, and its target.
pub fn put_route_line(out: &mut Vec<u8>, f: &Fabric, t: TableNo, k: u32) -> Result<(), NoMemory>
    requires { IsTrue (is_route f.now t k) }
    ensures { OnOk result (out.new.items ≡ out.old.items ++ route_line f.now t k) }
{
    let route = route_at(f, t, k);
    put(out, b"route")?;
    put_word(out, table_at(f, t).id.bytes())?;
    put_reach_word(out, &route.reach)?;
    put_word(out, target_id(&route.target))?;
    put_end(out)
}

// A route of a transit gateway's table by its number there.
fn tgw_route_at<'a>(n: &'a Network, t: TgwTableNo, k: u32) -> &'a TgwRoute
    requires { IsTrue (is_tgw_route n.now t k) }
    ensures { let table = tgw_table_at n.now t in result.now ≡ slice_index_or table.routes k no_tgw_route }
{
    &n.tgw_table_at(t).routes.as_slice()[k as usize]
}

fn attachment_text(attachment: &Option<Id>) -> &[u8]
    ensures { result.now ≡ attachment_text attachment.now }
{
    match attachment {
        None => b"-",
        Some(id) => id.bytes(),
    }
}

/// Appends the line of a route of a transit gateway's table: the table, the block that it reaches, and its attachment or a dash.
pub fn put_transit_line(
    out: &mut Vec<u8>,
    n: &Network,
    t: TgwTableNo,
    k: u32,
) -> Result<(), NoMemory>
    requires { IsTrue (is_tgw_route n.now t k) }
    ensures { OnOk result (out.new.items ≡ out.old.items ++ transit_line n.now t k) }
{
    let route = tgw_route_at(n, t, k);
    put(out, b"route")?;
    put_word(out, n.tgw_table_at(t).id.bytes())?;
    put_block_word(out, &route.block)?;
    put_word(out, attachment_text(&route.attachment))?;
    put_end(out)
}
