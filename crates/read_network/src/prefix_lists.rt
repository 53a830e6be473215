// Prefix lists.
ghost use Rattle.std.specs.Prelude.{◌≡◌};
ghost use Rattle.serde_json.specs.View.{view};
ghost use Rattle.json_fields.specs.FieldFault.{Reads, in_grammar};
ghost use Rattle.json_fields.specs.Paths.{at_member};
ghost use Rattle.prefix_text.specs.Block.{prefix_of};
ghost use Rattle.read_network.specs.PrefixLists.{block_in, cidr_of, entry_of, has_colon, listed_entries_of, prefix_list_of, prefix_lists_of};

use json_fields::{
    FieldFault, Path, ReadRow, first_of_each, id_at, member, read_kept_items, read_kept_list,
    read_list, str_at,
};
use prefix_text::{Prefix, read_prefix};
use serde_json::Value;
use std::alloc::Global;
use vpc_base::OwnList;
use vpc_model::PrefixList;

fn has_colon(text: &str) -> bool
    ensures { result ≡ has_colon text.now }
{
    text.as_bytes().iter().any(|c| *c == b':')
}

/// The block that the text at the path writes.
fn ipv4_block(alloc: Global, path: &Path, text: &str) -> Result<Prefix, FieldFault>
    ensures { Reads (λ x. x) (in_grammar path.now (prefix_of text.now)) result }
{
    match read_prefix(text.as_bytes()) {
        Some(block) => Ok(block),
        None => Err(FieldFault::bad_text_of(alloc, path)),
    }
}

/// The block that the text at the path writes, and nothing for a text of IPv6.
fn block_in(alloc: Global, path: &Path, text: &str) -> Result<Option<Prefix>, FieldFault>
    ensures { Reads (λ x. x) (block_in path.now text.now) result }
{
    if has_colon(text) {
        return Ok(None);
    }
    Ok(Some(ipv4_block(alloc, path, text)?))
}

fn cidr_of(alloc: Global, value: &Value, path: &Path) -> Result<Option<Prefix>, FieldFault>
    ensures { Reads (λ x. x) (cidr_of (view value.now) path.now) result }
{
    match value.as_str() {
        Some(text) => block_in(alloc, path, text),
        None => Err(FieldFault::wrong_shape_of(alloc, path)),
    }
}

/// The elements of a prefix list's `Cidrs`.
struct Cidrs;

impl ReadRow for Cidrs {
    type Row = Option<Prefix>;

    ghost meaning = { cidr_of };

    fn read(alloc: Global, row: &Value, path: &Path) -> Result<Option<Prefix>, FieldFault> {
        cidr_of(alloc, row, path)
    }
}

fn entry_of(alloc: Global, row: &Value, path: &Path) -> Result<Option<Prefix>, FieldFault>
    ensures { Reads (λ x. x) (entry_of (view row.now) path.now) result }
{
    match str_at(alloc, row, path, "Cidr") {
        Ok(text) => block_in(alloc, &path.member("Cidr"), text),
        Err(fault) => Err(fault),
    }
}

/// The elements of a prefix list's `Entries`.
struct Entries;

impl ReadRow for Entries {
    type Row = Option<Prefix>;

    ghost meaning = { entry_of };

    fn read(alloc: Global, row: &Value, path: &Path) -> Result<Option<Prefix>, FieldFault> {
        entry_of(alloc, row, path)
    }
}

fn prefix_list_of(alloc: Global, row: &Value, path: &Path) -> Result<Option<PrefixList>, FieldFault>
    ensures { Reads (λ x. x) (prefix_list_of (view row.now) path.now) result }
{
    let id = id_at(alloc, row, path, "PrefixListId")?;
    if member(row, "Cidrs").is_none() {
        return Ok(None);
    }
    let entries = read_kept_items::<Prefix, Cidrs>(alloc, row, path, "Cidrs")?;
    Ok(Some(PrefixList {
        id,
        entries: OwnList::of(entries),
    }))
}

/// The rows of `PrefixLists`.
struct PrefixLists;

impl ReadRow for PrefixLists {
    type Row = Option<PrefixList>;

    ghost meaning = { prefix_list_of };

    fn read(alloc: Global, row: &Value, path: &Path) -> Result<Option<PrefixList>, FieldFault> {
        prefix_list_of(alloc, row, path)
    }
}

fn listed_entries_of(alloc: Global, row: &Value, path: &Path) -> Result<PrefixList, FieldFault>
    ensures { Reads (λ x. x) (listed_entries_of (view row.now) path.now) result }
{
    let id = id_at(alloc, row, path, "PrefixListId")?;
    let entries = read_kept_items::<Prefix, Entries>(alloc, row, path, "Entries")?;
    Ok(PrefixList {
        id,
        entries: OwnList::of(entries),
    })
}

/// The rows of `PrefixListEntries`.
struct ListedEntries;

impl ReadRow for ListedEntries {
    type Row = PrefixList;

    ghost meaning = { listed_entries_of };

    fn read(alloc: Global, row: &Value, path: &Path) -> Result<PrefixList, FieldFault> {
        listed_entries_of(alloc, row, path)
    }
}

/// The prefix lists of `PrefixLists` and of `PrefixListEntries`.
pub fn prefix_lists_of(alloc: Global, bundle: &Value) -> Result<Vec<PrefixList>, FieldFault>
    ensures { Reads (λ v. v.items) (prefix_lists_of (view bundle.now)) result }
{
    let mut lists = read_kept_list::<PrefixList, PrefixLists>(alloc, bundle, "PrefixLists")?;
    let mut others = read_list::<ListedEntries>(alloc, bundle, "PrefixListEntries")?;
    lists.append(&mut others)?;
    Ok(first_of_each(alloc, lists)?)
}
