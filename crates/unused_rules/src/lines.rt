// The lines of rules.
ghost use Rattle.std.specs.Prelude.{◌≡◌, ◌++◌, OnOk, slice_get};
ghost use Rattle.block_report.specs.Hops.{dir_text, rule_name};
ghost use Rattle.block_report.specs.Words.{word};
ghost use Rattle.vpc_model.specs.Groups.{permissions_of};
ghost use Rattle.vpc_model.specs.Lookup.{acl_at, group_at};
ghost use Rattle.unused_rules.specs.Lines.{dir_of, need_words, permission_words, row_words, rule_line, rule_words};

use crate::rules::RuleName;
use block_report::{put, put_end, put_header_word, put_number_word, put_word};
use vpc_base::{Dir, Header, NoMemory};
use vpc_model::{AclNo, AclRow, Description, GroupNo, Permission, RuleRef};

// ---- names

fn dir_text(dir: Dir) -> &'static [u8]
    ensures { result.now ≡ dir_text dir }
{
    match dir {
        Dir::Inward => b"in",
        Dir::Outward => b"out",
    }
}

fn put_place(out: &mut Vec<u8>, id: &[u8], dir: Dir) -> Result<(), NoMemory>
    ensures { OnOk result (out.new.items ≡ out.old.items ++ (word id.now ++ word (dir_text dir))) }
{
    put_word(out, id)?;
    put_word(out, dir_text(dir))
}

fn group_id(d: &Description, g: GroupNo) -> &[u8]
    ensures { let group = group_at d.now g in result.now ≡ group.id }
{
    match d.groups.as_slice().get(g.0 as usize) {
        Some(group) => group.id.bytes(),
        None => &[],
    }
}

pub(crate) fn permissions_of(d: &Description, g: GroupNo, dir: Dir) -> &[Permission]
    ensures { result.now ≡ permissions_of dir (group_at d.now g) }
{
    match d.groups.as_slice().get(g.0 as usize) {
        Some(group) => match dir {
            Dir::Inward => group.inward.as_slice(),
            Dir::Outward => group.outward.as_slice(),
        },
        None => &[],
    }
}

// The id of a rule that was told with one, else its number.
fn put_rule_name(out: &mut Vec<u8>, d: &Description, r: &RuleRef) -> Result<(), NoMemory>
    ensures { OnOk result (out.new.items ≡ out.old.items ++ word (rule_name d.now r.now)) }
{
    let place = (r.number as usize).saturating_sub(1);
    let permissions = permissions_of(d, r.group, r.dir);
    match permissions.get(place) {
        Some(Permission { id: Some(id), .. }) => put_word(out, id.bytes()),
        _ => put_number_word(out, u128::from(r.number)),
    }
}

fn put_permission(out: &mut Vec<u8>, d: &Description, r: &RuleRef) -> Result<(), NoMemory>
    ensures { OnOk result (out.new.items ≡ out.old.items ++ permission_words d.now r.now) }
{
    put_place(out, group_id(d, r.group), r.dir)?;
    put_rule_name(out, d, r)
}

fn dir_of(row: &AclRow) -> Dir
    ensures { result ≡ dir_of row.now }
{
    if row.outward {
        Dir::Outward
    } else {
        Dir::Inward
    }
}

// A row goes by its number.
fn put_row(out: &mut Vec<u8>, id: &[u8], row: Option<AclRow>) -> Result<(), NoMemory>
    ensures { OnOk result (out.new.items ≡ out.old.items ++ row_words id.now row) }
{
    match row {
        None => Ok(()),
        Some(row) => {
            put_place(out, id, dir_of(&row))?;
            put_number_word(out, u128::from(row.number))
        }
    }
}

fn acl_id(d: &Description, a: AclNo) -> &[u8]
    ensures { let acl = acl_at d.now a in result.now ≡ acl.id }
{
    match d.acls.as_slice().get(a.0 as usize) {
        Some(acl) => acl.id.bytes(),
        None => &[],
    }
}

pub(crate) fn row_at(d: &Description, a: AclNo, place: u32) -> Option<AclRow>
    ensures { let acl = acl_at d.now a in result ≡ slice_get acl.rows place }
{
    match d.acls.as_slice().get(a.0 as usize) {
        Some(acl) => acl.rows.as_slice().get(place as usize).copied(),
        None => None,
    }
}

fn put_rule(out: &mut Vec<u8>, d: &Description, rule: &RuleName) -> Result<(), NoMemory>
    ensures { OnOk result (out.new.items ≡ out.old.items ++ rule_words d.now rule.now) }
{
    match rule {
        RuleName::Permission(r) => put_permission(out, d, r),
        RuleName::AclRow(a, place) => put_row(out, acl_id(d, *a), row_at(d, *a, *place)),
    }
}

// ---- lines

fn put_need(out: &mut Vec<u8>, need: &Option<Header>) -> Result<(), NoMemory>
    ensures { OnOk result (out.new.items ≡ out.old.items ++ need_words need.now) }
{
    match need {
        None => put_word(out, b"unused"),
        Some(h) => {
            put_word(out, b"needed")?;
            put_header_word(out, h)
        }
    }
}

/// Appends the line of a rule: which request needs it first, or that it is unused.
pub(crate) fn put_rule_line(
    out: &mut Vec<u8>,
    d: &Description,
    rule: &RuleName,
    need: &Option<Header>,
) -> Result<(), NoMemory>
    ensures { OnOk result (out.new.items ≡ out.old.items ++ rule_line d.now rule.now need.now) }
{
    put(out, b"rule")?;
    put_rule(out, d, rule)?;
    put_need(out, need)?;
    put_end(out)
}
