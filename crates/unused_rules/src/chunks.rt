// Permissions that are judged together: where no request needs all of them, none needs one of them.
ghost use Rattle.std.specs.Prelude.{◌≡◌, IfSome, IsTrue};
ghost use Rattle.unused_rules.specs.Chunks.{IsIn, IsOf, alone};

use crate::lines::permissions_of;
use crate::rules::RuleName;
use vpc_base::Dir;
use vpc_model::{Description, GroupNo, RuleRef};

// How many permissions are judged together at most.
const LONGEST: u32 = 16;

/// Permissions that stand one after another in one direction of a security group.
#[derive(Clone, Copy)]
pub struct Chunk {
    pub group: GroupNo,
    pub dir: Dir,
    /// The place of the first, from 0.
    pub from: u32,
    pub count: u32,
}

/// The chunk of one permission.
pub(crate) fn alone(r: &RuleRef) -> Chunk
    ensures { result ≡ alone r.now }
{
    Chunk {
        group: r.group,
        dir: r.dir,
        from: r.number.saturating_sub(1),
        count: 1,
    }
}

fn begun_by(d: &Description, r: &RuleRef) -> Option<Chunk>
    ensures { IfSome result (λ c. IsIn c r.now) }
{
    let one = alone(r);
    let is_followed = permissions_of(d, r.group, r.dir).len() > r.number as usize;
    if one.from % LONGEST == 0 && is_followed {
        Some(Chunk {
            count: LONGEST,
            ..one
        })
    } else {
        None
    }
}

/// The chunk that a rule begins, if it does: each sixteenth permission does where another follows it. No answer depends on it,
/// but the time that all take.
pub(crate) fn chunk_from(d: &Description, rule: &RuleName) -> Option<Chunk>
    ensures { IfSome result (λ c. IsOf (Some c) rule.now) }
{
    match rule {
        RuleName::Permission(r) => begun_by(d, r),
        RuleName::AclRow(_, _) => None,
    }
}

fn is_in(c: &Chunk, r: &RuleRef) -> bool
    ensures { IsTrue result → IsIn c.now r.now }
{
    let place = r.number.saturating_sub(1);
    let is_there = c.from <= place && place - c.from < c.count;
    r.group == c.group && (r.dir == c.dir && is_there)
}

/// Whether a rule is a permission of the chunk, if there is one.
pub(crate) fn is_of(chunk: &Option<Chunk>, rule: &RuleName) -> bool
    ensures { IsTrue result → IsOf chunk.now rule.now }
{
    match (chunk, rule) {
        (Some(c), RuleName::Permission(r)) => is_in(c, r),
        _ => false,
    }
}
