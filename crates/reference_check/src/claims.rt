// Which rows of a list name which targets, such as which tables name which subnets.
ghost use Rattle.std.specs.Prelude.{◌≡◌, [], if◌then◌else◌, IfOk, List, ℕ, length, map, replicate};
ghost use Rattle.vpc_model.specs.Accepted.{duplicates_in, is_main_of};
ghost use Rattle.vpc_model.specs.Lookup.{is_listed};
ghost use Rattle.reference_check.specs.declared.claims.Claim.{Claim};
ghost use Rattle.reference_check.specs.declared.claims.Claim.TheVariants.{Unclaimed};
ghost use Rattle.reference_check.specs.Claims.{claims_by, first_of, noted, noted_all, noted_at};

use crate::ids::Ids;
use std::alloc::{AllocError, Global};
use vpc_model::{Acl, Id, InternetGateway, RouteTable};

/// How many rows name a target, and the number of the first that does.
#[derive(Clone, Copy, PartialEq, Eq)]
pub enum Claim {
    Unclaimed,
    Once(usize),
    /// Two rows or more do.
    Twice(usize),
}

impl Claim {
    /// The number of the first row that names the target.
    pub fn first(self) -> Option<usize>
        ensures { result ≡ first_of self }
    {
        match self {
            Claim::Unclaimed => None,
            Claim::Once(row) | Claim::Twice(row) => Some(row),
        }
    }

    // What is known of the target once this row names it too.
    fn noted(self, row: usize) -> Claim
        ensures { result ≡ noted row self }
    {
        match self {
            Claim::Unclaimed => Claim::Once(row),
            Claim::Once(first) if first != row => Claim::Twice(first),
            other => other,
        }
    }
}

// Notes that a row names a target.
fn note(claims: &mut [Claim], targets: &Ids, row: usize, id: &Id)
    requires { length claims.old ≡ length targets.now }
    ensures { claims.new ≡ noted_at targets.now row id.now claims.old }
{
    if let Some(k) = targets.number(id.bytes()) {
        claims[k] = claims[k].noted(row);
    }
}

// Notes the targets that a row names.
fn note_all(claims: &mut [Claim], targets: &Ids, row: usize, ids: &[Id])
    requires count { length claims.old ≡ length targets.now }
    requires differ { duplicates_in targets.now ≡ [] }
    ensures { (f : List ℕ → Claim) → claims.old ≡ map f targets.now
        → claims.new ≡ noted_all targets.now row ids.now f }
{
    for id in ids {
        note(claims, targets, row, id);
    }
}

/// A row that names targets.
pub trait Claimant {
    ghost use Rattle.std.specs.Prelude.{List, ℕ};

    ghost claimed: { Self → List (List ℕ) };

    fn claimed(&self) -> &[Id]
        ensures { result.now ≡ claimed self.now };
}

impl Claimant for RouteTable {
    ghost claimed = { λ t. t.subnets };

    fn claimed(&self) -> &[Id] {
        self.subnets.as_slice()
    }
}

impl Claimant for Acl {
    ghost claimed = { λ a. a.subnets };

    fn claimed(&self) -> &[Id] {
        self.subnets.as_slice()
    }
}

impl Claimant for InternetGateway {
    ghost claimed = { λ g. g.vpcs };

    fn claimed(&self) -> &[Id] {
        self.vpcs.as_slice()
    }
}

// Notes the targets that the rows of a list name.
fn claim_all<R: Claimant>(claims: &mut [Claim], targets: &Ids, rows: &[R])
    requires count { length claims.old ≡ length targets.now }
    requires differ { duplicates_in targets.now ≡ [] }
    ensures { claims.old ≡ replicate (length targets.now) Unclaimed
        → claims.new ≡ claims_by (λ t r. is_listed t (R.claimed r)) targets.now rows.now }
{
    for (r, row) in rows.iter().enumerate() {
        note_all(claims, targets, r, row.claimed());
    }
}

fn unclaimed(alloc: Global, count: usize) -> Result<Vec<Claim>, AllocError>
    ensures { IfOk result (λ v. v.items ≡ replicate count Unclaimed) }
{
    vec![in alloc; Claim::Unclaimed; count]
}

/// The claims to each of the targets, of which there are `count`.
pub fn claims_of<R: Claimant>(
    alloc: Global,
    targets: &Ids,
    count: usize,
    rows: &[R],
) -> Result<Vec<Claim>, AllocError>
    requires count { count ≡ length targets.now }
    requires differ { duplicates_in targets.now ≡ [] }
    ensures { IfOk result (λ v. v.items ≡ claims_by (λ t r. is_listed t (R.claimed r)) targets.now rows.now) }
{
    let mut claims = unclaimed(alloc, count)?;
    claim_all(claims.as_mut_slice(), targets, rows);
    Ok(claims)
}

// Notes the VPC of a main table.
fn note_main(claims: &mut [Claim], vpcs: &Ids, row: usize, table: &RouteTable)
    requires count { length claims.old ≡ length vpcs.now }
    requires differ { duplicates_in vpcs.now ≡ [] }
    ensures { (f : List ℕ → Claim) → claims.old ≡ map f vpcs.now
        → claims.new ≡ map (λ t. if is_main_of t table.now then noted row (f t) else f t) vpcs.now }
{
    if table.main {
        note(claims, vpcs, row, &table.vpc);
    }
}

// Notes the VPCs of the main tables among these.
fn claim_mains(claims: &mut [Claim], vpcs: &Ids, tables: &[RouteTable])
    requires count { length claims.old ≡ length vpcs.now }
    requires differ { duplicates_in vpcs.now ≡ [] }
    ensures { claims.old ≡ replicate (length vpcs.now) Unclaimed
        → claims.new ≡ claims_by is_main_of vpcs.now tables.now }
{
    for (r, table) in tables.iter().enumerate() {
        note_main(claims, vpcs, r, table);
    }
}

/// The main tables of each VPC, of which there are `count`.
pub fn main_tables(
    alloc: Global,
    vpcs: &Ids,
    count: usize,
    tables: &[RouteTable],
) -> Result<Vec<Claim>, AllocError>
    requires count { count ≡ length vpcs.now }
    requires differ { duplicates_in vpcs.now ≡ [] }
    ensures { IfOk result (λ v. v.items ≡ claims_by is_main_of vpcs.now tables.now) }
{
    let mut claims = unclaimed(alloc, count)?;
    claim_mains(claims.as_mut_slice(), vpcs, tables);
    Ok(claims)
}
