// The rows of an ACL, by direction and number.
ghost use Rattle.std.specs.Prelude.{◌≡◌, IfOk, IsPermutation, IsTrue, OnOk, filter, find};
ghost use Rattle.std.specs.List.Sorted.{IsSortedByKey, IsStableByKey};
ghost use Rattle.std.specs.Ordering.{nat_cmp};
ghost use Rattle.vpc_model.specs.Acls.{acl_verdict, is_of_dir, verdict_of_row};
ghost use Rattle.network_acls.specs.Tried.{AreTried, row_matches};

use crate::on_images::first_verdict_on;
use box_images::{Image, Part};
use std::alloc::{AllocError, Global};
use std::marker::Model;
use vpc_base::{Dir, Header, NoMemory};
use vpc_model::{AclNo, AclRow, Description, far_address, is_between, matches_proto};

// The number of the rule that ends every ACL and denies (EC2 API, DescribeNetworkAcls).
pub const LAST_RULE: u16 = 32767;

fn is_of(row: &AclRow, dir: Dir) -> bool
    ensures { result ≡ is_of_dir dir row.now }
{
    match dir {
        Dir::Inward => !row.outward,
        Dir::Outward => row.outward,
    }
}

// The rows of a direction, as they stand.
fn rows_of(alloc: Global, rows: &[AclRow], dir: Dir) -> Result<Vec<AclRow>, AllocError>
    ensures { IfOk result (λ v. v.items ≡ filter (is_of_dir dir) rows.now) }
{
    let mut kept = Vec::new(alloc);
    for row in rows {
        if is_of(row, dir) {
            kept.push(*row)?;
        }
    }
    Ok(kept)
}

// Rows of one number stay in the order in which they stand.
fn sort(rows: &mut Vec<AclRow>) -> Result<(), AllocError>
    ensures same { IsPermutation rows.old.items rows.new.items }
    ensures sorted { OnOk result (IsSortedByKey (λ r. r.number) nat_cmp rows.new.items) }
    ensures stable { IsStableByKey (λ r. r.number) nat_cmp rows.old.items rows.new.items }
{
    rows.sort_by_key(|row| row.number)?;
    Ok(())
}

// The rows of a direction, in the order in which they are tried.
fn tried(alloc: Global, rows: &[AclRow], dir: Dir) -> Result<Vec<AclRow>, AllocError>
    ensures tried { IfOk result (λ v. AreTried dir v.items) }
    ensures same { IfOk result (λ v. IsPermutation (filter (is_of_dir dir) rows.now) v.items) }
    ensures verdicts { IfOk result
        (λ v. (h : Header) → acl_verdict v.items dir h ≡ acl_verdict rows.now dir h) }
{
    let mut kept = rows_of(alloc, rows, dir)?;
    sort(&mut kept)?;
    Ok(kept)
}

// Whether a row of the direction matches.
fn matches(row: &AclRow, dir: Dir, h: &Header) -> bool
    ensures { result ≡ row_matches dir h.now row.now }
{
    matches_proto(row.proto, h.proto)
        && (is_between(row.q_from, row.q_to, h.q) && row.block.holds(far_address(dir, h)))
}

// What the first row that matches says.
fn first_verdict(rows: &[AclRow], dir: Dir, h: &Header) -> (bool, u16)
    ensures { result ≡ verdict_of_row (find (row_matches dir h.now) rows.now) }
{
    for row in rows {
        if matches(row, dir, h) {
            return (row.allow, row.number);
        }
    }
    (false, LAST_RULE)
}

/// The rows of a network ACL by direction, each in the order in which they are tried: by ascending number,
/// rows of one number as they were described. Contracts see the two lists.
pub struct AclIndex {
    inward: Vec<AclRow>,
    outward: Vec<AclRow>,
}

impl Drop for AclIndex {
    fn drop(self) {
        let AclIndex { inward, outward } = self;
        drop(inward);
        drop(outward);
    }
}

impl Model for AclIndex {
    ghost use Rattle.vpc_base.specs.declared.headers.Dir.TheVariants as dirs;
    ghost use Rattle.network_acls.specs.Tried.{AreTried, TriedRows};

    ghost Value = { TriedRows };

    ghost view = { λ i. record { inward = i.inward.items; outward = i.outward.items } };

    ghost invariant = { λ i. AreTried dirs.Inward i.inward.items × AreTried dirs.Outward i.outward.items };
}

impl AclIndex {
    ghost use Rattle.std.specs.Prelude.{IfOk, IsTrue};
    ghost use Rattle.vpc_model.specs.Acls.{acl_verdict};
    ghost use Rattle.vpc_model.specs.Lookup.{acl_at};
    ghost use Rattle.vpc_model.specs.Sound.{is_acl};
    ghost use Rattle.box_images.specs.Answers.{Answers};
    ghost use Rattle.box_images.specs.Images.{IsImageOfWalk, IsValidImage, header_at};
    ghost use Rattle.network_acls.specs.Tried.{DivideRows, SortsRows, rows_tried};

    /// The index of an ACL. It takes time n log n in the ACL's rows.
    pub fn of(alloc: Global, d: &Description, a: AclNo) -> Result<AclIndex, NoMemory>
        requires { IsTrue (is_acl d.now a) }
        ensures { let acl = acl_at d.now a in IfOk result (SortsRows acl.rows) }
    {
        let rows = d.acls.as_slice()[a.0 as usize].rows.as_slice();
        Ok(AclIndex {
            inward: tried(alloc, rows, Dir::Inward)?,
            outward: tried(alloc, rows, Dir::Outward)?,
        })
    }

    /// Whether the ACL lets the packet pass, and the number of the rule that decides: 32767 for the rule
    /// that ends every ACL. It takes no memory.
    pub fn decide(&self, dir: Dir, h: &Header) -> (bool, u16)
        ensures { result ≡ acl_verdict (rows_tried dir self.now) dir h.now }
    {
        match dir {
            Dir::Inward => first_verdict(self.inward.as_slice(), Dir::Inward, h),
            Dir::Outward => first_verdict(self.outward.as_slice(), Dir::Outward, h),
        }
    }

    /// Whether the ACL lets the headers of an image pass, and the number of the rule that decides, on a body. It asks the
    /// rows in their order up to the first one that matches, in time that grows with them: AWS allows 40 rows in a direction
    /// at most (VPC User Guide, "Network ACL quotas").
    pub fn decide_on(&self, dir: Dir, i: &Image) -> Part<(bool, u16)>
        requires valid { IsValidImage i.now }
        requires walk { IsImageOfWalk i.now }
        ensures { Answers (DivideRows (rows_tried dir self.now))
            (λ h. acl_verdict (rows_tried dir self.now) dir (header_at i.now h)) i.now.part result }
    {
        match dir {
            Dir::Inward => first_verdict_on(self.inward.as_slice(), Dir::Inward, i),
            Dir::Outward => first_verdict_on(self.outward.as_slice(), Dir::Outward, i),
        }
    }
}
