// The appliances of a network.
ghost use Rattle.std.specs.Prelude.{◌≡◌, ◌<◌, ◌^◌, ◌++◌, ◌∷◌, [], Contains, IfOk, IsTrue, OnOk, filter, length, map};
ghost use Rattle.vpc_model.specs.Appliances.{appliances_of, boxes_of_kind, is_at_interface};
ghost use Rattle.vpc_model.specs.Lookup.{eni_no};
ghost use Rattle.appliances.specs.Passing.{kind_passes_at};

use crate::kinds::{kind_boxes, kind_passes};
use header_boxes::Box5;
use reference_check::Network;
use std::alloc::Global;
use std::marker::Model;
use vpc_base::{Header, NoMemory, OwnList};
use vpc_model::{Appliance, ApplianceAt, ApplianceKind, EniNo};

fn is_at_interface(at: ApplianceAt) -> bool
    ensures { result ≡ is_at_interface at }
{
    match at {
        ApplianceAt::Interface => true,
        ApplianceAt::Endpoint => false,
    }
}

fn copy_of(kind: &ApplianceKind) -> ApplianceKind
    ensures { result ≡ kind.now }
{
    match kind {
        ApplianceKind::All => ApplianceKind::All,
        ApplianceKind::Nothing => ApplianceKind::Nothing,
        ApplianceKind::Service(from, to) => ApplianceKind::Service(*from, *to),
        ApplianceKind::Peer(block) => ApplianceKind::Peer(*block),
    }
}

fn row_of(
    alloc: Global,
    n: &Network,
    appliance: &Appliance,
) -> Result<(EniNo, OwnList<Box5>), NoMemory>
    requires described { Contains n.now.appliances appliance.now }
    requires interface { IsTrue (is_at_interface appliance.now.at) }
    ensures { IfOk result (λ r. r ≡ (eni_no n.now appliance.now.id, boxes_of_kind appliance.now.kind)) }
{
    let _ = n.description();
    let boxes = kind_boxes(alloc, &appliance.kind)?;
    Ok((n.eni_named(&appliance.id), OwnList::of(boxes)))
}

fn add<T: Drop>(rows: &mut Vec<T>, row: T) -> Result<(), NoMemory>
    ensures { OnOk result (rows.new.items ≡ rows.old.items ++ row ∷ []) }
{
    match rows.push(row) {
        Ok(()) => Ok(()),
        Err(_) => Err(NoMemory),
    }
}

fn rows_of(alloc: Global, n: &Network) -> Result<Vec<(EniNo, OwnList<Box5>)>, NoMemory>
    ensures { IfOk result (λ v. v.items ≡ appliances_of n.now) }
{
    let appliances = n.description().appliances.as_slice();
    let mut rows = Vec::with_capacity(alloc, appliances.len())?;
    for appliance in appliances {
        if is_at_interface(appliance.at) {
            add(&mut rows, row_of(alloc, n, appliance)?)?;
        }
    }
    Ok(rows)
}

/// The interfaces at which appliances are described, in their order, with the boxes of what each forwards.
pub fn appliances_of(
    alloc: Global,
    n: &Network,
) -> Result<OwnList<(EniNo, OwnList<Box5>)>, NoMemory>
    ensures appliances { IfOk result (λ v. v ≡ appliances_of n.now) }
    ensures few { IfOk result (λ v. length v < 2 ^ 32) }
{
    let _ = n.description();
    let rows = rows_of(alloc, n)?;
    Ok(OwnList::of(rows))
}

/// The kinds of the appliances at interfaces, in their order. Contracts see their list.
pub struct Kinds {
    kinds: Vec<ApplianceKind>,
}

impl Drop for Kinds {
    fn drop(self) {
        let Kinds { kinds } = self;
        drop(kinds);
    }
}

impl Model for Kinds {
    ghost use Rattle.std.specs.Prelude.{List};
    ghost use Rattle.vpc_model.specs.declared.rows.ApplianceKind.{ApplianceKind};

    ghost Value = { List ApplianceKind };

    ghost view = { λ k. k.kinds.items };
}

impl Kinds {
    /// The kinds of a network's appliances at interfaces.
    pub fn of(alloc: Global, n: &Network) -> Result<Kinds, NoMemory>
        ensures { IfOk result (λ k. k ≡ map (λ a. a.kind)
            (filter (λ a. is_at_interface a.at) n.now.appliances)) }
    {
        let appliances = n.description().appliances.as_slice();
        let mut kinds = Vec::with_capacity(alloc, appliances.len())?;
        for appliance in appliances {
            if is_at_interface(appliance.at) {
                add(&mut kinds, copy_of(&appliance.kind))?;
            }
        }
        Ok(Kinds { kinds })
    }

    /// Whether the appliance of this number forwards the header. No number has another one.
    pub fn passes(&self, k: u32, h: &Header) -> bool
        ensures { result ≡ kind_passes_at self.now k h.now }
    {
        match self.kinds.get(k as usize) {
            Some(kind) => kind_passes(kind, h),
            None => false,
        }
    }
}
