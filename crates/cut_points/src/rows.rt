// What each row cuts.
ghost use Rattle.std.specs.Prelude.{◌≡◌, ◌+◌, ◌∷◌, ◌++◌, [], OnOk};
ghost use Rattle.std.specs.List.{flat_map};
ghost use Rattle.vpc_model.specs.Cuts.{address_cuts, all_cuts, block_cuts, cuts_of_acl, cuts_of_acl_row, cuts_of_appliance};
ghost use Rattle.vpc_model.specs.Cuts.{cuts_of_blocks, cuts_of_box, cuts_of_far, cuts_of_interface, cuts_of_list};
ghost use Rattle.vpc_model.specs.Cuts.{cuts_of_tgw_route, cuts_of_tgw_table, cuts_of_vpc};
ghost use Rattle.vpc_model.specs.Appliances.{boxes_of_kind};
ghost use Rattle.cut_points.specs.Gathered.{cuts_of_block, cuts_of_far_kind, cuts_of_kind, cuts_of_pair, gathered_with};
ghost use Rattle.cut_points.specs.Gathered.{own_cuts_of_group, own_cuts_of_permission, own_cuts_of_reach};
ghost use Rattle.cut_points.specs.Gathered.{own_cuts_of_route, own_cuts_of_table};

use crate::gathered::Gathered;
use header_boxes::Box5;
use prefix_text::Prefix;
use std::alloc::AllocError;
use vpc_model::{
    Acl, AclRow, Appliance, ApplianceKind, Far, FarKind, Group, Interface, Permission, PrefixList,
    Reach, Route, RouteTable, TgwRoute, TgwTable, Vpc,
};

/// A row, or a part of one, that cuts the sides of headers. The entries of a prefix list that it names are left to
/// the list's own row.
pub trait Cutting {
    ghost use Rattle.vpc_base.specs.Cuts.{CutLists};

    ghost cuts: { Self → CutLists };

    /// Adds the row's cuts.
    fn add_to(&self, gathered: &mut Gathered) -> Result<(), AllocError>
        ensures { OnOk result (gathered.new ≡ gathered_with gathered.old (cuts self.now)) };
}

/// Adds the cuts of all rows.
pub fn add_all<T: Cutting>(gathered: &mut Gathered, rows: &[T]) -> Result<(), AllocError>
    ensures { OnOk result (gathered.new ≡ gathered_with gathered.old (all_cuts T.cuts rows.now)) }
{
    for row in rows {
        row.add_to(gathered)?;
    }
    Ok(())
}

impl Cutting for Prefix {
    ghost cuts = { cuts_of_block };

    fn add_to(&self, gathered: &mut Gathered) -> Result<(), AllocError> {
        gathered.add_addresses(self.first(), u64::from(self.last()) + 1)
    }
}

/// Adds the cuts of blocks.
#[tactic(auto, using(crate::proofs::Additions::rows))]
pub fn add_blocks(gathered: &mut Gathered, blocks: &[Prefix]) -> Result<(), AllocError>
    ensures { OnOk result (gathered.new ≡ gathered_with gathered.old
        (cuts_of_blocks (flat_map block_cuts blocks.now))) }
{
    add_all(gathered, blocks)
}

// Cuts an address out on both sides.
fn add_address(gathered: &mut Gathered, address: u32) -> Result<(), AllocError>
    ensures { OnOk result (gathered.new ≡ gathered_with gathered.old
        (cuts_of_blocks (address_cuts address))) }
{
    gathered.add_addresses(address, u64::from(address) + 1)
}

// A private address, and the public one if it has one.
#[tactic(auto, using(crate::proofs::Additions::additions))]
impl Cutting for (u32, Option<u32>) {
    ghost cuts = { cuts_of_pair };

    fn add_to(&self, gathered: &mut Gathered) -> Result<(), AllocError> {
        let (private, public) = *self;
        add_address(gathered, private)?;
        match public {
            Some(address) => add_address(gathered, address),
            None => Ok(()),
        }
    }
}

impl Cutting for Vpc {
    ghost cuts = { cuts_of_vpc };

    fn add_to(&self, gathered: &mut Gathered) -> Result<(), AllocError> {
        add_blocks(gathered, self.blocks.as_slice())
    }
}

// The addresses, and then the blocks that are delegated to it.
#[tactic(auto, using(crate::proofs::Additions::rows))]
impl Cutting for Interface {
    ghost cuts = { cuts_of_interface };

    fn add_to(&self, gathered: &mut Gathered) -> Result<(), AllocError> {
        add_all(gathered, self.addresses.as_slice())?;
        add_blocks(gathered, self.prefixes.as_slice())
    }
}

#[tactic(auto, using(crate::proofs::Additions::additions))]
impl Cutting for AclRow {
    ghost cuts = { cuts_of_acl_row };

    fn add_to(&self, gathered: &mut Gathered) -> Result<(), AllocError> {
        self.block.add_to(gathered)?;
        gathered.add_rule(self.proto, self.q_from, self.q_to)
    }
}

impl Cutting for Acl {
    ghost cuts = { cuts_of_acl };

    fn add_to(&self, gathered: &mut Gathered) -> Result<(), AllocError> {
        add_all(gathered, self.rows.as_slice())
    }
}

impl Cutting for PrefixList {
    ghost cuts = { cuts_of_list };

    fn add_to(&self, gathered: &mut Gathered) -> Result<(), AllocError> {
        add_blocks(gathered, self.entries.as_slice())
    }
}

#[tactic(auto, using(crate::proofs::Additions::additions))]
impl Cutting for Reach {
    ghost cuts = { own_cuts_of_reach };

    fn add_to(&self, gathered: &mut Gathered) -> Result<(), AllocError> {
        match self {
            Reach::Block(block) => block.add_to(gathered),
            Reach::List(_) => Ok(()),
        }
    }
}

impl Cutting for Route {
    ghost cuts = { own_cuts_of_route };

    fn add_to(&self, gathered: &mut Gathered) -> Result<(), AllocError> {
        self.reach.add_to(gathered)
    }
}

impl Cutting for RouteTable {
    ghost cuts = { own_cuts_of_table };

    fn add_to(&self, gathered: &mut Gathered) -> Result<(), AllocError> {
        add_all(gathered, self.routes.as_slice())
    }
}

#[tactic(auto, using(crate::proofs::Additions::rows))]
impl Cutting for Permission {
    ghost cuts = { own_cuts_of_permission };

    fn add_to(&self, gathered: &mut Gathered) -> Result<(), AllocError> {
        add_blocks(gathered, self.blocks.as_slice())?;
        gathered.add_rule(self.proto, self.q_from, self.q_to)
    }
}

#[tactic(auto, using(crate::proofs::Additions::rows))]
impl Cutting for Group {
    ghost cuts = { own_cuts_of_group };

    fn add_to(&self, gathered: &mut Gathered) -> Result<(), AllocError> {
        add_all(gathered, self.inward.as_slice())?;
        add_all(gathered, self.outward.as_slice())
    }
}

impl Cutting for TgwRoute {
    ghost cuts = { cuts_of_tgw_route };

    fn add_to(&self, gathered: &mut Gathered) -> Result<(), AllocError> {
        self.block.add_to(gathered)
    }
}

impl Cutting for TgwTable {
    ghost cuts = { cuts_of_tgw_table };

    fn add_to(&self, gathered: &mut Gathered) -> Result<(), AllocError> {
        add_all(gathered, self.routes.as_slice())
    }
}

#[tactic(auto, using(crate::proofs::Additions::additions))]
impl Cutting for Box5 {
    ghost cuts = { cuts_of_box };

    fn add_to(&self, gathered: &mut Gathered) -> Result<(), AllocError> {
        gathered.add_protocols(self.proto)?;
        gathered.add_address_range(self.src)?;
        gathered.add_address_range(self.dst)?;
        gathered.add_ranges(self.p, self.q)
    }
}

#[tactic(auto, using(crate::proofs::Additions::additions))]
impl Cutting for ApplianceKind {
    ghost cuts = { cuts_of_kind };

    fn add_to(&self, gathered: &mut Gathered) -> Result<(), AllocError> {
        add_all(gathered, self.boxes().as_slice())
    }
}

impl Cutting for Appliance {
    ghost cuts = { cuts_of_appliance };

    fn add_to(&self, gathered: &mut Gathered) -> Result<(), AllocError> {
        self.kind.add_to(gathered)
    }
}

// The blocks of a peering's two sides.
#[tactic(auto, using(crate::proofs::Additions::sides))]
impl Cutting for FarKind {
    ghost cuts = { cuts_of_far_kind };

    fn add_to(&self, gathered: &mut Gathered) -> Result<(), AllocError> {
        match self {
            FarKind::Peering(requester, accepter) => {
                add_blocks(gathered, requester.as_slice())?;
                add_blocks(gathered, accepter.as_slice())
            }
            FarKind::PrivateGateway(_) | FarKind::Attachment(_) | FarKind::Endpoint(_) => Ok(()),
        }
    }
}

impl Cutting for Far {
    ghost cuts = { cuts_of_far };

    fn add_to(&self, gathered: &mut Gathered) -> Result<(), AllocError> {
        self.kind.add_to(gathered)
    }
}
