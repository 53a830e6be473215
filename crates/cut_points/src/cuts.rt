// The cuts of a description.
ghost use Rattle.std.specs.Prelude.{◌≡◌, IfOk, OnOk};
ghost use Rattle.header_boxes.specs.Boxes.{IsValid};
ghost use Rattle.header_boxes.specs.Cells.{AreAscending};
ghost use Rattle.vpc_model.specs.Internet.{unroutable_blocks};
ghost use Rattle.vpc_model.specs.Cuts.{cuts_of, fixed_cuts, on_sides, unbounded_standing};
ghost use Rattle.vpc_model.specs.Report.{IsCellCount};
ghost use Rattle.cut_points.specs.Gathered.{gathered_with, own_asked, own_cuts};
ghost use Rattle.cut_points.specs.Cuts.{HasCuts};

use crate::ascending::ascending;
use crate::gathered::Gathered;
use crate::rows::{add_all, add_blocks};
use header_boxes::{Box5, Cuts, cells};
use prefix_text::Prefix;
use std::alloc::{AllocError, Global};
use vpc_base::NoMemory;
use vpc_model::Description;

// The blocks of non-routable addresses.
fn unroutable() -> [Prefix; 7]
    ensures { result ≡ unroutable_blocks }
{
    [
        Prefix::of(0, 8),
        Prefix::of(0x0A00_0000, 8),
        Prefix::of(0x7F00_0000, 8),
        Prefix::of(0xA9FE_0000, 16),
        Prefix::of(0xAC10_0000, 12),
        Prefix::of(0xC0A8_0000, 16),
        Prefix::of(0xE000_0000, 3),
    ]
}

// What is cut in every network: ICMP, TCP and UDP, the non-routable blocks, the
// first port that a NAT gateway takes, and the ICMP echo request.
#[tactic(auto, using(crate::proofs::Additions::additions))]
fn add_fixed(gathered: &mut Gathered) -> Result<(), AllocError>
    ensures { OnOk result (gathered.new ≡ gathered_with gathered.old fixed_cuts) }
{
    gathered.add_protocol(1)?;
    gathered.add_protocol(6)?;
    gathered.add_protocol(17)?;
    add_blocks(gathered, &unroutable())?;
    gathered.add_known_ports()
}

// What every place may ask.
#[tactic(auto, using(crate::proofs::Additions::additions))]
fn add_standing(gathered: &mut Gathered, d: &Description) -> Result<(), AllocError>
    ensures { OnOk result (gathered.new ≡ gathered_with gathered.old (unbounded_standing d.now)) }
{
    add_fixed(gathered)?;
    add_all(gathered, d.vpcs.as_slice())?;
    add_all(gathered, d.interfaces.as_slice())?;
    add_all(gathered, d.acls.as_slice())?;
    add_all(gathered, d.appliances.as_slice())?;
    add_all(gathered, d.fars.as_slice())
}

// What only some places ask.
#[tactic(auto, using(crate::proofs::Additions::additions))]
fn add_asked(gathered: &mut Gathered, d: &Description) -> Result<(), AllocError>
    ensures { OnOk result (gathered.new ≡ gathered_with gathered.old (own_asked d.now)) }
{
    add_all(gathered, d.lists.as_slice())?;
    add_all(gathered, d.tables.as_slice())?;
    add_all(gathered, d.groups.as_slice())?;
    add_all(gathered, d.tgw_tables.as_slice())
}

#[tactic(auto, using(crate::proofs::Additions::rows))]
fn gathered_of(alloc: Global, d: &Description) -> Result<Gathered, AllocError>
    ensures { IfOk result (λ g. g ≡ on_sides (own_cuts d.now)) }
{
    let mut gathered = Gathered::new(alloc);
    add_standing(&mut gathered, d)?;
    add_asked(&mut gathered, d)?;
    Ok(gathered)
}

// What was gathered, in ascending order on each side and each cut once.
fn sorted(gathered: Gathered) -> Cuts
    ensures ascending { AreAscending result }
    ensures members { HasCuts gathered result }
{
    let Gathered { proto, addr, p, q } = gathered;
    Cuts {
        proto: ascending(proto),
        addr: ascending(addr),
        p: ascending(p),
        q: ascending(q),
    }
}

/// The cuts of a description, in ascending order on each side and each once: the numbers at which what
/// becomes of a header may change.
///
/// Protocols are cut at n and n + 1 for ICMP, TCP, UDP and each protocol of a rule. Addresses are cut at
/// the first and one past the last of each block of a row and of the blocks that the internet doesn't
/// carry, and around each private and public address. The sides q and p are cut at the first port and
/// one past the last of each rule's range, p also 1,024 below these and at 1,024, where the ports that a
/// NAT gateway takes begin, and q around the ICMP echo request (2,048). Each box of what an appliance
/// forwards cuts all sides, by its ranges of p and of q both p and q. Of networks that aren't described the
/// blocks of peerings cut addresses. A number past the last one of its side is no cut. Takes time n log n in the rows of the description. Fails for want of memory alone.
pub fn cuts_of(alloc: Global, d: &Description) -> Result<Cuts, NoMemory>
    ensures ascending { IfOk result AreAscending }
    ensures members { IfOk result (HasCuts (cuts_of d.now)) }
{
    let gathered = gathered_of(alloc, d)?;
    Ok(sorted(gathered))
}

/// How many cells the cuts of a description make of a box: only the cuts that divide a side of the box are
/// sorted. A cut at the first number of a side doesn't divide it, and one at the last number does. Takes
/// time n in the rows of the description, and m log m in the cuts that divide a side. Fails for want of
/// memory alone.
pub fn cells_in(alloc: Global, d: &Description, sides: &Box5) -> Result<u128, NoMemory>
    requires { IsValid sides.now }
    ensures { IfOk result (IsCellCount d.now sides.now) }
{
    let mut gathered = gathered_of(alloc, d)?;
    gathered.keep_dividing_sides(sides);
    let cuts = sorted(gathered);
    Ok(cells(&cuts, sides))
}
