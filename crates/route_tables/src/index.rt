// The index of a route table.
ghost use Rattle.std.specs.Prelude.{◌≡◌, ◌≤◌, ◌<◌, ◌-◌, ◌*◌, ◌^◌, IfOk, IsTrue, length};
ghost use Rattle.box_images.specs.Answers.{Answers};
ghost use Rattle.box_images.specs.Images.{IsImageOfWalk, IsValidImage, header_at};
ghost use Rattle.cut_laws.specs.Dividing.{DivideFirsts};
ghost use Rattle.piece_table.specs.Pieces.{ArePieces, told_at};
ghost use Rattle.vpc_model.specs.Cuts.{all_cuts, cuts_of_route, cuts_of_table};
ghost use Rattle.vpc_model.specs.Lookup.{table_at};
ghost use Rattle.vpc_model.specs.Sound.{is_table};
ghost use Rattle.route_tables.specs.Rows.{AreFewPieces, ChooseRoutes};

use crate::counted::counted_rows;
use crate::locals::local_rows;
use block_pieces::pieces_of;
use box_images::{Image, Part};
use image_tests::piece_on;
use piece_table::{Pieces, Steps};
use reference_check::Network;
use std::alloc::Global;
use std::marker::{Brand, Model};
use std::sync::ledger::{Blank, Ledger};
use vpc_base::NoMemory;
use vpc_model::{Route, TableNo};

/// Which route a table chooses for each address. Contracts see the pieces of the addresses, each of which
/// tells the number of a route.
pub struct RouteIndex {
    pub pieces: Pieces,
}

impl Drop for RouteIndex {
    fn drop(self) {
        let RouteIndex { pieces } = self;
        drop(pieces);
    }
}

impl Model for RouteIndex {
    ghost use Rattle.piece_table.specs.Pieces.{PieceLists};

    ghost Value = { PieceLists };

    ghost view = { λ x. x.pieces };
}

// What is so of all pieces. It does nothing.
fn are_pieces(pieces: &Pieces)
    ensures { ArePieces pieces.now }
{
    let _count = pieces.count();
}

// The index of routes. The steps of making it aren't told.
fn index_of<L: Ledger>(
    alloc: Global,
    n: &Network,
    routes: &[Route],
    blank: Blank,
) -> Result<RouteIndex, NoMemory>
    requires short { length routes.now < 2 ^ 32 }
    requires name { blank.name ≡ L.name }
    requires parts { blank.parts ≡ L.parts }
    requires some { 0 < blank.parts }
    ensures chosen { IfOk result (ChooseRoutes n.now routes.now) }
    ensures few { IfOk result (AreFewPieces n.now routes.now) }
    ensures firsts { IfOk result (λ x. DivideFirsts x.firsts (all_cuts (cuts_of_route n.now) routes.now)) }
    ensures pieces { IfOk result ArePieces }
{
    let locals = pieces_of(alloc, local_rows(alloc, n, routes)?)?;
    let mut steps = Steps::<L>::new(blank);
    let rows = counted_rows(alloc, n, &locals, routes, &mut steps)?;
    let pieces = pieces_of(alloc, rows)?;
    are_pieces(&pieces);
    Ok(RouteIndex { pieces })
}

impl RouteIndex {
    /// The index of a table. There are at most twice as many pieces as blocks in its routes and the prefix
    /// lists that they name, and one more; all but the first begin where such a block begins or has ended.
    /// Takes time n log n in the number of blocks, where those of a list count at most four times, however
    /// often routes name it. Fails for want of memory alone.
    pub fn of(alloc: Global, n: &Network, t: TableNo) -> Result<RouteIndex, NoMemory>
        requires table { IsTrue (is_table n.now t) }
        ensures chosen { IfOk result (ChooseRoutes n.now (table_at n.now t).routes) }
        ensures few { IfOk result (AreFewPieces n.now (table_at n.now t).routes) }
        ensures firsts { IfOk result (λ x. DivideFirsts x.firsts (cuts_of_table n.now (table_at n.now t))) }
        ensures pieces { IfOk result ArePieces }
    {
        let table = &n.description().tables.as_slice()[t.0 as usize];
        index_of::<Brand>(alloc, n, table.routes.as_slice(), Blank::new(1))
    }

    /// The number of the route that the table chooses for a destination, by a search that reads at most
    /// 2 + log2(n) of its n pieces.
    pub fn choose<L: Ledger>(&self, dst: u32, steps: &mut Steps<L>) -> Option<u32>
        ensures told { result ≡ told_at self.now dst }
        ensures later { steps.old ≤ steps.new }
        ensures few { 2 ^ (steps.new - steps.old) ≤ 4 * length self.now.firsts }
    {
        let (_, _, told) = self.pieces.find(dst, steps);
        told
    }

    /// The number of the route that the table chooses for the destinations of an image's headers, for those of them that go
    /// to the same piece as the low corner.
    pub fn choose_on<L: Ledger>(&self, i: &Image, steps: &mut Steps<L>) -> Part<Option<u32>>
        requires valid { IsValidImage i.now }
        requires walk { IsImageOfWalk i.now }
        ensures answer { Answers (DivideFirsts self.now.firsts)
            (λ h. told_at self.now (header_at i.now h).dst) i.now.part result }
        ensures later { steps.old ≤ steps.new }
        ensures few { 2 ^ (steps.new - steps.old) ≤ 4 * length self.now.firsts }
    {
        piece_on(i, &self.pieces, steps)
    }
}
