// Which route is chosen for the destinations of all headers. The steps of the search aren't told.
ghost use Rattle.std.specs.Prelude.{◌≡◌, ◌<◌, IsTrue, Some};
ghost use Rattle.box_images.specs.Answers.{Answers};
ghost use Rattle.box_images.specs.Images.{IsImageOfWalk, IsValidImage, header_at};
ghost use Rattle.box_steps.specs.Cuts.{AtPlace};
ghost use Rattle.cut_laws.specs.Dividing.{Divide, DivideFirsts};
ghost use Rattle.piece_table.specs.Pieces.{told_at};
ghost use Rattle.transit_gateway.specs.Index.{routes_of};
ghost use Rattle.vpc_model.specs.Cuts.{cuts_of_tgw_table};
ghost use Rattle.vpc_model.specs.Far.{table_of_attachment_id};
ghost use Rattle.vpc_model.specs.Firewalls.{entrance_table};
ghost use Rattle.vpc_model.specs.Lookup.{far_at, table_at, table_of, tgw_table_at};
ghost use Rattle.vpc_model.specs.Routes.{chosen_route};
ghost use Rattle.vpc_model.specs.Sound.{is_subnet, is_table, is_tgw_table};
ghost use Rattle.vpc_model.specs.Transit.{chosen_tgw_route, table_of_attachment};
ghost use Rattle.vpc_model.specs.declared.places.Came.{Came};
ghost use Rattle.vpc_model.specs.declared.places.Place.TheVariants as places;
ghost use Rattle.box_steps.specs.Outside.{IsAttachment};

use box_images::{Image, Part};
use fabric::Fabric;
use piece_table::Steps;
use route_tables::RouteIndex;
use std::marker::Brand;
use std::sync::ledger::{Blank, Ledger};
use vpc_model::{AttNo, EnterBy, FarNo, SubnetNo, TableNo, TgwTableNo, VpcNo};

fn search_on<L: Ledger>(blank: Blank, index: &RouteIndex, i: &Image) -> Part<Option<u32>>
    requires name { blank.name ≡ L.name }
    requires parts { blank.parts ≡ L.parts }
    requires some { 0 < blank.parts }
    requires valid { IsValidImage i.now }
    requires walk { IsImageOfWalk i.now }
    ensures { Answers (DivideFirsts index.now.firsts)
        (λ h. told_at index.now (header_at i.now h).dst) i.now.part result }
{
    let mut steps = Steps::<L>::new(blank);
    index.choose_on(i, &mut steps)
}

/// The number of the route that the table of a subnet chooses, in whatever way the packets came to
/// its router.
pub fn route_on(f: &Fabric, s: SubnetNo, i: &Image) -> Part<Option<u32>>
    requires subnet { IsTrue (is_subnet f.now s) }
    requires valid { IsValidImage i.now }
    requires walk { IsImageOfWalk i.now }
    ensures { (came : Came) → let table = table_at f.now (table_of f.now s) in
        Answers (AtPlace f.now (places.Router s came))
        (λ h. chosen_route f.now table.routes (header_at i.now h).dst) i.now.part result }
{
    let n = f.network();
    let _ = n.description();
    let t = n.table_of(s);
    search_on::<Brand>(Blank::new(1), f.routes(t), i)
}

/// The number of the route that the table of a gateway chooses, by which packets enter a VPC.
pub fn entrance_route_on(
    f: &Fabric,
    v: VpcNo,
    by: EnterBy,
    t: TableNo,
    i: &Image,
) -> Part<Option<u32>>
    requires table { IsTrue (is_table f.now t) }
    requires own { entrance_table f.now v by ≡ Some t }
    requires valid { IsValidImage i.now }
    requires walk { IsImageOfWalk i.now }
    ensures { let table = table_at f.now t in Answers (AtPlace f.now (places.Enter v by))
        (λ h. chosen_route f.now table.routes (header_at i.now h).dst) i.now.part result }
{
    search_on::<Brand>(Blank::new(1), f.routes(t), i)
}

fn tgw_search_on<L: Ledger>(blank: Blank, f: &Fabric, t: TgwTableNo, i: &Image) -> Part<Option<u32>>
    requires name { blank.name ≡ L.name }
    requires parts { blank.parts ≡ L.parts }
    requires some { 0 < blank.parts }
    requires table { IsTrue (is_tgw_table f.now t) }
    requires valid { IsValidImage i.now }
    requires walk { IsImageOfWalk i.now }
    ensures { Answers (Divide (cuts_of_tgw_table (tgw_table_at f.now t)))
        (λ h. chosen_tgw_route (routes_of f.now t) (header_at i.now h).dst) i.now.part result }
{
    let mut steps = Steps::<L>::new(blank);
    f.transit().choose_on(t, i, &mut steps)
}

/// The number of the route that the table of a transit gateway attachment chooses.
pub fn tgw_route_on(f: &Fabric, a: AttNo, t: TgwTableNo, i: &Image) -> Part<Option<u32>>
    requires table { IsTrue (is_tgw_table f.now t) }
    requires own { table_of_attachment f.now a ≡ Some t }
    requires valid { IsValidImage i.now }
    requires walk { IsImageOfWalk i.now }
    ensures { (entered : SubnetNo) → Answers (AtPlace f.now (places.Tgw a entered))
        (λ h. chosen_tgw_route (routes_of f.now t) (header_at i.now h).dst) i.now.part result }
{
    tgw_search_on::<Brand>(Blank::new(1), f, t, i)
}

/// The number of the route that the table of the attachment chooses which leads to a network that isn't described.
pub fn tgw_route_from(f: &Fabric, k: FarNo, t: TgwTableNo, i: &Image) -> Part<Option<u32>>
    requires table { IsTrue (is_tgw_table f.now t) }
    requires attachment { let row = far_at f.now k in IsAttachment row.kind }
    requires own { let row = far_at f.now k in table_of_attachment_id f.now row.id ≡ Some t }
    requires valid { IsValidImage i.now }
    requires walk { IsImageOfWalk i.now }
    ensures { Answers (AtPlace f.now (places.FarIn k))
        (λ h. chosen_tgw_route (routes_of f.now t) (header_at i.now h).dst) i.now.part result }
{
    tgw_search_on::<Brand>(Blank::new(1), f, t, i)
}
