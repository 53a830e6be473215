// Requests that come to one interface by the same places, toward whatever end.
ghost use Rattle.std.specs.Prelude.{◌≡◌, IfSome, IsTrue};
ghost use Rattle.box_steps.specs.Moments.{IsBoxMoment};
ghost use Rattle.box_walk.specs.Arriving.{AreArrivals};
ghost use Rattle.box_walk.specs.Asking.{homes_by};
ghost use Rattle.box_walk.specs.Told.{AreRequests};
ghost use Rattle.box_walk.specs.Walks.{BeginsFresh};
ghost use Rattle.vpc_base.specs.declared.headers.Label.TheVariants as labels;
ghost use Rattle.vpc_model.specs.Appliances.{appliances_of};

use crate::verdict::{Word, word_of_arrival};
use crate::ways::{come_to, is_within};
use appliances::Deciders;
use box_images::Image;
use box_steps::{BoxMoment, let_in};
use fabric::Fabric;
use packet_emulator::same_end;
use vpc_model::{End, EniNo, FarNo};

/// Requests that come to one interface by the same places, before its groups are asked.
#[derive(Clone, Copy)]
pub struct Arrivals {
    /// The headers with which they come there.
    pub header: Image,
    pub end: EniNo,
    /// What stops the replies of those that it lets in.
    pub back: Word,
}

/// The arrivals of requests of a moment at the start, for a part of them; nothing where they come to no interface but the
/// start's, or where their replies part.
pub fn arrivals_of(
    f: &Fabric,
    deciders: &Deciders,
    start: End,
    links: &[FarNo],
    m: &mut BoxMoment,
) -> Option<Arrivals>
    requires appliances { deciders.now.appliances ≡ appliances_of f.now }
    requires moment { IsBoxMoment f.now labels.Opening m.old }
    requires fresh { BeginsFresh labels.Opening m.old }
    requires requests { AreRequests start m.old }
    ensures { IfSome result
        (AreArrivals f.now (appliances_of f.now) (homes_by links.now start) m.old.header.part) }
{
    // That the network is accepted is a clause of this call.
    let _ = f.network().description();
    let e = come_to(f, deciders, start, None, m)?;
    let end = End::Interface(e);
    if same_end(end, start) || deciders.number(e).is_some() {
        return None;
    }
    let header = m.header;
    let_in(f, e, m);
    let back = word_of_arrival(f, deciders, start, links, end, end, m);
    // Where their replies part, this is told of some of them alone.
    if is_within(&header.part, &m.header.part) {
        Some(Arrivals {
            header,
            end: e,
            back,
        })
    } else {
        None
    }
}
