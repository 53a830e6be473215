// Packets at a place, one for each header of a part, with what the network remembers.
ghost use Rattle.std.specs.Prelude.{◌≡◌, ◌≤◌, [], length, map};
ghost use Rattle.header_boxes.specs.Boxes.{IsWithin};
ghost use Rattle.box_images.specs.Images.{IsValidImage};
ghost use Rattle.box_steps.specs.Moments.{IsNarrowed, IsRewritten, IsTurned, entry_over, nat_over};
ghost use Rattle.box_steps.specs.declared.onward.Onward.TheVariants as onwards;

use crate::onward::Onward;
use arrayvec::ArrayVec;
use box_images::{Image, Part};
use conn_tracking::ImageEntry;
use header_boxes::Box5;
use vpc_model::{End, NatNo, Place, Stop};

/// An open that a NAT gateway sent out, before and after its translation, for each request of a box.
#[derive(Clone, Copy)]
pub struct ImageNat {
    pub nat: NatNo,
    pub before: Image,
    pub after: Image,
}

/// No translation of a walk: it fills the places of a list of fixed length.
impl Default for ImageNat {
    fn default() -> ImageNat {
        let none = Image::of(&Box5::default());
        ImageNat {
            nat: NatNo::default(),
            before: none,
            after: none,
        }
    }
}

/// Packets at a place, one for each request of a box, with the connections and the translations that
/// their walks have left behind. All images are over one part of the box.
#[derive(Clone, Drop)]
pub struct BoxMoment {
    pub place: Place,
    pub header: Image,
    pub conns: ArrayVec<ImageEntry, 64>,
    pub nats: ArrayVec<ImageNat, 64>,
}

/// How packets leave a place: all go on, all have arrived, or all are stopped. In each case the moment
/// has what the network remembers afterwards.
#[derive(Clone, Drop)]
pub enum BoxNext {
    Go(BoxMoment),
    Arrived(End, BoxMoment),
    Stopped(Stop, BoxMoment),
}

impl BoxMoment {
    /// Packets at a place, of which nothing is remembered.
    pub fn at(place: Place, header: Image) -> BoxMoment
        ensures place { result.place ≡ place }
        ensures header { result.header ≡ header }
        ensures conns { result.conns.items ≡ [] }
        ensures nats { result.nats.items ≡ [] }
    {
        BoxMoment {
            place,
            header,
            conns: ArrayVec::new(),
            nats: ArrayVec::new(),
        }
    }

    /// A copy. It takes no memory.
    pub fn copy(&self) -> BoxMoment
        ensures { result ≡ self.now }
    {
        let mut copy = BoxMoment::at(self.place, self.header);
        copy_entries(self.conns.as_slice(), &mut copy.conns);
        copy_nats(self.nats.as_slice(), &mut copy.nats);
        copy
    }

    /// Becomes another moment, of the packets of a body of its part alone. It takes no memory.
    pub fn take_within(&mut self, other: &BoxMoment, body: &Box5)
        requires valid { IsValidImage other.now.header }
        requires within { IsWithin body.now other.now.header.part }
        ensures { IsNarrowed body.now other.now self.new }
    {
        self.place = other.place;
        self.header = other.header.within(body);
        self.conns.clear();
        copy_entries(other.conns.as_slice(), &mut self.conns);
        narrow_entries(self.conns.as_mut_slice(), body);
        self.nats.clear();
        copy_nats(other.nats.as_slice(), &mut self.nats);
        narrow_nats(self.nats.as_mut_slice(), body);
    }

    /// Leaves the packets of a body of the part.
    pub fn narrow(&mut self, body: &Box5)
        requires valid { IsValidImage self.old.header }
        requires within { IsWithin body.now self.old.header.part }
        ensures { IsNarrowed body.now self.old self.new }
    {
        self.header = self.header.within(body);
        narrow_entries(self.conns.as_mut_slice(), body);
        narrow_nats(self.nats.as_mut_slice(), body);
    }

    /// Leaves the packets of which something is told, at the place to which they come, as they were.
    pub fn turn(&mut self, x: &Part<Onward>) -> Onward
        requires valid { IsValidImage self.old.header }
        requires within { IsWithin x.now.body self.old.header.part }
        ensures { IsTurned x.now self.old self.new result }
    {
        self.narrow(&x.body);
        if let Onward::Go(place) = x.told {
            self.place = place;
        }
        x.told
    }

    /// Leaves the packets of the part of another image, at the place to which they come with it as
    /// their header.
    pub fn rewrite(&mut self, header: Image, place: Place) -> Onward
        requires valid { IsValidImage self.old.header }
        requires within { IsWithin header.part self.old.header.part }
        ensures moment { IsRewritten place header self.old self.new }
        ensures next { result ≡ onwards.Go place }
    {
        self.narrow(&header.part);
        self.header = header;
        self.place = place;
        Onward::Go(place)
    }
}

fn copy_entries(entries: &[ImageEntry], into: &mut ArrayVec<ImageEntry, 64>)
    requires few { length entries.now ≤ 64 }
    requires empty { into.old.items ≡ [] }
    ensures { into.new.items ≡ entries.now }
{
    for e in entries {
        into.push(*e);
    }
}

fn copy_nats(nats: &[ImageNat], into: &mut ArrayVec<ImageNat, 64>)
    requires few { length nats.now ≤ 64 }
    requires empty { into.old.items ≡ [] }
    ensures { into.new.items ≡ nats.now }
{
    for t in nats {
        into.push(*t);
    }
}

fn narrow_entries(entries: &mut [ImageEntry], body: &Box5)
    ensures { entries.new ≡ map (entry_over body.now) entries.old }
{
    for e in entries.iter_mut() {
        e.header.part = *body;
    }
}

fn narrow_nats(nats: &mut [ImageNat], body: &Box5)
    ensures { nats.new ≡ map (nat_over body.now) nats.old }
{
    for t in nats.iter_mut() {
        t.before.part = *body;
        t.after.part = *body;
    }
}
