// Connections of all headers of a box at once.
ghost use Rattle.std.specs.Prelude.{◌≡◌, ◌==◌, ◌&&◌, All, List, ℕ};
ghost use Rattle.box_images.specs.Images.{IsValidImage};
ghost use Rattle.conn_tracking.specs.OnImages.{AreAnswerAndOpens, TellsTracked};
ghost use Rattle.vpc_base.specs.Dir as dirs;

use crate::answers_on;
use crate::entry::opposite;
use box_images::{Image, Part};
use header_boxes::Box5;
use vpc_base::Dir;
use vpc_model::EniNo;

/// An open that passed the security groups of an interface in a direction, for each request of a
/// box.
#[derive(Clone, Copy)]
pub struct ImageEntry {
    pub eni: EniNo,
    pub dir: Dir,
    pub header: Image,
}

/// No connection of a walk: it fills the places of a list of fixed length.
impl Default for ImageEntry {
    fn default() -> ImageEntry {
        ImageEntry {
            eni: EniNo::default(),
            dir: Dir::Inward,
            header: Image::of(&Box5::default()),
        }
    }
}

impl ImageEntry {
    // Answers to it pass the interface in the direction.
    fn awaits(&self, eni: EniNo, dir: Dir) -> bool
        ensures { result ≡ (self.now.eni.0 == eni.0)
            && dirs.same_dir self.now.dir (dirs.opposite dir) }
    {
        self.eni.0 == eni.0 && self.dir == opposite(dir)
    }
}

/// Whether a header answers one of the connections that passed the interface the other way (EC2 User
/// Guide, "Security group connection tracking"). A step for each of them.
pub fn tracked_on(entries: &[ImageEntry], eni: EniNo, dir: Dir, i: &Image) -> Part<bool>
    requires valid { IsValidImage i.now }
    requires valid_entries { All (λ e. IsValidImage e.header) entries.now }
    requires part { All (λ e. e.header.part ≡ i.now.part) entries.now }
    requires kinds { (addresses : List ℕ) × AreAnswerAndOpens addresses i.now entries.now }
    ensures { (addresses : List ℕ) → AreAnswerAndOpens addresses i.now entries.now
        → TellsTracked addresses entries.now eni dir i.now result }
{
    let mut body = i.part;
    for e in entries {
        if e.awaits(eni, dir) {
            let answers = answers_on(&i.within(&body), &e.header.within(&body));
            if answers.told {
                return answers;
            }
            body = answers.body;
        }
    }
    Part { body, told: false }
}
