// How packets pass the groups of an interface, and what opens leave behind there.
ghost use Rattle.std.specs.Prelude.{◌≡◌, ◌<◌, ◌++◌, IsTrue, is_some, length};
ghost use Rattle.box_images.specs.Answers.{Answers};
ghost use Rattle.box_images.specs.Images.{IsImageOfWalk, IsValidImage, header_at};
ghost use Rattle.box_steps.specs.Cuts.{AtPlace};
ghost use Rattle.box_steps.specs.Moments.{IsBoxMoment, moment_at};
ghost use Rattle.box_steps.specs.Passing.{is_passed, left_at, passes_groups};
ghost use Rattle.vpc_base.specs.declared.headers.Label.TheVariants as labels;
ghost use Rattle.vpc_model.specs.Connections.{label_passing};
ghost use Rattle.vpc_model.specs.Groups.{first_rule};
ghost use Rattle.vpc_model.specs.Lookup as rows;
ghost use Rattle.vpc_model.specs.Sound.{is_eni};
ghost use Rattle.vpc_model.specs.declared.places.Place.TheVariants as places;

use crate::moment::BoxMoment;
use box_images::{Image, Part};
use conn_tracking::{ImageEntry, tracked_on};
use fabric::Fabric;
use fabric::rows::interface_at;
use vpc_base::{Dir, Label};
use vpc_model::EniNo;

// Whether a rule of the interface's groups allows the packets.
fn allowed_on(f: &Fabric, i: EniNo, dir: Dir, image: &Image) -> Part<bool>
    requires eni { IsTrue (is_eni f.now i) }
    requires valid { IsValidImage image.now }
    requires walk { IsImageOfWalk image.now }
    ensures { Answers (AtPlace f.now (places.OutOf i))
        (λ h. is_some (first_rule f.now (rows.interface_at f.now i) dir (header_at image.now h)))
        image.now.part result }
{
    f.groups().allows_on(i, dir, image)
}

// An answer passes where the open that it answers passed the other way, and else by a rule.
fn answers_pass_on(f: &Fabric, i: EniNo, dir: Dir, m: &BoxMoment) -> Part<bool>
    requires eni { IsTrue (is_eni f.now i) }
    requires moment { IsBoxMoment f.now labels.Answer m.now }
    ensures { Answers (AtPlace f.now (places.OutOf i)) (λ h. let k = moment_at h m.now in
        is_passed (label_passing f.now labels.Answer i dir k.header k.conns))
        m.now.header.part result }
{
    let tracked = tracked_on(m.conns.as_slice(), i, dir, &m.header);
    if tracked.told {
        return tracked;
    }
    allowed_on(f, i, dir, &m.header.within(&tracked.body))
}

// An open passes by rules alone.
fn label_passes_on(f: &Fabric, label: Label, i: EniNo, dir: Dir, m: &BoxMoment) -> Part<bool>
    requires eni { IsTrue (is_eni f.now i) }
    requires moment { IsBoxMoment f.now label m.now }
    ensures { Answers (AtPlace f.now (places.OutOf i)) (λ h. let k = moment_at h m.now in
        is_passed (label_passing f.now label i dir k.header k.conns)) m.now.header.part result }
{
    match label {
        Label::Opening => allowed_on(f, i, dir, &m.header),
        Label::Answer => answers_pass_on(f, i, dir, m),
    }
}

/// Whether packets pass the groups of an interface (VPC User Guide, "Security groups"). An interface without groups
/// lets all pass.
pub fn passes_on(f: &Fabric, label: Label, i: EniNo, dir: Dir, m: &BoxMoment) -> Part<bool>
    requires eni { IsTrue (is_eni f.now i) }
    requires moment { IsBoxMoment f.now label m.now }
    ensures { Answers (AtPlace f.now (places.OutOf i))
        (λ h. passes_groups f.now label i dir (moment_at h m.now)) m.now.header.part result }
{
    match interface_at(f, i).groups.as_slice() {
        [] => Part {
            body: m.header.part,
            told: true,
        },
        _ => label_passes_on(f, label, i, dir, m),
    }
}

/// Remembers opens that have passed the groups of an interface, if it has some.
pub fn remember(f: &Fabric, label: Label, i: EniNo, dir: Dir, m: &mut BoxMoment)
    requires eni { IsTrue (is_eni f.now i) }
    requires room { label ≡ labels.Opening → length m.old.conns.items < 64 }
    ensures place { m.new.place ≡ m.old.place }
    ensures header { m.new.header ≡ m.old.header }
    ensures conns { m.new.conns.items ≡ m.old.conns.items ++ left_at f.now label i dir m.old }
    ensures nats { m.new.nats.items ≡ m.old.nats.items }
{
    let Label::Opening = label else {
        return;
    };
    match interface_at(f, i).groups.as_slice() {
        [] => {}
        _ => m.conns.push(ImageEntry {
            eni: i,
            dir,
            header: m.header,
        }),
    }
}
