// What comes next for headers that stay as they are.
ghost use Rattle.std.specs.Prelude.{◌≡◌};
ghost use Rattle.box_steps.specs.Onward.{onward_if, onward_unless};
ghost use Rattle.box_steps.specs.declared.onward.Onward.TheVariants as onwards;

use box_images::{Image, Part};
use vpc_model::{End, Place, Stop};

/// What comes next for all headers of a body, where the step leaves them as they are.
#[derive(Clone, Copy)]
pub enum Onward {
    Go(Place),
    Arrive(End),
    Stop(Stop),
}

/// One stop for all headers of an image.
pub fn stopped(i: &Image, stop: Stop) -> Part<Onward>
    ensures { result ≡ record { body = i.now.part; told = onwards.Stop stop } }
{
    Part {
        body: i.part,
        told: Onward::Stop(stop),
    }
}

/// What comes next, unless something stops the headers of the body.
pub fn unless_stopped_on(stop: Part<Option<Stop>>, next: Onward) -> Part<Onward>
    ensures { result ≡ record { body = stop.body; told = onward_unless stop.told next } }
{
    let told = match stop.told {
        None => next,
        Some(stop) => Onward::Stop(stop),
    };
    Part {
        body: stop.body,
        told,
    }
}

/// What comes next where a test holds of the body; else a stop.
pub fn onward_if(holds: &Part<bool>, next: Onward, stop: Stop) -> Part<Onward>
    ensures { result ≡ onward_if holds.now next stop }
{
    let told = if holds.told { next } else { Onward::Stop(stop) };
    Part {
        body: holds.body,
        told,
    }
}
