// Whether it is known what becomes of a request.
ghost use Rattle.std.specs.Prelude.{◌≡◌};
ghost use Rattle.policy_check.specs.Judged.{certainty_of};

use vpc_model::StopName;

/// Whether it is known what becomes of a request that doesn't get through.
#[derive(Clone, Copy)]
pub enum Certainty {
    /// It is stopped, or its reply is.
    Known,
    /// It leaves the networks that are described, or its reply does: of the rest of its way nothing is known.
    Unknown,
}

/// What is known of a packet that is stopped, by the name of its stop.
pub fn certainty_of(name: StopName) -> Certainty
    ensures { result ≡ certainty_of name }
{
    match name {
        StopName::Unmodelled => Certainty::Unknown,
        _ => Certainty::Known,
    }
}
