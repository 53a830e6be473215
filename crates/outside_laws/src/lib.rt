//! What the networks change of which a description tells nothing but what leads there, as functions without a body.
#![tactic(auto)]

ghost use Rattle.outside_laws.specs.Without.{DiffersWhereUnknown};

/// Without its rows of such networks a description gives the same verdict between other ends, or it isn't known.
pub fn differs_where_unknown()
    ensures { DiffersWhereUnknown }
{}
