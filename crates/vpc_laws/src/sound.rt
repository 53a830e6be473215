// Laws of where packets lead in accepted descriptions.
ghost use Rattle.vpc_laws.specs.Sound.{StepsAreSound, VerdictsAreTold, WalksAreSound};

/// A step leads from a sound place to a sound place, or ends where all can be told.
pub fn leads_to_sound_places()
    ensures { StepsAreSound }
{}

/// A walk goes by sound places alone, and its end and its rules can be told.
pub fn walks_by_sound_places()
    ensures { WalksAreSound }
{}

/// The stop of a verdict can be told.
pub fn tells_verdicts()
    ensures { VerdictsAreTold }
{}
