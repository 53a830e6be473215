// Laws of appliances. The functions do nothing: their contracts say the laws.
ghost use Rattle.appliances.specs.Passing.{BoxesAreStanding};

/// The boxes of a description's appliances cut by its standing cuts.
pub fn boxes_are_standing()
    ensures { BoxesAreStanding }
{}
