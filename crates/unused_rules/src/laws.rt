// What holds of a description without one of its rules.
ghost use Rattle.unused_rules.specs.Laws.{RemovalsAreAccepted, RemovalsTakeOneRule};

/// It is accepted where the description is.
pub fn removals_are_accepted()
    ensures { RemovalsAreAccepted }
{}

/// One permission is taken out of its direction, or one row of an ACL.
pub fn removals_take_one_rule()
    ensures { RemovalsTakeOneRule }
{}
