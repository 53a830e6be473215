// Where a reply is walked, and on which cuts the verdict of a request depends.
ghost use Rattle.vpc_examples.specs.NearRows.{NearCutsAreOfTheTwoWalks, RepliesAreWalkedFromTheTarget};

/// A reply is walked from the target, where the request arrived there.
pub fn walks_replies_from_the_target()
    ensures { RepliesAreWalkedFromTheTarget }
{}

/// The verdict depends on the cuts at the places of the two walks, and on no others.
pub fn cuts_at_both_walks()
    ensures { NearCutsAreOfTheTwoWalks }
{}
