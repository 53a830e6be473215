// Laws of whole walks.
ghost use Rattle.vpc_laws.specs.Walk.{FarWalksAreLong, LoopsAreReturns, WalksAddFew, WalksAreOfSteps, WalkIsShort, NoPlaceTwice, WalkKeeps, AnswerLeavesAll, LeftConnectionsAreOwn, LeftTranslationsAreOwn, WalkKeepsBook};

/// A walk has 1 to 64 places.
pub fn has_few_places()
    ensures { WalkIsShort }
{}

/// No place stands twice in a walk.
pub fn has_no_place_twice()
    ensures { NoPlaceTwice }
{}

/// What the network remembered before a walk it remembers after it, in the same order.
pub fn forgets_nothing()
    ensures { WalkKeeps }
{}

/// The walk of an answer leaves what was remembered as it is.
pub fn answer_leaves_all()
    ensures { AnswerLeavesAll }
{}

/// Each connection that is remembered after a walk, but not before it, is that of an open at one of its
/// places.
pub fn remembers_own_connections()
    ensures { LeftConnectionsAreOwn }
{}

/// Each translation that is remembered after a walk, but not before it, is of an open at one of its
/// places.
pub fn remembers_own_translations()
    ensures { LeftTranslationsAreOwn }
{}

/// A walk keeps the translations in order.
pub fn keeps_translations()
    ensures { WalkKeepsBook }
{}

/// A walk begins at its moment and goes on by its steps: each hop shows the header that came there and
/// by what it passed, and the last step says how the walk ends and what it leaves.
pub fn goes_by_steps()
    ensures { WalksAreOfSteps }
{}

/// A walk loops exactly where it would come to a place for the second time.
pub fn loops_where_it_was()
    ensures { LoopsAreReturns }
{}

/// A walk is too far exactly where it would come to a 65th place.
pub fn ends_after_64_places()
    ensures { FarWalksAreLong }
{}

/// A walk adds at most 64 connections and 64 translations: one for each interface and direction, and one
/// for each NAT gateway.
pub fn adds_few()
    ensures { WalksAddFew }
{}
