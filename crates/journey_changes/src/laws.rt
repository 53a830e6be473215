// Laws of changes. The functions do nothing: their contracts say the laws.
ghost use Rattle.journey_changes.specs.Laws.{AllIsOpenedFromNothing, ChangesTurnRound, NothingChangesInOne, ReachedIsReach};
ghost use Rattle.journey_changes.specs.Telling.{ChangesAreTellable};

/// Turned round, opened and closed change places.
pub fn changes_turn_round()
    ensures { ChangesTurnRound }
{}

/// Where nothing gets through before, what is opened is what gets through afterwards.
pub fn all_is_opened_from_nothing()
    ensures { AllIsOpenedFromNothing }
{}

/// What gets through in one network is what is told of that network alone.
pub fn reached_is_reach()
    ensures { ReachedIsReach }
{}

/// A network isn't changed by itself.
pub fn nothing_changes_in_one()
    ensures { NothingChangesInOne }
{}

/// The ends and stops of a change have texts, each in its network.
pub fn changes_are_tellable()
    ensures { ChangesAreTellable }
{}
