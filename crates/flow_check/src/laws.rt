// Laws of flow logs, over any description.
ghost use Rattle.flow_check.specs.Meanings.{AcceptMeans, RejectMeans};
ghost use Rattle.flow_check.specs.Walked.{AcceptedLinesAgree, RejectedLinesAgree};

/// When a line that says ACCEPT agrees with the rules.
pub fn accept_means()
    ensures { AcceptMeans }
{}

/// When a line that says REJECT agrees with the rules.
pub fn reject_means()
    ensures { RejectMeans }
{}

/// Where the walk of a packet passes an interface, and the border of its subnet exactly where the addresses tell of one, a
/// line that says ACCEPT of it agrees: what the emulator lets pass, a log may say.
pub fn agrees_with_walks_that_pass()
    ensures { AcceptedLinesAgree }
{}

/// Where the interface's groups or its subnet's ACL stop the walk, a line that says REJECT of it agrees.
pub fn agrees_with_walks_that_stop()
    ensures { RejectedLinesAgree }
{}
