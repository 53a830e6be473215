// What an answer to a policy means, as a clause that crates above may cite.
ghost use Rattle.policy_check.specs.Policy.{PoliciesAreDecided, PoliciesAreOfNoDevice};

/// A policy is answered with a yes exactly where all its rules hold, with a no exactly where one fails, as unknown
/// exactly where none fails and one isn't known, and with no status of a device.
pub fn policy_laws()
    ensures decided { PoliciesAreDecided }
    ensures no_device { PoliciesAreOfNoDevice }
{}
