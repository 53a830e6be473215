// Two networks, and what is asked about them.
ghost use Rattle.std.specs.Prelude.{◌≡◌};

use fabric::Fabric;
use query_words::ChangeQuery;
use reference_check::Network;
use std::marker::Model;

/// Two networks by their look-ups, and a query about them. Contracts see the descriptions and the query.
#[derive(Drop)]
pub struct Compared<'a> {
    pub before: &'a Fabric,
    pub after: &'a Fabric,
    pub query: &'a ChangeQuery,
}

impl<'a> Model for Compared<'a> {
    ghost use Rattle.changed_ends.specs.Asked.{Comparison, comparison};

    ghost Value = { Comparison };

    ghost view = { λ c. comparison c.before.now c.after.now c.query.now };
}

impl<'a> Compared<'a> {
    /// The look-ups of the first network.
    pub fn fabric_before(&self) -> &'a Fabric
        ensures { result.now ≡ self.now.before }
    {
        self.before
    }

    /// Those of the second network.
    pub fn fabric_after(&self) -> &'a Fabric
        ensures { result.now ≡ self.now.after }
    {
        self.after
    }

    /// The first network.
    pub fn before(&self) -> &'a Network
        ensures { result.now ≡ self.now.before }
    {
        self.before.network()
    }

    /// The second network.
    pub fn after(&self) -> &'a Network
        ensures { result.now ≡ self.now.after }
    {
        self.after.network()
    }

    /// What is asked about them.
    pub fn query(&self) -> &'a ChangeQuery
        ensures { result.now ≡ self.now.query }
    {
        self.query
    }
}
