// Routes that use a prefix list as an earlier one does. They never decide.
ghost use Rattle.std.specs.Prelude.{◌≡◌};

use crate::blocks::is_local;
use indexmap::IndexSet;
use std::alloc::{AllocError, Global};
use std::marker::Model;
use vpc_model::{Reach, Route};

/// How the routes so far use prefix lists: the id of the list, whether the route is propagated, and whether
/// it is local.
pub struct SeenUses {
    uses: IndexSet<(Vec<u8>, bool, bool)>,
}

impl Drop for SeenUses {
    fn drop(self) {
        let SeenUses { uses } = self;
        drop(uses);
    }
}

impl Model for SeenUses {
    ghost use Rattle.std.specs.Prelude.{List, map};
    ghost use Rattle.route_tables.specs.Repeats.{ListUse};

    ghost Value = { List ListUse };

    ghost view = { λ s. map (λ k. record { list = k.0.items; propagated = k.1; local = k.2 }) s.uses.keys };
}

impl SeenUses {
    ghost use Rattle.std.specs.Prelude.{◌++◌, ◌∷◌, [], if◌then◌else◌, IfOk, not};
    ghost use Rattle.std.specs.List.{list_any};
    ghost use Rattle.route_tables.specs.Repeats.{is_known, same_use, use_of, with_use};

    pub fn none(alloc: Global) -> SeenUses
        ensures { result ≡ [] }
    {
        SeenUses {
            uses: IndexSet::new(alloc),
        }
    }

    // Adds a use where it is new, and tells whether it is.
    fn add(&mut self, list: Vec<u8>, propagated: bool, local: bool) -> Result<bool, AllocError>
        ensures fresh { IfOk result (λ b. b ≡ not (list_any (same_use
            (record { list = list.items; propagated = propagated; local = local })) self.old)) }
        ensures added { IfOk result (λ b. self.new ≡ (if b
            then self.old ++ record { list = list.items; propagated = propagated; local = local } ∷ []
            else self.old)) }
    {
        Ok(self.uses.insert((list, propagated, local))?)
    }

    /// Whether no route so far uses the same prefix list alike. A route to a block is always new. From now on
    /// the route's use was seen.
    pub fn is_new(&mut self, alloc: Global, route: &Route) -> Result<bool, AllocError>
        ensures fresh { IfOk result (λ b. b ≡ not (is_known self.old (use_of route.now))) }
        ensures added { IfOk result (λ b. self.new
            ≡ (if b then with_use self.old (use_of route.now) else self.old)) }
    {
        match &route.reach {
            Reach::Block(_) => Ok(true),
            Reach::List(id) => {
                let list = id.bytes().to_vec(alloc)?;
                self.add(list, route.propagated, is_local(&route.target))
            }
        }
    }
}
