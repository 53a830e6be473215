// What is known of the queries that words give, as a clause.
ghost use Rattle.query_words.specs.Laws.{WithoutMaxQueriesAreOne};

/// Without `max`, a query about which no report is made is the query of `ask`, and is refused as that one is.
pub fn queries_without_max_are_one()
    ensures { WithoutMaxQueriesAreOne }
{}
