//! The laws of what is made. The functions do nothing: each clause is a law.
ghost use Rattle.cube_made.specs.Laws.{DimsAreRead, FactsAreRead, PolicyIsRead, QueriesAreRead};

/// The made dimension file is read as the dimensions and measures that it is made of.
pub fn dims_are_read()
    ensures { DimsAreRead }
{}

/// The made facts are read over them, whatever the number and the size.
pub fn facts_are_read()
    ensures { FactsAreRead }
{}

/// The made policy is read over them as the policy that it is made of.
pub fn policy_is_read()
    ensures { PolicyIsRead }
{}

/// Each made query is read over them as a request, whatever the number and the size.
pub fn queries_are_read()
    ensures { QueriesAreRead }
{}
