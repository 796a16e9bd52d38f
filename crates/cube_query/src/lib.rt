//! The query language: what a text asks, and the canonical text of a request.
#![tactic(auto)]

ghost use Rattle.std.specs.Prelude.{◌≡◌, codes, [], Ok, Err};
ghost use Rattle.cube_query.specs.Grammar.{query_of};
ghost use Rattle.cube_query.specs.declared.query.QueryFault.TheVariants as fault;
ghost use Rattle.cube_query.specs.Laws.{LongestFront, BegunIsPrefix, AtMostOne, ReadsAsSaid, ReadsBack, ReadIsValid};

mod canonical;
mod cursor;
mod fault;
mod query;
mod reader;
mod resolving;

pub use canonical::{all_one, groups, print, push_level, push_levels, push_member};
pub use fault::{RequestFault, read_request};
pub use query::{LevelName, Name, PickName, Query, QueryFault};
pub use reader::parse;
pub use resolving::{ResolveFault, resolve};

/// A text is at most one query. Where it is none, the place of the fault is the length of its longest prefix that is a
/// prefix of some query text.
pub fn texts_are_queries()
    ensures longest { LongestFront }
    ensures begun { BegunIsPrefix }
    ensures one { AtMostOne }
    ensures read { ReadsAsSaid }
{}

/// The canonical text of a valid request reads back as that request, and each request that is read from a text is valid:
/// so what is printed of what was read reads back as the same.
pub fn canonical_texts_read_back()
    ensures back { ReadsBack }
    ensures valid { ReadIsValid }
{}

/// Places of syntax faults, and a query, worked out by hand.
pub fn worked_places()
    ensures longer_word { query_of (codes "slice pay by time.month whereabouts") ≡ Err (fault.Syntax 29) }
    ensures three_points { query_of (codes "range hours time.month=Jan...Feb") ≡ Err (fault.Syntax 28) }
    ensures comma { query_of (codes "cell pay,") ≡ Err (fault.Syntax 8) }
    ensures no_level { query_of (codes "slice pay by") ≡ Err (fault.Syntax 12) }
    ensures open_quote { query_of (codes "cell \"pay") ≡ Err (fault.Syntax 9) }
    ensures escape { query_of (codes "cell pay a.b = \"Ly\\on\"") ≡ Err (fault.Syntax 19) }
    ensures no_value { query_of (codes "cell pay time.month=") ≡ Err (fault.Syntax 20) }
    ensures word { query_of (codes "cel pay") ≡ Err (fault.Syntax 3) }
    ensures blanks { query_of (codes "\tcell  pay ") ≡ Ok (record { what = record { text = codes "pay"; at = 7 }; by = []; picks = [] }) }
{}
