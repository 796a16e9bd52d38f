// What is made.
ghost use Rattle.std.specs.Prelude.{◌≡◌, ◌≤◌, IfOk};
ghost use Rattle.cube_gen.specs.Made.{made_facts, made_queries};
ghost use Rattle.cube_gen.specs.Tables.{made_dims, made_policy};

use crate::draws::Draws;
use crate::facts::make_facts;
use crate::queries::make_queries;
use crate::tables::{make_dims, make_policy};
use cube_model::{NoMemory, Text, Texts};
use std::alloc::Global;

/// The texts of a made cube, and queries over it.
#[derive(Drop)]
pub struct Made {
    /// The dimension file.
    pub dims: Text,
    /// The fact file.
    pub facts: Text,
    /// The policy file.
    pub policy: Text,
    /// The texts of the queries, none with a line feed.
    pub queries: Texts,
}

/// Makes a cube and queries from a number. A size of 1 has 40 branches, 20,000 facts and 200 queries,
/// and a size of s has s times as many.
pub fn make(alloc: Global, number: u64, size: u32) -> Result<Made, NoMemory>
    requires some { 1 ≤ size }
    requires few { size ≤ 20 }
    ensures dims { IfOk result (λ made. made.dims ≡ made_dims size) }
    ensures facts { IfOk result (λ made. made.facts ≡ made_facts number size) }
    ensures policy { IfOk result (λ made. made.policy ≡ made_policy) }
    ensures queries { IfOk result (λ made. made.queries ≡ made_queries number size) }
{
    let mut draws = Draws::new(number);
    let facts = make_facts(alloc, &mut draws, size)?;
    let queries = make_queries(alloc, &mut draws, size)?;
    Ok(Made {
        dims: make_dims(alloc, size)?,
        facts,
        policy: make_policy(alloc)?,
        queries,
    })
}
