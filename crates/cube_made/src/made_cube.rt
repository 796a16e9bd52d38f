// A made cube with queries over it.
ghost use Rattle.std.specs.Prelude.{◌≡◌, ◌≤◌, true, IfOk};
ghost use Rattle.std.specs.List.{All};
ghost use Rattle.cube_model.specs.Policies.{IsPolicy};
ghost use Rattle.cube_query.specs.Canonical.{is_request};
ghost use Rattle.cube_gen.specs.Made.{made_queries};
ghost use Rattle.cube_made.specs.Reading.{AreRead};

use crate::reading::{core_in, dims_in, policy_in, requests_in};
use cube_core::Core;
use cube_gen::make;
use cube_model::{Items, NoMemory, Policy, Request, Texts};
use std::alloc::Global;

/// A made cube, its policy, and queries over it.
#[derive(Drop)]
pub struct MadeCube {
    /// The cube.
    pub core: Core,
    /// The policy.
    pub policy: Policy,
    /// The texts of the queries.
    pub queries: Texts,
    /// The requests that they name, in turn.
    pub requests: Items<Request>,
}

/// Makes a cube and queries from a number, and reads their texts. A size of 1 has 20,000 facts and 200 queries, and a size of s
/// has s times as many.
pub fn make_cube(alloc: Global, number: u64, size: u32) -> Result<MadeCube, NoMemory>
    requires some { 1 ≤ size }
    requires few { size ≤ 20 }
    ensures read { IfOk result (λ made. AreRead number size made.core made.policy made.requests) }
    ensures queries { IfOk result (λ made. made.queries ≡ made_queries number size) }
    ensures rules { IfOk result (λ made. IsPolicy made.core.dims made.policy) }
    ensures valid { IfOk result (λ made. All (λ request. is_request made.core.dims request ≡ true) made.requests) }
{
    let made = make(alloc, number, size)?;
    let dims = dims_in(alloc, made.dims.as_slice())?;
    let core = core_in(alloc, dims, made.facts.as_slice())?;
    let policy = policy_in(alloc, core.dims(), made.policy.as_slice())?;
    let requests = requests_in(alloc, core.dims(), made.queries.as_slice())?;
    Ok(MadeCube {
        core,
        policy,
        queries: made.queries,
        requests,
    })
}
