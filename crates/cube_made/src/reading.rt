// Texts that are read: only memory can be wanting.
ghost use Rattle.std.specs.Prelude.{◌≡◌, List, map, true, Ok, IsOk, IfOk};
ghost use Rattle.std.specs.List.{All};
ghost use Rattle.cube_model.specs.declared.request.Request.{Request};
ghost use Rattle.cube_model.specs.Policies.{IsPolicy};
ghost use Rattle.cube_dims.specs.DimsFile.{dims_of};
ghost use Rattle.cube_facts.specs.FactFile.{filled_of};
ghost use Rattle.cube_policy.specs.PolicyFile.{policy_of};
ghost use Rattle.cube_query.specs.Canonical.{is_request};
ghost use Rattle.cube_query.specs.Faults.{request_of};

use cube_core::Core;
use cube_dims::{DimsFault, read_dims};
use cube_facts::{FactsFault, read_facts};
use cube_model::{Dims, Items, NoMemory, Policy, Request, Text};
use cube_policy::{PolicyFault, read_policy};
use cube_query::{RequestFault, read_request};
use std::alloc::Global;

/// The dimensions and measures of a dimension file.
pub(crate) fn dims_in(alloc: Global, text: &[u8]) -> Result<Dims, NoMemory>
    requires { IsOk (dims_of text.now) }
    ensures { IfOk result (λ dims. dims_of text.now ≡ Ok dims) }
{
    match read_dims(alloc, text) {
        Ok(dims) => Ok(dims),
        Err(DimsFault::NoMemory) => Err(NoMemory),
        Err(_) => unreachable!(),
    }
}

/// The core of a fact file, for dimensions and measures.
pub(crate) fn core_in(alloc: Global, dims: Dims, text: &[u8]) -> Result<Core, NoMemory>
    requires { IsOk (filled_of dims text.now) }
    ensures facts { IfOk result (λ core. filled_of dims text.now ≡ Ok (core.shape, core.cube)) }
    ensures dims { IfOk result (λ core. core.dims ≡ dims) }
{
    let (shape, cube) = match read_facts(alloc, &dims, text) {
        Ok(filled) => filled,
        Err(FactsFault::NoMemory) => return Err(NoMemory),
        Err(_) => unreachable!(),
    };
    Core::new(alloc, dims, shape, cube)
}

/// The policy of a policy file.
pub(crate) fn policy_in(alloc: Global, dims: &Dims, text: &[u8]) -> Result<Policy, NoMemory>
    requires { IsOk (policy_of dims.now text.now) }
    ensures policy { IfOk result (λ policy. policy_of dims.now text.now ≡ Ok policy) }
    ensures rules { IfOk result (λ policy. IsPolicy dims.now policy) }
{
    match read_policy(alloc, dims, text) {
        Ok(policy) => Ok(policy),
        Err(PolicyFault::NoMemory) => Err(NoMemory),
        Err(_) => unreachable!(),
    }
}

fn request_in(alloc: Global, dims: &Dims, text: &[u8]) -> Result<Request, NoMemory>
    requires { IsOk (request_of dims.now text.now) }
    ensures request { IfOk result (λ request. request_of dims.now text.now ≡ Ok request) }
    ensures valid { IfOk result (λ request. is_request dims.now request ≡ true) }
{
    match read_request(alloc, dims, text) {
        Ok(request) => Ok(request),
        Err(RequestFault::NoMemory) => Err(NoMemory),
        Err(_) => unreachable!(),
    }
}

/// The requests that texts name, in turn.
pub(crate) fn requests_in(
    alloc: Global,
    dims: &Dims,
    texts: &[Text],
) -> Result<Items<Request>, NoMemory>
    requires { (requests : List Request) × (map (request_of dims.now) texts.now ≡ map Ok requests) }
    ensures requests { IfOk result (λ requests. map (request_of dims.now) texts.now ≡ map Ok requests) }
    ensures valid { IfOk result (All (λ request. is_request dims.now request ≡ true)) }
{
    let mut requests = Items::new(alloc);
    'texts: for text in texts {
        requests.push(request_in(alloc, dims, text.as_slice())?)?;
    }
    Ok(requests)
}
