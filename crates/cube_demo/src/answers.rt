// The rows of the requests that were answered.
ghost use Rattle.std.specs.Prelude.{◌≡◌, ◌&&◌, true, length, slice_index_or, IfOk};
ghost use Rattle.std.specs.List.{All};
ghost use Rattle.cube_model.specs.declared.policy.Policy.{Policy};
ghost use Rattle.cube_model.specs.Cores.{shown};
ghost use Rattle.cube_model.specs.Requests.{asks};
ghost use Rattle.cube_core.specs.Rows.{ArePlaces};
ghost use Rattle.cube_query.specs.Canonical.{is_request};
ghost use Rattle.cube_engine.specs.Books as said;
ghost use Rattle.cube_demo.specs.Hiding as hiding;

use cube_core::Core;
use cube_model::{Items, NoMemory, Request, Rows, Verdict};
use std::alloc::Global;

/// Whether the request is answered.
pub(crate) fn is_answer(verdict: &Verdict) -> bool
    ensures { result ≡ said.is_answer verdict.now }
{
    matches!(verdict, Verdict::Answer { .. })
}

/// Whether a request on the measure is answered.
fn answers_on(request: &Request, verdict: &Verdict, measure: u32) -> bool
    ensures { result ≡ (said.is_answer verdict.now && asks measure request.now) }
{
    is_answer(verdict) && request.asks_for(measure)
}

/// The rows of each request on the measure that is answered.
#[tactic(auto, using(cube_answers::proofs::Valid::valid_fits))]
pub(crate) fn rows_on(
    alloc: Global,
    core: &Core,
    requests: &[Request],
    verdicts: &[Verdict],
    measure: u32,
) -> Result<Items<Rows>, NoMemory>
    requires even { length verdicts.now ≡ length requests.now }
    requires valid { All (λ request. is_request core.now.dims request ≡ true) requests.now }
    ensures rows { IfOk result (λ tables. (p : Policy) → tables ≡ hiding.rows_on (shown core.now p) measure requests.now verdicts.now) }
    ensures places { IfOk result (All (λ rows. All (λ row. ArePlaces (length core.now.shape.points) row.places) rows)) }
{
    let mut tables = Items::new(alloc);
    'requests: for number in 0..requests.len() {
        let request = &requests[number];
        if answers_on(request, &verdicts[number], measure) {
            tables.push(core.rows(alloc, request)?)?;
        }
    }
    Ok(tables)
}
