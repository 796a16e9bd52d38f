// Which items of a transcript are exact.
ghost use Rattle.std.specs.Prelude.{◌≡◌, ◌≢◌, ◌≤◌, ◌++◌, ◌∷◌, ◌&&◌, [], not, length, true, false, Ok, IfOk, IfSome, IfNone};
ghost use Rattle.cube_model.specs.declared.policy.Policy.{Policy};
ghost use Rattle.cube_model.specs.declared.request.Request as asked;
ghost use Rattle.cube_model.specs.Cores.{world};
ghost use Rattle.cube_model.specs.Requests as requests;
ghost use Rattle.cube_query.specs.Canonical.{is_request};
ghost use Rattle.cube_query.specs.Faults.{request_of};
ghost use Rattle.cube_answers.specs.AnswerText as words;
ghost use Rattle.cube_audit.specs.Audits.{is_examined, is_exact, inexact_from, asked_by};
ghost use Rattle.cube_audit.specs.Examining.{examined_as};

use crate::transcript::TranscriptItem;
use cube_answers::{answer, answer_text};
use cube_core::{Core, Steps};
use cube_model::{Dims, Items, NoMemory, Request, Text};
use cube_query::{RequestFault, read_request};
use std::alloc::Global;
use std::sync::ledger::Ledger;

/// What becomes of the items that are examined.
#[derive(Drop)]
pub(crate) enum Examined {
    /// Each is exact; these are their requests, in order.
    Exact {
        /// The requests.
        requests: Items<Request>,
    },
    /// This item, counted from 1, is the first that is not.
    Inexact {
        /// Its number.
        item: u32,
    },
}

/// The request that a text names, where there is one.
fn request_in(alloc: Global, dims: &Dims, text: &[u8]) -> Result<Option<Request>, NoMemory>
    ensures some { IfOk result (λ request. IfSome request (λ r. request_of dims.now text.now ≡ Ok r)) }
    ensures valid { IfOk result (λ request. IfSome request (λ r. is_request dims.now r ≡ true)) }
    ensures none { IfOk result (λ request. IfNone request ((r : asked.Request) → request_of dims.now text.now ≢ Ok r)) }
{
    match read_request(alloc, dims, text) {
        Ok(request) => Ok(Some(request)),
        Err(RequestFault::NoMemory) => Err(NoMemory),
        Err(_) => Ok(None),
    }
}

/// The text of the answer to a request.
#[tactic(auto, using(cube_answers::proofs::Valid::valid_fits, cube_answers::proofs::Valid::valid_measure))]
fn answered<L: Ledger>(
    alloc: Global,
    core: &Core,
    request: &Request,
    steps: &mut Steps<L>,
) -> Result<Text, NoMemory>
    requires { is_request core.now.dims request.now ≡ true }
    ensures { IfOk result (λ text. (p : Policy) → text ≡ words.answer_text core.now.dims request.now (requests.answer (world core.now p) request.now)) }
{
    let answer = answer(alloc, core, request, steps)?;
    answer_text(alloc, core.dims(), request, &answer)
}

/// The request of an item, where the item is exact.
fn exact_request<L: Ledger>(
    alloc: Global,
    core: &Core,
    item: &TranscriptItem,
    steps: &mut Steps<L>,
) -> Result<Option<Request>, NoMemory>
    ensures some { IfOk result (λ found. IfSome found (λ r. request_of core.now.dims item.now.query ≡ Ok r)) }
    ensures exact { IfOk result (λ found. IfSome found (λ r. (p : Policy) → is_exact core.now.dims (world core.now p) item.now ≡ true)) }
    ensures none { IfOk result (λ found. IfNone found ((p : Policy) → is_exact core.now.dims (world core.now p) item.now ≡ false)) }
{
    let Some(request) = request_in(alloc, core.dims(), item.query.as_slice())? else {
        return Ok(None);
    };
    let text = answered(alloc, core, &request, steps)?;
    if item.body.as_slice() == text.as_slice() {
        Ok(Some(request))
    } else {
        Ok(None)
    }
}

/// Examines an item where its status asks for it, puts its request at the end, and says whether it is exact.
fn add_item<L: Ledger>(
    alloc: Global,
    core: &Core,
    requests: &mut Items<Request>,
    item: &TranscriptItem,
    steps: &mut Steps<L>,
) -> Result<bool, NoMemory>
    ensures sound { IfOk result (λ sound. (p : Policy) → (is_examined item.now && not (is_exact core.now.dims (world core.now p) item.now)) ≡ not sound) }
    ensures added { IfOk result (λ sound. sound ≡ true → requests.new ≡ requests.old ++ asked_by core.now.dims (item.now ∷ [])) }
{
    if item.status != 200 {
        return Ok(true);
    }
    match exact_request(alloc, core, item, steps)? {
        Some(request) => {
            requests.push(request)?;
            Ok(true)
        }
        None => Ok(false),
    }
}

/// Examines items. It costs for each what the rows of its request cost.
pub(crate) fn examine<L: Ledger>(
    alloc: Global,
    core: &Core,
    items: &[TranscriptItem],
    steps: &mut Steps<L>,
) -> Result<Examined, NoMemory>
    requires { length items.now ≤ 65536 }
    ensures { IfOk result (λ told. (p : Policy) → told ≡ examined_as (inexact_from core.now.dims (world core.now p) 1 items.now) (asked_by core.now.dims items.now)) }
{
    let mut requests = Items::new(alloc);
    'items: for (number, item) in items.iter().enumerate() {
        let sound = add_item(alloc, core, &mut requests, item, steps)?;
        if !sound {
            return Ok(Examined::Inexact {
                item: number as u32 + 1,
            });
        }
    }
    Ok(Examined::Exact { requests })
}
