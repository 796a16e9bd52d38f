// The sums of a request.
ghost use Rattle.std.specs.Prelude.{◌≡◌, ◌+◌, length, map, true, IfOk, OnOk};
ghost use Rattle.std.specs.List.{AllByRecursion};
ghost use Rattle.std.specs.Option.{IfSome};
ghost use Rattle.cube_core.specs.Rows.{ArePlaces};
ghost use Rattle.cube_model.specs.Cores.{shown, world};
ghost use Rattle.cube_model.specs.Dims.{plains};
ghost use Rattle.cube_model.specs.Requests as requests;
ghost use Rattle.cube_model.specs.Requests.{fits, total};
ghost use Rattle.cube_model.specs.declared.policy.Policy.{Policy};
ghost use Rattle.cube_answers.specs.AnswerText.{IsThere, IsAnswer};
ghost use Rattle.cube_answers.specs.Sums.{values_of, row_sum};

use cube_core::{Core, Steps};
use cube_model::{Answer, AnswerRow, NoMemory, Request, Row, Rows, What};
use std::alloc::Global;
use std::sync::ledger::Ledger;

// What is asked, over the places of a row.
fn sum_at<L: Ledger>(core: &Core, what: What, row: &Row, steps: &mut Steps<L>) -> i64
    requires measure { IsThere core.now.dims what }
    requires places { ArePlaces (length core.now.shape.points) row.now.places }
    ensures { result ≡ total (values_of core.now what) row.now.places }
{
    match what {
        What::Count => core.count_row(row) as i64,
        What::Measure(measure) => core.sum_row(row, measure, steps),
    }
}

fn sum_rows<L: Ledger>(
    alloc: Global,
    core: &Core,
    what: What,
    rows: Rows,
    steps: &mut Steps<L>,
) -> Result<Answer, NoMemory>
    requires measure { IsThere core.now.dims what }
    requires places { AllByRecursion (λ row. ArePlaces (length core.now.shape.points) row.places) rows }
    ensures { IfOk result (λ answer. answer ≡ map (row_sum core.now what) rows) }
{
    let mut answer = Answer::new(alloc);
    for row in rows.into_vec() {
        let sum = sum_at(core, what, &row, steps);
        answer.push(AnswerRow { key: row.key, sum })?;
    }
    Ok(answer)
}

// The sums of a measure by the ranks of their keys, where that is the shorter way. Numbers of facts are counted row by row.
fn sums_by_rank<L: Ledger>(
    alloc: Global,
    core: &Core,
    request: &Request,
    steps: &mut Steps<L>,
) -> Result<Option<Answer>, NoMemory>
    requires fits { fits (plains core.now.dims) request.now.group request.now.picks ≡ true }
    requires measure { IsThere core.now.dims request.now.what }
    ensures { IfOk result (λ found. IfSome found (λ answer. (p : Policy) → answer ≡ map (row_sum core.now request.now.what) (requests.rows (shown core.now p) request.now))) }
{
    match request.what {
        What::Count => Ok(None),
        What::Measure(measure) => core.sums(alloc, request, measure, steps),
    }
}

/// The answer to a request, row by row: the rows are found first, then summed.
pub(crate) fn answer_by_rows<L: Ledger>(
    alloc: Global,
    core: &Core,
    request: &Request,
    steps: &mut Steps<L>,
) -> Result<Answer, NoMemory>
    requires fits { fits (plains core.now.dims) request.now.group request.now.picks ≡ true }
    requires measure { IsThere core.now.dims request.now.what }
    ensures sums { IfOk result (λ answer. (p : Policy) → answer ≡ requests.answer (world core.now p) request.now) }
    ensures written { IfOk result (λ answer. IsAnswer core.now.dims request.now answer) }
{
    let _rules = core.dims();
    let rows = core.rows(alloc, request)?;
    sum_rows(alloc, core, request.what, rows, steps)
}

/// The answer to a request: the plain sum of each row, or the number of its facts.
pub fn answer<L: Ledger>(
    alloc: Global,
    core: &Core,
    request: &Request,
    steps: &mut Steps<L>,
) -> Result<Answer, NoMemory>
    requires fits { fits (plains core.now.dims) request.now.group request.now.picks ≡ true }
    requires measure { IsThere core.now.dims request.now.what }
    ensures sums { IfOk result (λ answer. (p : Policy) → answer ≡ requests.answer (world core.now p) request.now) }
    ensures written { IfOk result (λ answer. IsAnswer core.now.dims request.now answer) }
{
    let _rules = core.dims();
    let found = sums_by_rank(alloc, core, request, steps)?;
    match found {
        Some(answer) => Ok(answer),
        None => answer_by_rows(alloc, core, request, steps),
    }
}
