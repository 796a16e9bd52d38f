// The text of an answer, written straight from the tallies of its keys: no row is made for it, and no key but one at a time.
ghost use Rattle.std.specs.Prelude.{◌≡◌, ◌≤◌, ◌++◌, true, length, flat_map, IfOk, OnOk};
ghost use Rattle.std.specs.List.{AllByRecursion};
ghost use Rattle.std.specs.Option.{IfSome};
ghost use Rattle.cube_core.specs.Grouping.{pointed, ArePoints};
ghost use Rattle.cube_core.specs.Tallies.{row_of_tally, AreTallies};
ghost use Rattle.cube_model.specs.Cores.{world};
ghost use Rattle.cube_model.specs.Dims.{plains};
ghost use Rattle.cube_model.specs.Requests as requests;
ghost use Rattle.cube_model.specs.Requests.{fits};
ghost use Rattle.cube_model.specs.declared.policy.Policy.{Policy};
ghost use Rattle.cube_answers.specs.AnswerText.{row_line, answer_text as answer_words, IsThere};
ghost use Rattle.cube_answers.specs.Sums.{values_of, lines_of_tally};

use crate::answer_text;
use crate::answers::{push_header, push_line, room_for};
use crate::sums::answer_by_rows;
use cube_core::{Core, Steps, Tally, write_key};
use cube_model::{Dims, Key, NoMemory, Request, Text, What};
use std::alloc::Global;
use std::sync::ledger::Ledger;

// Puts the line of a tally, if it has a place. The key is written into room that each tally uses again.
#[tactic(auto, using(crate::proofs::Keys::as_many_levels))]
fn push_tally(
    text: &mut Text,
    key: &mut Vec<u32>,
    dims: &Dims,
    points: &[Key],
    request: &Request,
    tally: Tally,
) -> Result<(), NoMemory>
    requires fits { fits (plains dims.now) request.now.group request.now.picks ≡ true }
    requires points { ArePoints (plains dims.now) points.now }
    requires measure { IsThere dims.now request.now.what }
    requires place { tally.mark ≤ length points.now }
    ensures { OnOk result (text.new ≡ text.old ++ lines_of_tally dims.now points.now request.now tally) }
{
    let _rules = dims.dimensions();
    if tally.mark == 0 {
        return Ok(());
    }
    write_key(key, dims, points, request, tally.mark - 1)?;
    push_line(text, dims, request, key.as_slice(), tally.sum)
}

// Puts the lines of the tallies that have a place.
fn push_tallies(
    text: &mut Text,
    key: &mut Vec<u32>,
    dims: &Dims,
    points: &[Key],
    request: &Request,
    tallies: &[Tally],
) -> Result<(), NoMemory>
    requires fits { fits (plains dims.now) request.now.group request.now.picks ≡ true }
    requires points { ArePoints (plains dims.now) points.now }
    requires measure { IsThere dims.now request.now.what }
    requires marks { AllByRecursion (λ tally. tally.mark ≤ length points.now) tallies.now }
    ensures { OnOk result (text.new ≡ text.old ++ flat_map (lines_of_tally dims.now points.now request.now) tallies.now) }
{
    for tally in tallies {
        push_tally(text, key, dims, points, request, *tally)?;
    }
    Ok(())
}

/// The text of the answer to a request whose rows are those of the tallies of its keys over some points.
#[tactic(auto, using(crate::proofs::Keys::as_many_levels, crate::proofs::RowLines::lines_of_rows))]
pub fn tallied_text(
    alloc: Global,
    dims: &Dims,
    points: &[Key],
    request: &Request,
    tallies: &[Tally],
) -> Result<Text, NoMemory>
    requires fits { fits (plains dims.now) request.now.group request.now.picks ≡ true }
    requires points { ArePoints (plains dims.now) points.now }
    requires measure { IsThere dims.now request.now.what }
    requires marks { AllByRecursion (λ tally. tally.mark ≤ length points.now) tallies.now }
    ensures { IfOk result (λ text. text ≡ answer_words dims.now request.now (flat_map (row_of_tally (pointed dims.now points.now) request.now) tallies.now)) }
{
    let mut text = room_for(alloc, tallies.len())?;
    let mut key = Vec::with_capacity(alloc, dims.dimensions().len())?;
    push_header(alloc, &mut text, dims, request)?;
    push_tallies(&mut text, &mut key, dims, points, request, tallies)?;
    Ok(text)
}

// The tallies of a measure, where that is the shorter way. Numbers of facts are counted row by row.
fn tallies_by_rank<L: Ledger>(
    alloc: Global,
    core: &Core,
    request: &Request,
    steps: &mut Steps<L>,
) -> Result<Option<Vec<Tally>>, NoMemory>
    requires fits { fits (plains core.now.dims) request.now.group request.now.picks ≡ true }
    requires measure { IsThere core.now.dims request.now.what }
    ensures { IfOk result (λ found. IfSome found (λ tallies. AreTallies core.now request.now (values_of core.now request.now.what) tallies.items)) }
{
    match request.what {
        What::Count => Ok(None),
        What::Measure(measure) => core.tallies(alloc, request, measure, steps),
    }
}

/// The text of the answer to a request over a core: of the plain sum of each row, or the number of its facts.
pub fn written_answer<L: Ledger>(
    alloc: Global,
    core: &Core,
    request: &Request,
    steps: &mut Steps<L>,
) -> Result<Text, NoMemory>
    requires fits { fits (plains core.now.dims) request.now.group request.now.picks ≡ true }
    requires measure { IsThere core.now.dims request.now.what }
    ensures { IfOk result (λ text. (p : Policy) → text ≡ answer_words core.now.dims request.now (requests.answer (world core.now p) request.now)) }
{
    let _rules = core.dims();
    let found = tallies_by_rank(alloc, core, request, steps)?;
    if let Some(tallies) = found {
        let points = core.shape().points.as_slice();
        return tallied_text(alloc, core.dims(), points, request, tallies.as_slice());
    }
    let sums = answer_by_rows(alloc, core, request, steps)?;
    answer_text(alloc, core.dims(), request, &sums)
}
