// The cuboids that a book answers from, and the answers.
ghost use Rattle.std.specs.Prelude.{◌≡◌, ◌<◌, ◌≤◌, ◌+◌, ℕ, true, None, length, flat_map, option_copied, IfOk, OnOk};
ghost use Rattle.std.specs.List.{AllByRecursion};
ghost use Rattle.std.specs.Option.{IfSome};
ghost use Rattle.cube_model.specs.declared.policy.Policy.{Policy};
ghost use Rattle.cube_model.specs.declared.request.What.TheVariants as whats;
ghost use Rattle.cube_model.specs.Cores.{shown, world};
ghost use Rattle.cube_model.specs.Dims.{plains};
ghost use Rattle.cube_model.specs.Policies.{IsPolicy};
ghost use Rattle.cube_model.specs.Requests.{answer as answer_of};
ghost use Rattle.cube_core.specs.Grouping.{pointed, ArePoints};
ghost use Rattle.cube_core.specs.Tallies.{row_of_tally};
ghost use Rattle.cube_admit.specs.States.{waiting, IsStateOf};
ghost use Rattle.cube_query.specs.Canonical.{is_request};
ghost use Rattle.cube_answers.specs.AnswerText.{answer_text as answer_words, IsAnswer};
ghost use Rattle.cube_rollup.specs.Rollups.{kept_at, IsCuboidAt, RollupsStand};
ghost use Rattle.cube_engine.specs.Reads.{cuboid_of, IsFineEnough};

use cube_admit::{Next, State};
use cube_answers::{answer_text, tallied_text, written_answer};
use cube_core::{Core, Steps, Tally};
use cube_model::{Answer, NoMemory, Policy, Request, Text, What};
use cube_rollup::{Cuboid, Rollups};
use std::alloc::Global;
use std::sync::ledger::{Blank, Ledger};

// The cuboid at the source of a measure, where it has one.
fn roll<L: Ledger>(
    alloc: Global,
    core: &Core,
    policy: &Policy,
    state: &State,
    measure: u32,
    steps: &mut Steps<L>,
) -> Result<Option<Cuboid>, NoMemory>
    requires policy { IsPolicy core.now.dims policy.now }
    requires stands { IsStateOf (shown core.now policy.now) state.now }
    requires measure { measure < length policy.now.methods }
    ensures { IfOk result (λ cuboid. IsCuboidAt core.now measure (kept_at (shown core.now policy.now) state.now.history measure) cuboid) }
{
    let _policy = policy;
    match state.source(measure) {
        None => Ok(None),
        Some(levels) => Ok(Some(Cuboid::build(alloc, core, levels, measure, steps)?)),
    }
}

/// The cuboids at the sources of a history behind which nothing waits.
pub(crate) fn roll_all<L: Ledger>(
    alloc: Global,
    core: &Core,
    policy: &Policy,
    state: &State,
    blank: Blank,
) -> Result<Rollups, NoMemory>
    requires name { blank.name ≡ L.name }
    requires parts { blank.parts ≡ L.parts }
    requires some { 0 < L.parts }
    requires policy { IsPolicy core.now.dims policy.now }
    requires stands { IsStateOf (shown core.now policy.now) state.now }
    ensures { IfOk result (λ rollups. RollupsStand core.now policy.now state.now.history None rollups) }
{
    let _rules = core.dims();
    let mut steps = Steps::<L>::new(blank);
    let mut rollups = Rollups::new(alloc);
    'measures: for measure in 0..policy.methods.len() {
        let cuboid = roll(alloc, core, policy, state, measure as u32, &mut steps)?;
        rollups.push(cuboid)?;
    }
    Ok(rollups)
}

/// Holds the cuboid at the source that the request that waits makes, where it waits on a lattice measure.
pub(crate) fn hold_next<L: Ledger>(
    alloc: Global,
    core: &Core,
    policy: &Policy,
    state: &State,
    rollups: &mut Rollups,
    steps: &mut Steps<L>,
) -> Result<(), NoMemory>
    requires policy { IsPolicy core.now.dims policy.now }
    requires stands { IsStateOf (shown core.now policy.now) state.now }
    requires rolled { RollupsStand core.now policy.now state.now.history None rollups.old }
    ensures ok { OnOk result (RollupsStand core.now policy.now state.now.history (waiting state.now) rollups.new) }
    ensures kept { rollups.new.kept ≡ rollups.old.kept }
    ensures steps { state.now.pending ≡ None → steps.new ≡ steps.old }
{
    let _policy = policy;
    let Some(pending) = state.waiting() else {
        return Ok(());
    };
    match &pending.next {
        Next::Mark(_) => Ok(()),
        Next::Source(levels) => {
            let cuboid = Cuboid::build(alloc, core, levels, pending.measure, steps)?;
            rollups.hold(cuboid);
            Ok(())
        }
    }
}

// The cuboid that a request is answered from, where there is one.
fn cuboid_for<'a>(rollups: &'a Rollups, what: What) -> Option<&'a Cuboid>
    requires { (m : ℕ) → what ≡ whats.Measure m → m < length rollups.now.kept }
    ensures { option_copied result ≡ cuboid_of rollups.now what }
{
    match what {
        What::Count => None,
        What::Measure(measure) => rollups.at(measure),
    }
}

// The sums of a request from the cells of a cuboid.
#[tactic(auto, using(cube_answers::proofs::Valid::valid_fits))]
fn rolled_sums<L: Ledger>(
    alloc: Global,
    core: &Core,
    cuboid: &Cuboid,
    request: &Request,
    steps: &mut Steps<L>,
) -> Result<Answer, NoMemory>
    requires request { is_request core.now.dims request.now ≡ true }
    requires serves { IsFineEnough core.now request.now cuboid.now }
    ensures sums { IfOk result (λ answer. (p : Policy) → answer ≡ answer_of (world core.now p) request.now) }
    ensures written { IfOk result (λ answer. IsAnswer core.now.dims request.now answer) }
    ensures steps { steps.new ≤ steps.old + length cuboid.now.cells }
{
    let _rules = core.dims();
    cuboid.answer(alloc, core.dims(), request, steps)
}

// The tallies of the keys of a request over the cells of a cuboid, where that is the shorter way.
#[tactic(auto, using(cube_answers::proofs::Valid::valid_fits))]
fn rolled_tallies<L: Ledger>(
    alloc: Global,
    core: &Core,
    cuboid: &Cuboid,
    request: &Request,
    steps: &mut Steps<L>,
) -> Result<Option<Vec<Tally>>, NoMemory>
    requires request { is_request core.now.dims request.now ≡ true }
    requires serves { IsFineEnough core.now request.now cuboid.now }
    ensures rows { IfOk result (λ found. IfSome found (λ tallies. (p : Policy) → flat_map (row_of_tally (pointed core.now.dims cuboid.now.points) request.now) tallies.items ≡ answer_of (world core.now p) request.now)) }
    ensures marks { IfOk result (λ found. IfSome found (λ tallies. AllByRecursion (λ tally. tally.mark ≤ length cuboid.now.points) tallies.items)) }
    ensures points { ArePoints (plains core.now.dims) cuboid.now.points }
    ensures steps { steps.new ≤ steps.old + length cuboid.now.cells }
    ensures none { IfOk result (λ found. found ≡ None → steps.new ≡ steps.old) }
{
    let _rules = core.dims();
    cuboid.tallies(alloc, core.dims(), request, steps)
}

// The text of the answer to a request from the cells of a cuboid, grouped anew.
#[tactic(auto, using(cube_answers::proofs::Valid::valid_fits, cube_answers::proofs::Valid::valid_measure))]
fn grouped_text<L: Ledger>(
    alloc: Global,
    core: &Core,
    cuboid: &Cuboid,
    request: &Request,
    steps: &mut Steps<L>,
) -> Result<Text, NoMemory>
    requires request { is_request core.now.dims request.now ≡ true }
    requires serves { IsFineEnough core.now request.now cuboid.now }
    ensures text { IfOk result (λ text. (p : Policy) → text ≡ answer_words core.now.dims request.now (answer_of (world core.now p) request.now)) }
    ensures steps { steps.new ≤ steps.old + length cuboid.now.cells }
{
    let _rules = core.dims();
    let found = rolled_tallies(alloc, core, cuboid, request, steps)?;
    if let Some(tallies) = found {
        let points = cuboid.points();
        return tallied_text(alloc, core.dims(), points, request, tallies.as_slice());
    }
    let sums = rolled_sums(alloc, core, cuboid, request, steps)?;
    answer_text(alloc, core.dims(), request, &sums)
}

// The text of the answer to a request from the cells of a cuboid: of these as they stand, where they are the answer.
fn rolled_text<L: Ledger>(
    alloc: Global,
    core: &Core,
    cuboid: &Cuboid,
    request: &Request,
    steps: &mut Steps<L>,
) -> Result<Text, NoMemory>
    requires request { is_request core.now.dims request.now ≡ true }
    requires serves { IsFineEnough core.now request.now cuboid.now }
    ensures text { IfOk result (λ text. (p : Policy) → text ≡ answer_words core.now.dims request.now (answer_of (world core.now p) request.now)) }
    ensures steps { steps.new ≤ steps.old + length cuboid.now.cells }
{
    let _rules = core.dims();
    match cuboid.kept_answer(request, steps) {
        Some(cells) => answer_text(alloc, core.dims(), request, cells),
        None => grouped_text(alloc, core, cuboid, request, steps),
    }
}

// The text of the answer to a request from the core.
#[tactic(auto, using(cube_answers::proofs::Valid::valid_fits, cube_answers::proofs::Valid::valid_measure))]
fn core_text<L: Ledger>(
    alloc: Global,
    core: &Core,
    request: &Request,
    steps: &mut Steps<L>,
) -> Result<Text, NoMemory>
    requires { is_request core.now.dims request.now ≡ true }
    ensures { IfOk result (λ text. (p : Policy) → text ≡ answer_words core.now.dims request.now (answer_of (world core.now p) request.now)) }
{
    written_answer(alloc, core, request, steps)
}

/// The answer to a request that was read, in words: from the cells of the cuboid of its measure, where there is one, and else
/// from the core.
pub(crate) fn answer_request<L: Ledger>(
    alloc: Global,
    core: &Core,
    rollups: &Rollups,
    request: &Request,
    steps: &mut Steps<L>,
) -> Result<Text, NoMemory>
    requires request { is_request core.now.dims request.now ≡ true }
    requires long { length rollups.now.kept ≡ length core.now.dims.measures }
    requires serves { IfSome (cuboid_of rollups.now request.now.what) (IsFineEnough core.now request.now) }
    ensures text { IfOk result (λ text. (p : Policy) → text ≡ answer_words core.now.dims request.now (answer_of (world core.now p) request.now)) }
    ensures steps { IfSome (cuboid_of rollups.now request.now.what) (λ k. steps.new ≤ steps.old + length k.cells) }
{
    match cuboid_for(rollups, request.what) {
        Some(cuboid) => rolled_text(alloc, core, cuboid, request, steps),
        None => core_text(alloc, core, request, steps),
    }
}
