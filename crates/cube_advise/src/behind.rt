// The text of what can be released behind a history.
ghost use Rattle.std.specs.Prelude.{◌≡◌, ◌<◌, ◌≤◌, ◌++◌, None, length, IfOk, OnOk};
ghost use Rattle.cube_model.specs.Cores.{shown};
ghost use Rattle.cube_model.specs.declared.policy.Method.TheVariants as methods;
ghost use Rattle.cube_model.specs.Entries.{requests};
ghost use Rattle.cube_model.specs.Policies.{IsPolicy};
ghost use Rattle.cube_model.specs.Protection.{method};
ghost use Rattle.cube_admit.specs.States.{IsStateOf};
ghost use Rattle.cube_text.specs.Counts.{count_line};
ghost use Rattle.cube_advise.specs.Behind.{links_line, lines_behind, behind_text};
ghost use Rattle.cube_advise.specs.Holdings.{links_held, most_links, room as room_behind};

use crate::advising::push_lattice;
use cube_admit::State;
use cube_core::Core;
use cube_model::{Dims, Entry, Method, NoMemory, Policy, Text};
use cube_source::guarded;
use cube_text::{push_count, push_name};
use std::alloc::Global;

// The most requests that a history holds.
const MOST_HELD: u64 = 16_384;

// How many entries of a history are requests.
fn count_requests(history: &[Entry]) -> u64
    requires { length (requests history.now) ≤ 16384 }
    ensures { result ≡ length (requests history.now) }
{
    let mut count = 0;
    'entries: for entry in history {
        if matches!(entry, Entry::Asked(_)) {
            count += 1;
        }
    }
    count
}

/// How many requests a history still takes.
fn room(state: &State) -> u64
    ensures { result ≡ room_behind state.now.history }
{
    MOST_HELD - count_requests(state.history())
}

// How many links are held of a parity measure.
fn links_of(core: &Core, policy: &Policy, state: &State, measure: u32) -> u64
    requires policy { IsPolicy core.now.dims policy.now }
    requires stands { IsStateOf (shown core.now policy.now) state.now }
    requires none { state.now.pending ≡ None }
    requires measure { measure < length core.now.dims.measures }
    requires parity { method (shown core.now policy.now) measure ≡ methods.Parity }
    ensures { result ≡ links_held (shown core.now policy.now) state.now.history measure }
{
    let (_core, _policy) = (core, policy);
    match state.colouring(measure) {
        None => 0,
        Some(colouring) => colouring.mark(),
    }
}

// The most links that can be held of a parity measure.
fn most_links_of(alloc: Global, core: &Core, policy: &Policy, measure: u32) -> Result<u64, NoMemory>
    requires policy { IsPolicy core.now.dims policy.now }
    ensures { IfOk result (λ most. most ≡ most_links (shown core.now policy.now) measure) }
{
    let places = u64::from(core.len());
    if guarded(alloc, core, policy, measure)?.is_empty() {
        Ok(places)
    } else {
        Ok(places.saturating_sub(1))
    }
}

fn push_links(
    text: &mut Text,
    dims: &Dims,
    measure: u32,
    held: u64,
    most: u64,
) -> Result<(), NoMemory>
    requires { measure < length dims.now.measures }
    ensures { OnOk result (text.new ≡ text.old ++ links_line dims.now measure held most) }
{
    text.extend(b"links ")?;
    push_name(text, dims.measure(measure).name())?;
    text.push(b' ')?;
    text.push_number(held)?;
    text.extend(b" of ")?;
    text.push_number(most)?;
    text.push(b'\n')
}

fn push_measure(
    alloc: Global,
    text: &mut Text,
    core: &Core,
    policy: &Policy,
    state: &State,
    measure: u32,
) -> Result<(), NoMemory>
    requires policy { IsPolicy core.now.dims policy.now }
    requires stands { IsStateOf (shown core.now policy.now) state.now }
    requires none { state.now.pending ≡ None }
    requires measure { measure < length core.now.dims.measures }
    ensures { OnOk result (text.new ≡ text.old ++ lines_behind core.now.dims (shown core.now policy.now) state.now.history measure) }
{
    match policy.method(measure) {
        Method::Plain => Ok(()),
        Method::Lattice => push_lattice(alloc, text, core, policy, state.source(measure), measure),
        Method::Parity => {
            let held = links_of(core, policy, state, measure);
            let most = most_links_of(alloc, core, policy, measure)?;
            push_links(text, core.dims(), measure, held, most)
        }
    }
}

/// What can be released behind a history, and how much of what it can hold it holds: the lines of `advice` for each lattice measure,
/// `links NAME K of N` for each parity measure, the measures in order, and last `room N`. No request may wait.
pub fn advice_behind(
    alloc: Global,
    core: &Core,
    policy: &Policy,
    state: &State,
) -> Result<Text, NoMemory>
    requires policy { IsPolicy core.now.dims policy.now }
    requires stands { IsStateOf (shown core.now policy.now) state.now }
    requires none { state.now.pending ≡ None }
    ensures { IfOk result (λ text. text ≡ behind_text core.now.dims (shown core.now policy.now) state.now.history) }
{
    let _rules = core.dims();
    let mut text = Text::new(alloc);
    'measures: for measure in 0..policy.methods.len() {
        push_measure(alloc, &mut text, core, policy, state, measure as u32)?;
    }
    push_count(&mut text, b"room", room(state))?;
    Ok(text)
}
