// A history that is carried over from an old cube to one that continues it.
ghost use Rattle.std.specs.Prelude.{◌≡◌, ◌<◌, ◌++◌, true, length, map, None, Some, IfOk, OnOk};
ghost use Rattle.cube_model.specs.declared.entry.Entry.TheVariants as entries;
ghost use Rattle.cube_model.specs.declared.policy.Method.TheVariants as methods;
ghost use Rattle.cube_model.specs.Compaction.{source_entry};
ghost use Rattle.cube_model.specs.Cores.{shown};
ghost use Rattle.cube_model.specs.Cubes.{are_levels, cuboids_below};
ghost use Rattle.cube_model.specs.Dims.{plains};
ghost use Rattle.cube_model.specs.Policies.{IsPolicy};
ghost use Rattle.cube_model.specs.Protection.{method, listed};
ghost use Rattle.cube_admit.specs.States.{IsStateOf};
ghost use Rattle.cube_carry.specs.Carrying as carrying;
ghost use Rattle.cube_carry.specs.Continues.{Continues};
ghost use Rattle.cube_carry.specs.Names.{named, carried_levels};
ghost use Rattle.cube_carrying.specs.Crossings.{IsCarrying};
ghost use Rattle.cube_carrying.specs.Given.{Puts};
ghost use Rattle.cube_carrying.specs.Histories.{IsCarriedBy};
ghost use Rattle.cube_carrying.specs.Places.{carried_places};
ghost use Rattle.cube_carrying.specs.Standing as standing;
ghost use Rattle.cube_source.specs.Blocks.{AreFlags};

use crate::apart::flags_of;
use crate::crossings::Crossing;
use crate::held::{kept_colouring, kept_source};
use crate::links::{fixed_cell, links_by};
use crate::measures::measure_in;
use crate::sources::stand_in;
use cube_admit::State;
use cube_core::Core;
use cube_model::{Cell, Entry, History, Levels, LinkList, Method, NoMemory, Places, Policy};
use std::alloc::Global;

/// Why a history is not carried over. The measure and the cell are those of the new cube.
#[derive(Drop)]
pub enum Stop {
    /// No cuboid can stand for the source of this measure.
    NoSource(u32),
    /// The carried links of this measure fix this protected cell.
    Fixes(u32, Cell),
}

/// What becomes of a history.
#[derive(Drop)]
pub enum Carried {
    /// These entries stand for it in the new cube.
    Entries(History),
    /// None do: the first thing that stops it.
    Stopped(Stop),
}

/// Puts what stands for an old source behind a history, or says that nothing does.
fn put_source(
    history: &mut History,
    alloc: Global,
    crossing: &Crossing,
    flags: &[bool],
    source: &Levels,
) -> Result<Option<Stop>, NoMemory>
    requires policy { IsPolicy crossing.now.new.now.dims crossing.now.new_policy.now }
    requires measure { crossing.now.measure < length crossing.now.new.now.dims.measures }
    requires flags { length flags.now ≡ length crossing.now.new.now.shape.points }
    requires source { are_levels (plains crossing.now.new.now.dims) (carried_levels crossing.now.old.now.dims crossing.now.new.now.dims source.now) ≡ true }
    ensures { IfOk result (Puts
        (carrying.unless_found crossing.now.measure (Some source.now) (standing.last_standing (shown crossing.now.new.now crossing.now.new_policy.now) flags.now crossing.now.measure (cuboids_below (carried_levels crossing.now.old.now.dims crossing.now.new.now.dims source.now))))
        (source_entry crossing.now.measure (standing.last_standing (shown crossing.now.new.now crossing.now.new_policy.now) flags.now crossing.now.measure (cuboids_below (carried_levels crossing.now.old.now.dims crossing.now.new.now.dims source.now))))
        history.old history.new) }
{
    let measure = crossing.measure;
    match stand_in(alloc, crossing, flags, source)? {
        None => Ok(Some(Stop::NoSource(measure))),
        Some(levels) => {
            history.push(Entry::Source { measure, levels })?;
            Ok(None)
        }
    }
}

/// Puts what stands for the old entries on a lattice measure behind a history.
fn carry_source(
    history: &mut History,
    alloc: Global,
    crossing: &Crossing,
    state: &State,
    flags: &[bool],
) -> Result<Option<Stop>, NoMemory>
    requires crossing { IsCarrying crossing.now state.now }
    requires flags { AreFlags (length crossing.now.new.now.shape.points) (λ k. listed k (carried_places crossing.now.old.now crossing.now.new.now)) flags.now }
    requires lattice { method (shown crossing.now.new.now crossing.now.new_policy.now) crossing.now.measure ≡ methods.Lattice }
    ensures { IfOk result (Puts
        (carrying.stops_by methods.Lattice (named crossing.now.old.now crossing.now.old_policy.now) (named crossing.now.new.now crossing.now.new_policy.now) state.now.history crossing.now.measure)
        (carrying.carried_by methods.Lattice (named crossing.now.old.now crossing.now.old_policy.now) (named crossing.now.new.now crossing.now.new_policy.now) state.now.history crossing.now.measure)
        history.old history.new) }
{
    let number = measure_in(crossing.new.dims(), crossing.old.dims(), crossing.measure);
    match kept_source(crossing.old, crossing.old_policy, state, number) {
        None => Ok(None),
        Some(source) => put_source(history, alloc, crossing, flags, source),
    }
}

/// The links that are kept of a parity measure of the new cube in the old one, with the places of the new cube.
fn carried_links(alloc: Global, crossing: &Crossing, state: &State) -> Result<LinkList, NoMemory>
    requires crossing { IsCarrying crossing.now state.now }
    requires parity { method (shown crossing.now.new.now crossing.now.new_policy.now) crossing.now.measure ≡ methods.Parity }
    ensures { IfOk result (λ links. links ≡ carrying.carried_links (named crossing.now.old.now crossing.now.old_policy.now) (named crossing.now.new.now crossing.now.new_policy.now) state.now.history crossing.now.measure) }
{
    let number = measure_in(crossing.new.dims(), crossing.old.dims(), crossing.measure);
    match kept_colouring(crossing.old, crossing.old_policy, state, number) {
        None => Ok(LinkList::new(alloc)),
        Some(colouring) => links_by(alloc, crossing.places, colouring),
    }
}

/// Puts links behind a history.
fn put_links(history: &mut History, measure: u32, links: &LinkList) -> Result<(), NoMemory>
    ensures { OnOk result (history.new ≡ history.old ++ map (entries.Linked measure) links.now) }
{
    'links: for link in links.as_slice() {
        history.push(Entry::Linked {
            measure,
            link: *link,
        })?;
    }
    Ok(())
}

/// Puts what stands for the old entries on a parity measure behind a history.
fn carry_links(
    history: &mut History,
    alloc: Global,
    crossing: &Crossing,
    state: &State,
) -> Result<Option<Stop>, NoMemory>
    requires crossing { IsCarrying crossing.now state.now }
    requires parity { method (shown crossing.now.new.now crossing.now.new_policy.now) crossing.now.measure ≡ methods.Parity }
    ensures { IfOk result (Puts
        (carrying.stops_by methods.Parity (named crossing.now.old.now crossing.now.old_policy.now) (named crossing.now.new.now crossing.now.new_policy.now) state.now.history crossing.now.measure)
        (carrying.carried_by methods.Parity (named crossing.now.old.now crossing.now.old_policy.now) (named crossing.now.new.now crossing.now.new_policy.now) state.now.history crossing.now.measure)
        history.old history.new) }
{
    let _old = crossing.old.dims();
    let _new = crossing.new.dims();
    let measure = crossing.measure;
    let links = carried_links(alloc, crossing, state)?;
    match fixed_cell(alloc, crossing.new, crossing.new_policy, measure, &links)? {
        Some(cell) => Ok(Some(Stop::Fixes(measure, cell))),
        None => {
            put_links(history, measure, &links)?;
            Ok(None)
        }
    }
}

/// Puts what stands for the old entries on a measure behind a history.
fn carry_measure(
    history: &mut History,
    alloc: Global,
    crossing: &Crossing,
    state: &State,
    flags: &[bool],
) -> Result<Option<Stop>, NoMemory>
    requires crossing { IsCarrying crossing.now state.now }
    requires flags { AreFlags (length crossing.now.new.now.shape.points) (λ k. listed k (carried_places crossing.now.old.now crossing.now.new.now)) flags.now }
    ensures { IfOk result (Puts
        (carrying.stops_by (method (shown crossing.now.new.now crossing.now.new_policy.now) crossing.now.measure) (named crossing.now.old.now crossing.now.old_policy.now) (named crossing.now.new.now crossing.now.new_policy.now) state.now.history crossing.now.measure)
        (carrying.carried_on (named crossing.now.old.now crossing.now.old_policy.now) (named crossing.now.new.now crossing.now.new_policy.now) state.now.history crossing.now.measure)
        history.old history.new) }
{
    match crossing.new_policy.method(crossing.measure) {
        Method::Plain => Ok(None),
        Method::Lattice => carry_source(history, alloc, crossing, state, flags),
        Method::Parity => carry_links(history, alloc, crossing, state),
    }
}

/// The history of an old cube, carried over to one that continues it. No request may wait.
pub fn carry(
    alloc: Global,
    old: &Core,
    old_policy: &Policy,
    state: &State,
    new: &Core,
    new_policy: &Policy,
    places: &Places,
) -> Result<Carried, NoMemory>
    requires old_policy { IsPolicy old.now.dims old_policy.now }
    requires new_policy { IsPolicy new.now.dims new_policy.now }
    requires continues { Continues (named old.now old_policy.now) (named new.now new_policy.now) }
    requires places { places.now ≡ carried_places old.now new.now }
    requires stands { IsStateOf (shown old.now old_policy.now) state.now }
    requires none { state.now.pending ≡ None }
    ensures { IfOk result (IsCarriedBy (named old.now old_policy.now) (named new.now new_policy.now) state.now.history) }
{
    let _rules = old.dims();
    let places = places.as_slice();
    let flags = flags_of(alloc, new.len() as usize, places)?;
    let mut history = History::new(alloc);
    'measures: for measure in 0..new_policy.methods.len() as u32 {
        let crossing = Crossing {
            old,
            old_policy,
            new,
            new_policy,
            places,
            measure,
        };
        match carry_measure(&mut history, alloc, &crossing, state, flags.as_slice())? {
            None => {}
            Some(stop) => return Ok(Carried::Stopped(stop)),
        }
    }
    Ok(Carried::Entries(history))
}
