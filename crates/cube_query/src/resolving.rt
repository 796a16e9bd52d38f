// From a query to the request that it names.
ghost use Rattle.std.specs.Prelude.{unwrap_or, ◌≡◌, ◌<◌, ◌⊎◌, Option, length, map, Some, None, Ok, Err, is_some, replicate, false, MatchResult, IfOk, if◌then◌else◌};
ghost use Rattle.cube_model.specs.Answers.{Answers};
ghost use Rattle.cube_model.specs.Checks.{unless};
ghost use Rattle.cube_model.specs.Dims.{dimension_at, dimension_names, members};
ghost use Rattle.cube_query.specs.Requests.{number, is_unknown, named, what_faults, what_of, by_faults, picks_faults, said_of, pick_faults, level_in_dimension, pick_in_dimension, resolved};
ghost use Rattle.cube_query.specs.Placing.{level_placed, pick_placed, all_placed, or_all};
ghost use Rattle.cube_query.specs.declared.resolving.ResolveFault.TheVariants as fault;

use crate::{LevelName, Name, PickName, Query};
use cube_dims::{find_dimension, find_level, find_measure, find_member};
use cube_model::{Dims, Items, Levels, NoMemory, Pick, Picks, Request, What};
use std::alloc::Global;

/// Why a query names no request, with the byte of its text at which the name stands that is at fault.
#[derive(Clone, Copy, Debug, PartialEq, Eq)]
pub enum ResolveFault {
    /// No measure has the name.
    UnknownMeasure { at: u64 },
    /// No dimension has the name.
    UnknownDimension { at: u64 },
    /// An earlier item of the same list names the dimension.
    DimensionTwice { at: u64 },
    /// No named level of the dimension has the name.
    UnknownLevel { at: u64 },
    /// No member of the level has the name.
    UnknownMember { at: u64 },
    /// The last member of a span stands before its first, which is the one at this byte.
    Backwards { at: u64 },
    NoMemory,
}

impl From<NoMemory> for ResolveFault {
    ghost from_gives = { λ _ e. e ≡ fault.NoMemory };

    fn from(_error: NoMemory) -> ResolveFault {
        ResolveFault::NoMemory
    }
}

// What is asked.
fn known_what(dims: &Dims, name: &Name) -> Result<What, ResolveFault>
    ensures { result ≡ unless (what_faults dims.now name.now) (what_of dims.now name.now.text) }
{
    if name.text.as_slice() == b"count".as_slice() {
        return Ok(What::Count);
    }
    match find_measure(dims, name.text.as_slice()) {
        Some(measure) => Ok(What::Measure(measure)),
        None => Err(ResolveFault::UnknownMeasure { at: name.at }),
    }
}

fn known_dimension(dims: &Dims, name: &Name) -> Result<u32, ResolveFault>
    ensures known { result ≡ (if is_unknown name.now.text (dimension_names dims.now) then Err (fault.UnknownDimension name.now.at) else Ok (number name.now.text (dimension_names dims.now))) }
    ensures within { IfOk result (λ d. d < length dims.now.dimensions) }
{
    match find_dimension(dims, name.text.as_slice()) {
        Some(dimension) => Ok(dimension),
        None => Err(ResolveFault::UnknownDimension { at: name.at }),
    }
}

fn known_level(dims: &Dims, d: u32, name: &LevelName) -> Result<u32, ResolveFault>
    requires dimension { d ≡ number name.now.dimension.text (dimension_names dims.now) }
    requires within { d < length dims.now.dimensions }
    ensures known { result ≡ (if is_unknown name.now.level.text (dimension_at dims.now d).levels then Err (fault.UnknownLevel name.now.level.at) else Ok (number name.now.level.text (dimension_at dims.now d).levels)) }
    ensures within { IfOk result (λ l. l < length (dimension_at dims.now d).levels) }
{
    match find_level(dims, d, name.level.text.as_slice()) {
        Some(level) => Ok(level),
        None => Err(ResolveFault::UnknownLevel { at: name.level.at }),
    }
}

fn known_member(dims: &Dims, d: u32, l: u32, name: &Name) -> Result<u32, ResolveFault>
    requires dimension { d < length dims.now.dimensions }
    requires level { l < length (dimension_at dims.now d).levels }
    ensures { result ≡ (if is_unknown name.now.text (members (dimension_at dims.now d) l) then Err (fault.UnknownMember name.now.at) else Ok (number name.now.text (members (dimension_at dims.now d) l))) }
{
    match find_member(dims, d, l, name.text.as_slice()) {
        Some(member) => Ok(member),
        None => Err(ResolveFault::UnknownMember { at: name.at }),
    }
}

// The last member, for which no second look-up is made where it is named as the first.
fn last_member(
    dims: &Dims,
    d: u32,
    l: u32,
    name: &PickName,
    first: u32,
) -> Result<u32, ResolveFault>
    requires dimension { d < length dims.now.dimensions }
    requires level { l < length (dimension_at dims.now d).levels }
    requires known { is_unknown name.now.first.text (members (dimension_at dims.now d) l) ≡ false }
    requires first { first ≡ number name.now.first.text (members (dimension_at dims.now d) l) }
    ensures { result ≡ (if is_unknown name.now.last.text (members (dimension_at dims.now d) l) then Err (fault.UnknownMember name.now.last.at) else Ok (number name.now.last.text (members (dimension_at dims.now d) l))) }
{
    if name.last.text.as_slice() == name.first.text.as_slice() {
        return Ok(first);
    }
    known_member(dims, d, l, &name.last)
}

// Places a level under its dimension.
#[tactic(auto, unfolding(crate::specs::Placing::level_placed))]
fn place_level(
    dims: &Dims,
    levels: &mut Vec<Option<u32>>,
    name: &LevelName,
) -> Result<(), ResolveFault>
    requires { length levels.old.items ≡ length dims.now.dimensions }
    ensures placed { MatchResult result (λ _. level_placed dims.now levels.old.items name.now ≡ Ok levels.new.items) (λ e. level_placed dims.now levels.old.items name.now ≡ Err e) }
    ensures length { length levels.new.items ≡ length levels.old.items }
{
    let d = known_dimension(dims, &name.dimension)?;
    if levels[d as usize].is_some() {
        return Err(ResolveFault::DimensionTwice {
            at: name.dimension.at,
        });
    }
    let l = known_level(dims, d, name)?;
    levels[d as usize] = Some(l);
    Ok(())
}

// The pick that a dimension gets.
fn known_pick(dims: &Dims, d: u32, name: &PickName) -> Result<Pick, ResolveFault>
    requires dimension { d ≡ number name.now.level.dimension.text (dimension_names dims.now) }
    requires within { d < length dims.now.dimensions }
    ensures { result ≡ unless (pick_faults dims.now name.now) (pick_in_dimension (dimension_at dims.now d) name.now) }
{
    let l = known_level(dims, d, &name.level)?;
    let first = known_member(dims, d, l, &name.first)?;
    let last = last_member(dims, d, l, name, first)?;
    if last < first {
        return Err(ResolveFault::Backwards { at: name.first.at });
    }
    Ok(Pick {
        level: l,
        first,
        last,
    })
}

// Places a pick under its dimension.
#[tactic(auto, unfolding(crate::specs::Placing::pick_placed))]
fn place_pick(
    dims: &Dims,
    picks: &mut Vec<Option<Pick>>,
    name: &PickName,
) -> Result<(), ResolveFault>
    requires { length picks.old.items ≡ length dims.now.dimensions }
    ensures placed { MatchResult result (λ _. pick_placed dims.now picks.old.items name.now ≡ Ok picks.new.items) (λ e. pick_placed dims.now picks.old.items name.now ≡ Err e) }
    ensures length { length picks.new.items ≡ length picks.old.items }
{
    let d = known_dimension(dims, &name.level.dimension)?;
    if picks[d as usize].is_some() {
        return Err(ResolveFault::DimensionTwice {
            at: name.level.dimension.at,
        });
    }
    let pick = known_pick(dims, d, name)?;
    picks[d as usize] = Some(pick);
    Ok(())
}

// The level of each dimension that an item names.
fn place_levels(
    alloc: Global,
    dims: &Dims,
    names: &[LevelName],
) -> Result<Vec<Option<u32>>, ResolveFault>
    ensures length { IfOk result (λ levels. length levels.items ≡ length dims.now.dimensions) }
    ensures placed { MatchResult result (λ levels. all_placed (level_placed dims.now) (replicate (length dims.now.dimensions) None) names.now ≡ Ok levels.items) (λ e. (e ≡ fault.NoMemory) ⊎ (all_placed (level_placed dims.now) (replicate (length dims.now.dimensions) None) names.now ≡ Err e)) }
{
    let mut levels: Vec<Option<u32>> = no_levels(alloc, dims.dimensions().len())?;
    for name in names {
        place_level(dims, &mut levels, name)?;
    }
    Ok(levels)
}

fn no_levels(alloc: Global, count: usize) -> Result<Vec<Option<u32>>, NoMemory>
    ensures { IfOk result (λ levels. levels.items ≡ replicate count None) }
{
    Ok(vec![in alloc; None; count]?)
}

fn no_picks(alloc: Global, count: usize) -> Result<Vec<Option<Pick>>, NoMemory>
    ensures { IfOk result (λ picks. picks.items ≡ replicate count None) }
{
    Ok(vec![in alloc; None; count]?)
}

// The pick of each dimension that an item names.
fn place_picks(alloc: Global, dims: &Dims, names: &[PickName]) -> Result<Picks, ResolveFault>
    ensures { MatchResult result (λ picks. all_placed (pick_placed dims.now) (replicate (length dims.now.dimensions) None) names.now ≡ Ok picks) (λ e. (e ≡ fault.NoMemory) ⊎ (all_placed (pick_placed dims.now) (replicate (length dims.now.dimensions) None) names.now ≡ Err e)) }
{
    let mut picks = no_picks(alloc, dims.dimensions().len())?;
    for name in names {
        place_pick(dims, &mut picks, name)?;
    }
    Ok(Picks::from_vec(picks))
}

// The grouping levels: what was said, and `all` for the other dimensions.
fn group_of(alloc: Global, dims: &Dims, levels: &[Option<u32>]) -> Result<Levels, NoMemory>
    requires { length levels.now ≡ length dims.now.dimensions }
    ensures { IfOk result (λ group. group ≡ or_all dims.now.dimensions levels.now) }
{
    let mut group = Levels::new(alloc);
    for (d, dimension) in dims.dimensions().iter().enumerate() {
        group.push(levels[d].unwrap_or(dimension.levels().len() as u32))?;
    }
    Ok(group)
}

// The grouping levels that the items name.
#[tactic(auto, using(crate::proofs::Places::levels_said, crate::proofs::Places::levels_fault))]
fn known_group(alloc: Global, dims: &Dims, names: &[LevelName]) -> Result<Levels, ResolveFault>
    ensures { Answers fault.NoMemory result (unless (by_faults dims.now names.now) (map (λ d. unwrap_or (said_of (λ x. x) level_in_dimension names.now d) (length d.levels)) dims.now.dimensions)) }
{
    let _rules = dims.dimensions();
    let levels = place_levels(alloc, dims, names)?;
    Ok(group_of(alloc, dims, &levels)?)
}

// The picks that the items name.
#[tactic(auto, using(crate::proofs::Places::picks_said))]
fn known_picks(alloc: Global, dims: &Dims, names: &[PickName]) -> Result<Picks, ResolveFault>
    ensures { Answers fault.NoMemory result (unless (picks_faults dims.now names.now) (map (said_of (λ x. x.level) pick_in_dimension names.now) dims.now.dimensions)) }
{
    let _rules = dims.dimensions();
    place_picks(alloc, dims, names)
}

/// The request that a query names, or its first fault: of what is asked, and then of the items in the order of the
/// text, of each its dimension, level and members. Each name is looked up once.
#[tactic(auto, using(crate::proofs::Places::first_fault, crate::proofs::Places::no_fault), unfolding(crate::specs::Requests::resolved))]
pub fn resolve(alloc: Global, dims: &Dims, query: &Query) -> Result<Request, ResolveFault>
    ensures { Answers fault.NoMemory result (resolved dims.now query.now) }
{
    let what = known_what(dims, &query.what)?;
    let group = known_group(alloc, dims, query.by.as_slice())?;
    let picks = known_picks(alloc, dims, query.picks.as_slice())?;
    Ok(Request { what, group, picks })
}
