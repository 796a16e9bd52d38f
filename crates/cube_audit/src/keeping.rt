// Whether requests keep each measure.
ghost use Rattle.std.specs.Prelude.{◌≡◌, ◌<◌, ◌≤◌, ◌++◌, ◌^◌, [], not, true, find, length, IfOk, IfSome, OnOk};
ghost use Rattle.std.specs.List.{All};
ghost use Rattle.cube_model.specs.declared.policy.Policy.{Policy};
ghost use Rattle.cube_model.specs.Cores.{shown};
ghost use Rattle.cube_model.specs.Cubes.{count_from};
ghost use Rattle.cube_model.specs.Dims.{plains};
ghost use Rattle.cube_model.specs.Entries.{asked as entries_of};
ghost use Rattle.cube_model.specs.Kept.{uncut_by, unkept};
ghost use Rattle.cube_model.specs.Links.{basis, is_free, suiting};
ghost use Rattle.cube_model.specs.Links as model;
ghost use Rattle.cube_model.specs.Protection as protection;
ghost use Rattle.cube_model.specs.Requests.{fits};
ghost use Rattle.cube_model.specs.Verdicts.{source, links_of, fixed_by};
ghost use Rattle.cube_audit.specs.Audits.{kept_or_fixed};
ghost use Rattle.cube_audit.specs.Keeping.{public_of, AreValid};

use crate::auditing::Audited;
use cube_answers::cell_at;
use cube_colour::{Added, Colouring};
use cube_core::Core;
use cube_lattice::{grain, narrow};
use cube_model::{Cell, Levels, Method, NoMemory, Places, Policy, Request};
use cube_pairs::links;
use cube_source::{Judged, guarded, judge};
use std::alloc::Global;

/// Requests over a core under a policy.
#[derive(Drop)]
pub(crate) struct Asked<'a> {
    /// The core.
    pub core: &'a Core,
    /// The policy.
    pub policy: &'a Policy,
    /// The requests, in order.
    pub requests: &'a [Request],
}

/// The source of the requests on a measure: the meet of their grains, or none where there is no such request.
fn source_of(alloc: Global, asked: &Asked, measure: u32) -> Result<Option<Levels>, NoMemory>
    requires { AreValid asked.now }
    ensures { IfOk result (λ found. found ≡ source (entries_of asked.now.requests.now) measure) }
{
    let mut source = None;
    'requests: for request in asked.requests {
        if request.asks_for(measure) {
            source = Some(narrow(source.as_ref(), grain(alloc, request)?));
        }
    }
    Ok(source)
}

/// Puts the links of a request among those of a colouring with no guarded place.
fn add_links(
    alloc: Global,
    core: &Core,
    colouring: &mut Colouring,
    request: &Request,
) -> Result<(), NoMemory>
    requires places { colouring.old.places ≡ length core.now.shape.points }
    requires guarded { colouring.old.guarded ≡ [] }
    requires fits { fits (plains core.now.dims) request.now.group request.now.picks ≡ true }
    ensures places { colouring.new.places ≡ colouring.old.places }
    ensures guarded { colouring.new.guarded ≡ [] }
    ensures kept { OnOk result ((p : Policy) → colouring.new.kept ≡ basis colouring.old.places (colouring.old.kept ++ model.links (shown core.now p) request.now)) }
{
    let _rules = core.dims();
    let rows = core.rows(alloc, request)?;
    let links = links(alloc, &rows)?;
    match colouring.try_add(alloc, &links)? {
        Added::Fits => Ok(()),
        Added::Stops { .. } => unreachable!(),
    }
}

/// The colouring by the links of the requests on a measure.
fn colour(alloc: Global, asked: &Asked, measure: u32) -> Result<Colouring, NoMemory>
    requires { AreValid asked.now }
    ensures places { IfOk result (λ made. made.places ≡ length asked.now.core.now.shape.points) }
    ensures kept { IfOk result (λ made. made.kept ≡ basis (length asked.now.core.now.shape.points) (links_of (public_of asked.now) (entries_of asked.now.requests.now) measure)) }
{
    let mut colouring = Colouring::new(alloc, asked.core.len(), &Places::new(alloc))?;
    'requests: for request in asked.requests {
        if request.asks_for(measure) {
            add_links(alloc, asked.core, &mut colouring, request)?;
        }
    }
    Ok(colouring)
}

/// The first of some places that is not free.
fn first_fixed(colouring: &Colouring, places: &[u32]) -> Option<u32>
    requires { All (λ place. place < colouring.now.places) places.now }
    ensures { result ≡ find (λ place. not (is_free colouring.now.places colouring.now.kept place)) places.now }
{
    places
        .iter()
        .copied()
        .find(|place| !colouring.is_free(*place))
}

/// The first protected cell of a lattice measure that the source of the requests does not cut.
fn unkept_lattice(alloc: Global, asked: &Asked, measure: u32) -> Result<Option<Cell>, NoMemory>
    requires asked { AreValid asked.now }
    requires measure { measure < length asked.now.core.now.dims.measures }
    ensures { IfOk result (λ found. found ≡ uncut_by (public_of asked.now) measure (source (entries_of asked.now.requests.now) measure)) }
{
    let Some(levels) = source_of(alloc, asked, measure)? else {
        return Ok(None);
    };
    match judge(alloc, asked.core, asked.policy, measure, &levels)? {
        Judged::Safe => Ok(None),
        Judged::Uncut { cell } => Ok(Some(cell)),
    }
}

/// The first protected place of a parity measure that the links of the requests do not leave free.
fn fixed_place(alloc: Global, asked: &Asked, measure: u32) -> Result<Option<u32>, NoMemory>
    requires asked { AreValid asked.now }
    ensures place { IfOk result (λ found. found ≡ fixed_by (suiting (length asked.now.core.now.shape.points) (links_of (public_of asked.now) (entries_of asked.now.requests.now) measure)) (protection.guarded (public_of asked.now) measure)) }
    ensures below { IfOk result (λ found. IfSome found (λ place. place < length asked.now.core.now.shape.points)) }
{
    let colouring = colour(alloc, asked, measure)?;
    let guarded = guarded(alloc, asked.core, asked.policy, measure)?;
    Ok(first_fixed(&colouring, guarded.as_slice()))
}

/// The first protected cell of a measure that the requests do not keep.
fn unkept_at(alloc: Global, asked: &Asked, measure: u32) -> Result<Option<Cell>, NoMemory>
    requires asked { AreValid asked.now }
    requires measure { measure < length asked.now.core.now.dims.measures }
    ensures { IfOk result (λ found. found ≡ unkept (public_of asked.now) (entries_of asked.now.requests.now) measure) }
{
    match asked.policy.method(measure) {
        Method::Plain => Ok(None),
        Method::Lattice => unkept_lattice(alloc, asked, measure),
        Method::Parity => match fixed_place(alloc, asked, measure)? {
            None => Ok(None),
            Some(place) => Ok(Some(cell_at(alloc, asked.core, place)?)),
        },
    }
}

/// Whether the requests keep each measure, or else the first that they do not keep, with its first protected cell that fails.
///
/// It judges one source for each lattice measure, and makes one colouring for each parity measure.
pub(crate) fn keep_all(alloc: Global, asked: &Asked) -> Result<Audited, NoMemory>
    requires asked { AreValid asked.now }
    requires few { length asked.now.requests.now ≤ 65536 }
    ensures { IfOk result (λ told. told ≡ kept_or_fixed (length asked.now.requests.now) (public_of asked.now) (entries_of asked.now.requests.now) (count_from 0 (length asked.now.core.now.dims.measures))) }
{
    let measures = asked.core.dims().measures().len() as u32;
    'measures: for measure in 0..measures {
        if let Some(cell) = unkept_at(alloc, asked, measure)? {
            return Ok(Audited::Fixed { measure, cell });
        }
    }
    Ok(Audited::Yes {
        examined: asked.requests.len() as u32,
    })
}
