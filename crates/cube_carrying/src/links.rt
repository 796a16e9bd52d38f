// The links that are kept of an old history, with the places of the new cube, and what they fix there.
ghost use Rattle.std.specs.Prelude.{◌≡◌, ◌<◌, ◌^◌, [], not, length, map, position, slice_index_or, IfOk};
ghost use Rattle.std.specs.List.{All};
ghost use Rattle.std.specs.Option.{option_map};
ghost use Rattle.cube_model.specs.declared.policy.Method.TheVariants as methods;
ghost use Rattle.cube_model.specs.Cores.{shown};
ghost use Rattle.cube_model.specs.LinkLaws.{AreOfPlaces, IsOfPlaces};
ghost use Rattle.cube_model.specs.Links.{is_free, basis, suiting};
ghost use Rattle.cube_model.specs.Policies.{IsPolicy};
ghost use Rattle.cube_model.specs.Protection as protection;
ghost use Rattle.cube_model.specs.Protection.{method, core_cell};
ghost use Rattle.cube_model.specs.Verdicts.{fixed_by};
ghost use Rattle.cube_carrying.specs.Links as said;

use cube_colour::{Added, Colouring};
use cube_core::Core;
use cube_model::{Cell, Link, LinkList, NoMemory, Places, Policy};
use cube_source::{guarded, protected};
use std::alloc::Global;

/// A link with the places that a table has for its own.
fn link_by(places: &[u32], link: Link) -> Link
    requires { IsOfPlaces (length places.now) link }
    ensures { result ≡ said.link_by places.now link }
{
    match link {
        Link::Pair(first, second) => Link::Pair(places[first as usize], places[second as usize]),
        Link::Single(place) => Link::Single(places[place as usize]),
    }
}

/// The links that a colouring keeps, with the places that a table has for its own.
pub(crate) fn links_by(
    alloc: Global,
    places: &[u32],
    colouring: &Colouring,
) -> Result<LinkList, NoMemory>
    requires { colouring.now.places ≡ length places.now }
    ensures { IfOk result (λ links. links ≡ map (said.link_by places.now) colouring.now.kept) }
{
    let mut links = LinkList::new(alloc);
    'links: for number in 0..colouring.mark() {
        links.push(link_by(places, colouring.kept(number)))?;
    }
    Ok(links)
}

/// The colouring of so many places by links, where none is guarded.
fn coloured_by(alloc: Global, many: u32, links: &LinkList) -> Result<Colouring, NoMemory>
    requires of_places { AreOfPlaces many links.now }
    requires few { length links.now < 2 ^ 32 }
    ensures { IfOk result (λ made. made ≡ record { places = many; guarded = []; kept = basis many links.now }) }
{
    let mut colouring = Colouring::new(alloc, many, &Places::new(alloc))?;
    match colouring.try_add(alloc, links)? {
        Added::Fits => Ok(colouring),
        Added::Stops { .. } => unreachable!(),
    }
}

/// The number of the first of some places that is not free.
fn first_fixed(colouring: &Colouring, places: &[u32]) -> Option<usize>
    requires { All (λ place. place < colouring.now.places) places.now }
    ensures { result ≡ position (λ place. not (is_free colouring.now.places colouring.now.kept place)) places.now }
{
    places.iter().position(|place| !colouring.is_free(*place))
}

/// The protected cell of a measure with a number.
fn protected_cell(
    alloc: Global,
    core: &Core,
    policy: &Policy,
    measure: u32,
    number: usize,
) -> Result<Cell, NoMemory>
    requires policy { IsPolicy core.now.dims policy.now }
    requires measure { measure < length core.now.dims.measures }
    requires number { number < length (protection.protected (shown core.now policy.now) measure) }
    requires small { number < 2 ^ 32 }
    ensures { IfOk result (λ cell. cell ≡ slice_index_or (protection.protected (shown core.now policy.now) measure) number cell) }
{
    let cells = protected(alloc, core, policy, measure, number as u64 + 1)?;
    match cells.into_vec().pop() {
        Some(cell) => Ok(cell),
        None => unreachable!(),
    }
}

/// The first protected cell of a parity measure that links fix.
pub(crate) fn fixed_cell(
    alloc: Global,
    core: &Core,
    policy: &Policy,
    measure: u32,
    links: &LinkList,
) -> Result<Option<Cell>, NoMemory>
    requires policy { IsPolicy core.now.dims policy.now }
    requires measure { measure < length core.now.dims.measures }
    requires parity { method (shown core.now policy.now) measure ≡ methods.Parity }
    requires of_places { AreOfPlaces (length core.now.shape.points) links.now }
    requires few { length links.now < 2 ^ 32 }
    ensures { IfOk result (λ found. found ≡ option_map (core_cell (shown core.now policy.now)) (fixed_by (suiting (length core.now.shape.points) links.now) (protection.guarded (shown core.now policy.now) measure))) }
{
    let colouring = coloured_by(alloc, core.len(), links)?;
    let guarded = guarded(alloc, core, policy, measure)?;
    match first_fixed(&colouring, guarded.as_slice()) {
        None => Ok(None),
        Some(number) => Ok(Some(protected_cell(alloc, core, policy, measure, number)?)),
    }
}
