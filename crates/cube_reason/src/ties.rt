// The links of a history on a measure and of a request, each with where it comes from.
ghost use Rattle.std.specs.Prelude.{◌≡◌, ◌<◌, ◌+◌, ◌++◌, ◌∷◌, [], ℕ, true, length, map, IfOk, OnOk};
ghost use Rattle.std.specs.List.{All};
ghost use Rattle.cube_model.specs.declared.policy.Policy.{Policy};
ghost use Rattle.cube_model.specs.Cores.{shown};
ghost use Rattle.cube_model.specs.Entries.{is_allowed, links_in};
ghost use Rattle.cube_model.specs.Links as said;
ghost use Rattle.cube_model.specs.LinkLaws.{AreOfPlaces};
ghost use Rattle.cube_model.specs.Reasons.{links_by};
ghost use Rattle.cube_model.specs.Requests.{is_valid};
ghost use Rattle.cube_reason.specs.Cases.{public_of, IsCase};
ghost use Rattle.cube_reason.specs.Tied.{AreTies, OfPlaces, EntriesTied, OwnTied, tied};

use crate::cases::Case;
use cube_core::Core;
use cube_model::{Entry, Link, LinkList, NoMemory, Policy, Request};
use cube_pairs::links;
use std::alloc::Global;

/// Where a link comes from, numbered from 1 however many there are.
#[derive(Clone, Copy)]
pub(crate) enum Bringer {
    /// The entry of the history with this number.
    Entry(u64),
    /// The request's own link with this number.
    Own(u64),
}

/// A link, and where it comes from.
#[derive(Clone, Copy)]
pub(crate) struct Tie {
    pub link: Link,
    pub by: Bringer,
}

/// The links of a request.
fn links_of(
    alloc: Global,
    core: &Core,
    policy: &Policy,
    request: &Request,
) -> Result<LinkList, NoMemory>
    requires { is_valid (shown core.now policy.now) request.now ≡ true }
    ensures { IfOk result (λ links. links ≡ said.links (shown core.now policy.now) request.now) }
{
    let rows = core.rows(alloc, request)?;
    links(alloc, &rows)
}

/// A list of one link.
fn one_link(alloc: Global, link: Link) -> Result<LinkList, NoMemory>
    ensures { IfOk result (λ links. links ≡ link ∷ []) }
{
    let mut links = LinkList::new(alloc);
    links.push(link)?;
    Ok(links)
}

/// The links that an entry brings.
fn links_of_entry(
    alloc: Global,
    core: &Core,
    policy: &Policy,
    entry: &Entry,
) -> Result<LinkList, NoMemory>
    requires { is_allowed (shown core.now policy.now) entry.now ≡ true }
    ensures { IfOk result (λ links. links ≡ links_in (shown core.now policy.now) entry.now) }
{
    match entry {
        Entry::Asked(request) => links_of(alloc, core, policy, request),
        Entry::Source { .. } => Ok(LinkList::new(alloc)),
        Entry::Linked { link, .. } => one_link(alloc, *link),
    }
}

/// Puts links that all come from one origin at the end.
fn tie_all(ties: &mut Vec<Tie>, links: &[Link], by: Bringer) -> Result<(), NoMemory>
    ensures { OnOk result (ties.new.items ≡ ties.old.items ++ map (λ l. tied l by) links.now) }
{
    'links: for link in links {
        ties.push(Tie { link: *link, by })?;
    }
    Ok(())
}

/// Puts the links of the entries of a history on a measure, each with its entry's number.
fn tie_history(
    alloc: Global,
    case: &Case,
    measure: u32,
    ties: &mut Vec<Tie>,
) -> Result<(), NoMemory>
    requires case { IsCase case.now }
    requires empty { ties.old.items ≡ [] }
    ensures { OnOk result (EntriesTied (public_of case.now) case.now.history.now measure (length case.now.history.now) ties.new.items) }
{
    'entries: for (index, entry) in case.history.iter().enumerate() {
        if entry.is_on(measure) {
            let links = links_of_entry(alloc, case.core, case.policy, entry)?;
            tie_all(ties, links.as_slice(), Bringer::Entry(index as u64 + 1))?;
        }
    }
    Ok(())
}

/// Puts links of a request at the end, each with its number.
fn tie_own(links: &[Link], ties: &mut Vec<Tie>) -> Result<(), NoMemory>
    ensures { OnOk result (OwnTied links.now (length links.now) ties.old.items ties.new.items) }
{
    'links: for (index, link) in links.iter().enumerate() {
        let by = Bringer::Own(index as u64 + 1);
        ties.push(Tie { link: *link, by })?;
    }
    Ok(())
}

/// The links of a history on a measure and of a request, each with where it comes from.
pub(crate) fn ties(alloc: Global, case: &Case, measure: u32) -> Result<Vec<Tie>, NoMemory>
    requires case { IsCase case.now }
    ensures ties { IfOk result (λ ties. AreTies (links_by (public_of case.now) case.now.history.now case.now.request.now measure) ties.items) }
    ensures places { IfOk result (λ ties. OfPlaces (length case.now.core.now.shape.points) ties.items) }
{
    let mut ties = Vec::new(alloc);
    tie_history(alloc, case, measure, &mut ties)?;
    let links = links_of(alloc, case.core, case.policy, case.request)?;
    tie_own(links.as_slice(), &mut ties)?;
    Ok(ties)
}
