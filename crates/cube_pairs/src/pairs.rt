// The links of rows.
ghost use Rattle.std.specs.Prelude.{◌≡◌, ◌<◌, ◌++◌, ℕ, true, flat_map, IfOk, OnOk};
ghost use Rattle.std.specs.List.{All};
ghost use Rattle.std.specs.List.Sorted.{IsStrictlyIncreasing};
ghost use Rattle.cube_model.specs.declared.link.Link.{Link};
ghost use Rattle.cube_model.specs.Cubes.{IsIn};
ghost use Rattle.cube_model.specs.Entries.{is_link};
ghost use Rattle.cube_model.specs.Links.{linked};
ghost use Rattle.cube_model.specs.LinkLaws.{AreOfPlaces};

use cube_model::{Link, LinkList, NoMemory, Rows};
use std::alloc::Global;

/// Puts the links of a row's places at the end. Room for them is taken once.
fn push_linked(links: &mut Vec<Link>, places: &[u32]) -> Result<(), NoMemory>
    ensures { OnOk result (links.new.items ≡ links.old.items ++ linked places.now) }
{
    let pairs = places.len() / 2;
    links.reserve(places.len() - pairs)?;
    'pairs: for number in 0..pairs {
        links.push_reserved(Link::Pair(places[2 * number], places[2 * number + 1]));
    }
    if 2 * pairs < places.len() {
        links.push_reserved(Link::Single(places[2 * pairs]));
    }
    Ok(())
}

/// The links of rows, row after row: the first place of a row with the second, the third with the
/// fourth, and so on, and the last one alone where there is an odd number of places. One link for
/// two places.
pub fn links(alloc: Global, rows: &Rows) -> Result<LinkList, NoMemory>
    ensures links { IfOk result (λ links. links ≡ flat_map (λ row. linked row.places) rows.now) }
    ensures places { (n : ℕ) → All (λ row. All (λ place. place < n) row.places) rows.now → IfOk result (λ links. AreOfPlaces n links) }

    // No pair is of a place with itself, where the places of each row stand in order.
    ensures apart { (n : ℕ)
        → All (λ row. All (λ place. place < n) row.places) rows.now
        → All (λ row. IsStrictlyIncreasing row.places) rows.now
        → IfOk result (λ links. (link : Link) → IsIn link links → is_link n link ≡ true) }
{
    let mut links = Vec::new(alloc);
    'rows: for row in rows.as_slice() {
        push_linked(&mut links, row.places.as_slice())?;
    }
    Ok(LinkList::from_vec(links))
}
