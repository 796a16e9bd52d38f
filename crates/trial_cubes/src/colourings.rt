// Worked colourings, and long runs.
ghost use Rattle.std.specs.Prelude.{◌≡◌, ◌<◌, true, length, IfOk};
ghost use Rattle.cube_model.specs.LinkLaws.{IsOfPlaces, AreOfPlaces};

use cube_colour::{Added, Colouring};
use cube_model::{Link, LinkList, NoMemory, Places};
use std::alloc::Global;
use std::process::Abort;
use std::test::Fail;

/// Whether a link is one of so many places.
fn is_of_places(places: u32, link: Link) -> bool
    ensures { result ≡ true → IsOfPlaces places link }
{
    match link {
        Link::Pair(one, other) => one < places && other < places,
        Link::Single(place) => place < places,
    }
}

/// A list of links of so many places.
fn make_links(
    rt: &impl Abort,
    alloc: Global,
    places: u32,
    links: &[Link],
) -> Result<LinkList, NoMemory>
    requires { length links.now < 100 }
    ensures of_places { IfOk result (λ list. AreOfPlaces places list) }
    ensures length { IfOk result (λ list. length list ≡ length links.now) }
{
    let mut list = LinkList::new(alloc);
    'links: for link in links {
        assert!(rt; is_of_places(places, *link));
        list.push(*link)?;
    }
    Ok(list)
}

/// Adds links to a colouring of so many places.
fn add(
    rt: &impl Abort,
    alloc: Global,
    places: u32,
    colouring: &mut Colouring,
    links: &[Link],
) -> Result<Added, NoMemory>
    requires places { colouring.old.places ≡ places }
    requires few { length links.now < 100 }
    ensures { colouring.new.places ≡ places }
{
    let links = make_links(rt, alloc, places, links)?;
    colouring.try_add(alloc, &links)
}

const MANY: u32 = 65_536;

/// A colouring of many places, none guarded.
fn make_large(alloc: Global) -> Result<Colouring, NoMemory>
    ensures { IfOk result (λ colouring. colouring.places ≡ MANY) }
{
    Colouring::new(alloc, MANY, &Places::new(alloc))
}

#[test]
fn a_pair_that_follows_is_not_kept(rt: HostRuntime) -> Result<(), Fail> {
    let alloc = rt.alloc();
    let mut colouring = make_large(alloc)?;
    'pairs: for number in 0..MANY / 2 {
        let pair = Link::Pair(2 * number, 2 * number + 1);
        let added = add(&rt, alloc, MANY, &mut colouring, &[pair])?;
        assert_eq!(rt; added, Added::Fits);
    }
    assert_eq!(rt; colouring.mark(), 32_768);
    'turns: for turn in 0..1_000_000u32 {
        let number = turn % (MANY / 2);
        let pair = Link::Pair(2 * number + 1, 2 * number);
        let added = add(&rt, alloc, MANY, &mut colouring, &[pair])?;
        assert_eq!(rt; added, Added::Fits);
    }
    assert_eq!(rt; colouring.mark(), 32_768);
    Ok(())
}

/// Adds the link of a chain between a place and the next one.
fn chain(
    rt: &impl Abort,
    alloc: Global,
    colouring: &mut Colouring,
    place: u32,
) -> Result<(), NoMemory>
    requires { colouring.old.places ≡ MANY }
    ensures { colouring.new.places ≡ MANY }
{
    assert!(rt; place < MANY - 1);
    let added = add(rt, alloc, MANY, colouring, &[Link::Pair(place, place + 1)])?;
    assert_eq!(rt; added, Added::Fits);
    Ok(())
}

#[test]
fn a_chain_grows_from_its_ends_and_the_middle(rt: HostRuntime) -> Result<(), Fail> {
    let alloc = rt.alloc();
    let mut colouring = make_large(alloc)?;
    'steps: for step in 0..MANY / 4 {
        chain(&rt, alloc, &mut colouring, step)?;
        chain(&rt, alloc, &mut colouring, MANY - 2 - step)?;
        chain(&rt, alloc, &mut colouring, MANY / 2 + step)?;
        chain(&rt, alloc, &mut colouring, MANY / 2 - 1 - step)?;
    }
    assert_eq!(rt; colouring.mark(), 65_535);
    assert!(rt; colouring.is_free(7));
    let signs = colouring.signs_from(alloc, 7)?;
    assert_eq!(rt; signs.get(MANY as usize - 1).copied(), Some(1));
    assert_eq!(rt; signs.get(0).copied(), Some(-1));
    colouring.back_to(0);
    assert_eq!(rt; colouring.mark(), 0);
    Ok(())
}

/// A colouring of four places, of which the first two are guarded.
fn make_small(alloc: Global) -> Result<Colouring, NoMemory>
    ensures { IfOk result (λ colouring. colouring.places ≡ 4) }
{
    let mut guarded = Places::new(alloc);
    guarded.push(1)?;
    guarded.push(0)?;
    Colouring::new(alloc, 4, &guarded)
}

#[test]
fn links_fit_or_stop(rt: HostRuntime) -> Result<(), Fail> {
    let alloc = rt.alloc();
    let mut colouring = make_small(alloc)?;
    let triangle = [Link::Pair(0, 2), Link::Pair(2, 3), Link::Pair(3, 0)];
    let square = [
        Link::Pair(0, 1),
        Link::Pair(1, 2),
        Link::Pair(2, 3),
        Link::Pair(3, 0),
    ];
    let stops = Added::Stops { index: 3, place: 0 };
    assert_eq!(rt; add(&rt, alloc, 4, &mut colouring, &triangle)?, stops);
    assert_eq!(rt; colouring.mark(), 0);
    assert_eq!(rt; add(&rt, alloc, 4, &mut colouring, &square)?, Added::Fits);
    assert_eq!(rt; colouring.mark(), 3);
    let stops = Added::Stops { index: 1, place: 1 };
    assert_eq!(rt;
        add(&rt, alloc, 4, &mut colouring, &[Link::Single(3)])?,
        stops
    );
    assert_eq!(rt; colouring.mark(), 3);
    assert!(rt; colouring.is_free(2));
    let signs = colouring.signs_from(alloc, 2)?;
    assert_eq!(rt; signs.as_slice(), [1, -1, 1, -1].as_slice());
    Ok(())
}

#[test]
fn links_are_taken_back(rt: HostRuntime) -> Result<(), Fail> {
    let alloc = rt.alloc();
    let mut colouring = make_small(alloc)?;
    let two = [Link::Single(2), Link::Pair(2, 3)];
    assert_eq!(rt; add(&rt, alloc, 4, &mut colouring, &two)?, Added::Fits);
    assert!(rt; !colouring.is_free(3));
    assert_eq!(rt; colouring.mark(), 2);
    assert_eq!(rt; colouring.kept(1), Link::Pair(2, 3));
    colouring.back_to(1);
    assert!(rt; colouring.is_free(3));
    assert!(rt; !colouring.is_free(2));
    colouring.back_to(0);
    assert!(rt; colouring.is_free(2));
    Ok(())
}
