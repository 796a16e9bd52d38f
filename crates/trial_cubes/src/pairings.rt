// The links that rows bring.
use cube_model::{Key, Link, LinkList, NoMemory, Places, Row, Rows};
use cube_pairs::links;
use std::alloc::Global;
use std::test::Fail;

fn make_row(alloc: Global, places: &[u32]) -> Result<Row, NoMemory> {
    Ok(Row {
        key: Key::new(alloc),
        places: Places::from_vec(places.to_vec(alloc)?),
    })
}

fn links_of(alloc: Global, rows: &[&[u32]]) -> Result<LinkList, NoMemory> {
    let mut list = Rows::new(alloc);
    for places in rows {
        list.push(make_row(alloc, places)?)?;
    }
    links(alloc, &list)
}

#[test]
fn rows_are_paired_in_order(rt: HostRuntime) -> Result<(), Fail> {
    let alloc = rt.alloc();
    let none = links_of(alloc, &[])?;
    assert_eq!(rt; none.len(), 0);
    let found = links_of(alloc, &[&[4, 7, 8, 9, 11], &[2], &[0, 3]])?;
    let wanted = [
        Link::Pair(4, 7),
        Link::Pair(8, 9),
        Link::Single(11),
        Link::Single(2),
        Link::Pair(0, 3),
    ];
    assert_eq!(rt; found.as_slice(), wanted.as_slice());
    Ok(())
}
