// What is said of a request that picks several members of a level.
use crate::shown::push_shown;
use cube_model::{Dimension, Dims, NoMemory, Pick, Request, Text};
use std::alloc::Global;

// Says which members of a dimension are picked, where it is more than one.
fn push_pick(text: &mut Text, dimension: &Dimension, pick: Pick) -> Result<(), NoMemory> {
    let Some(level) = dimension.levels().get(pick.level as usize) else {
        return Ok(());
    };
    let members = dimension.members(pick.level as usize);
    if pick.first >= pick.last || pick.last as usize >= members.count() {
        return Ok(());
    }
    text.extend(dimension.name())?;
    text.push(b'.')?;
    text.extend(level.as_slice())?;
    text.extend(b": ")?;
    push_shown(text, members.name(pick.first as usize))?;
    text.extend(b" to ")?;
    push_shown(text, members.name(pick.last as usize))?;
    text.extend(b", ")?;
    text.push_number(u64::from(pick.last - pick.first) + 1)?;
    text.extend(b" members\n")
}

/// The note on a request: a line for each level of which it picks more members than one, with the first and the last of them. What stands
/// between is by the order in which the dimension file lists them, which need not be that of their names.
pub fn note_on_ranges(alloc: Global, dims: &Dims, request: &Request) -> Result<Text, NoMemory> {
    let mut text = Text::new(alloc);
    let mut number = 0usize;
    for dimension in dims.dimensions() {
        if let Some(Some(pick)) = request.picks.as_slice().get(number) {
            push_pick(&mut text, dimension, *pick)?;
        }
        number = number.saturating_add(1);
    }
    Ok(text)
}
