// What is said of a query, ahead of its reply.
ghost use Rattle.std.specs.Prelude.{◌<◌, length, IfSome};

use crate::choices::{Choices, Unknown};
use crate::ranges::note_on_ranges;
use cube_dims::{find_dimension, find_level};
use cube_model::{Dimension, Dims, NoMemory, Text};
use cube_query::{
    LevelName, PickName, Query, QueryFault, RequestFault, parse, push_level, read_request,
};
use cube_text::{is_bare, push_name};
use std::alloc::Global;

// How many bytes at the end may stand in a name without quotes.
fn count_bare(front: &[u8]) -> usize {
    front
        .iter()
        .rev()
        .take_while(|byte| is_bare(**byte))
        .count()
}

// The front of a line, the name without quotes behind it, and the rest, where the name ends at a byte.
fn cut_at(line: &[u8], at: usize) -> Option<(&[u8], &[u8], &[u8])> {
    let begun = line.get(..at)?;
    let start = at.checked_sub(count_bare(begun))?;
    Some((begun.get(..start)?, begun.get(start..)?, line.get(at..)?))
}

// The number of the level with a name.
fn level_named(dimension: &Dimension, name: &[u8]) -> Option<usize>
    ensures { IfSome result (λ l. l < length dimension.now.levels) }
{
    let levels = dimension.levels();
    levels.iter().position(|level| level.as_slice() == name)
}

// The dimension that alone has a level of this name.
fn sole_dimension<'a>(dims: &'a Dims, name: &[u8]) -> Option<&'a Dimension> {
    let mut sole = None;
    for dimension in dims.dimensions() {
        if level_named(dimension, name).is_some() {
            if sole.is_some() {
                return None;
            }
            sole = Some(dimension);
        }
    }
    sole
}

// A text of these pieces, one behind another.
fn joined(alloc: Global, pieces: &[&[u8]]) -> Result<Text, NoMemory> {
    let mut text = Text::new(alloc);
    for piece in pieces {
        text.extend(piece)?;
    }
    Ok(text)
}

// Whether a line is read up to a byte: it is a query, or its fault stands there or behind it.
fn reads_up_to(alloc: Global, line: &[u8], at: usize) -> bool {
    match parse(alloc, line) {
        Ok(_) => true,
        Err(QueryFault::Syntax { at: fault }) => fault >= at as u64,
        Err(QueryFault::NoMemory) => false,
    }
}

// Whether a line is read on where a level stands in the place of the name that ends at a byte.
fn is_mended(alloc: Global, line: &[u8], at: usize, level: &Text) -> Result<bool, NoMemory> {
    let Some((front, _, rest)) = cut_at(line, at) else {
        return Ok(false);
    };
    let mended = joined(alloc, &[front, level.as_slice(), rest])?;
    let end = front.len().saturating_add(level.len());
    Ok(reads_up_to(alloc, mended.as_slice(), end))
}

// What a level is called in a query.
fn level_text(alloc: Global, dimension: &Dimension, level: usize) -> Result<Text, NoMemory>
    requires { level < length dimension.now.levels }
{
    let _rules = dimension.levels();
    let mut text = Text::new(alloc);
    push_level(&mut text, dimension, level as u32)?;
    Ok(text)
}

// Says of a name that it is a level, and what to write.
fn push_level_of(
    text: &mut Text,
    dimension: &Dimension,
    name: &[u8],
    level: &Text,
) -> Result<(), NoMemory> {
    push_name(text, name)?;
    text.extend(b" is a level of ")?;
    push_name(text, dimension.name())?;
    text.extend(b": write ")?;
    text.extend(level.as_slice())?;
    text.push(b'\n')
}

// Says of a name that it is a dimension, and what to write.
fn push_dimension(text: &mut Text, name: &[u8], level: &Text) -> Result<(), NoMemory> {
    push_name(text, name)?;
    text.extend(b" is a dimension: write a level of it, as ")?;
    text.extend(level.as_slice())?;
    text.push(b'\n')
}

// The note on a name that alone is a level's, where a level stands with its dimension.
fn note_on_level(
    alloc: Global,
    dimension: &Dimension,
    line: &[u8],
    at: usize,
    name: &[u8],
) -> Result<Text, NoMemory> {
    let mut text = Text::new(alloc);
    let Some(number) = level_named(dimension, name) else {
        return Ok(text);
    };
    let level = level_text(alloc, dimension, number)?;
    if is_mended(alloc, line, at, &level)? {
        push_level_of(&mut text, dimension, name, &level)?;
    }
    Ok(text)
}

// The note on a name that is a dimension's, where a level of it stands behind it.
fn note_on_dimension(
    alloc: Global,
    dimension: &Dimension,
    line: &[u8],
    at: usize,
    name: &[u8],
) -> Result<Text, NoMemory> {
    let mut text = Text::new(alloc);
    let levels = dimension.levels();
    prove!(!levels.is_empty());
    let level = level_text(alloc, dimension, 0)?;
    if is_mended(alloc, line, at, &level)? {
        push_dimension(&mut text, name, &level)?;
    }
    Ok(text)
}

// The note on a line that stops being a query at a byte.
fn note_on_syntax(alloc: Global, dims: &Dims, line: &[u8], at: usize) -> Result<Text, NoMemory> {
    let Some((_, name, _)) = cut_at(line, at) else {
        return Ok(Text::new(alloc));
    };
    if let Some(dimension) = sole_dimension(dims, name) {
        return note_on_level(alloc, dimension, line, at, name);
    }
    match find_dimension(dims, name) {
        Some(number) => note_on_dimension(alloc, dims.dimension(number), line, at, name),
        None => Ok(Text::new(alloc)),
    }
}

// What is unknown of a level that is named at a byte.
fn in_level<'a>(dims: &'a Dims, name: &'a LevelName, at: u64) -> Option<Unknown<'a>> {
    if name.dimension.at == at {
        return Some(Unknown {
            said: name.dimension.text.as_slice(),
            choices: Choices::Dimensions(dims.dimensions()),
        });
    }
    if name.level.at != at {
        return None;
    }
    let number = find_dimension(dims, name.dimension.text.as_slice())?;
    Some(Unknown {
        said: name.level.text.as_slice(),
        choices: Choices::Levels(dims.dimension(number).levels()),
    })
}

// The members that a pick is one of.
fn members_of<'a>(dims: &'a Dims, name: &LevelName) -> Option<Choices<'a>> {
    let number = find_dimension(dims, name.dimension.text.as_slice())?;
    let level = find_level(dims, number, name.level.text.as_slice())?;
    Some(Choices::Members(dims.dimension(number).members(level as usize)))
}

// What is unknown of a pick at a byte.
fn in_pick<'a>(dims: &'a Dims, pick: &'a PickName, at: u64) -> Option<Unknown<'a>> {
    let name = if pick.first.at == at {
        &pick.first
    } else if pick.last.at == at {
        &pick.last
    } else {
        return in_level(dims, &pick.level, at);
    };
    Some(Unknown {
        said: name.text.as_slice(),
        choices: members_of(dims, &pick.level)?,
    })
}

// What is unknown among levels at a byte.
fn in_levels<'a>(dims: &'a Dims, names: &'a [LevelName], at: u64) -> Option<Unknown<'a>> {
    for name in names {
        if let Some(unknown) = in_level(dims, name, at) {
            return Some(unknown);
        }
    }
    None
}

// What is unknown among picks at a byte.
fn in_picks<'a>(dims: &'a Dims, picks: &'a [PickName], at: u64) -> Option<Unknown<'a>> {
    for pick in picks {
        if let Some(unknown) = in_pick(dims, pick, at) {
            return Some(unknown);
        }
    }
    None
}

// What is unknown in a query at a byte.
fn in_query<'a>(dims: &'a Dims, query: &'a Query, at: u64) -> Option<Unknown<'a>> {
    if query.what.at == at {
        return Some(Unknown {
            said: query.what.text.as_slice(),
            choices: Choices::Asked(dims.measures()),
        });
    }
    match in_levels(dims, query.by.as_slice(), at) {
        Some(unknown) => Some(unknown),
        None => in_picks(dims, query.picks.as_slice(), at),
    }
}

// The byte at which a name stands that is unknown.
fn unknown_place(fault: &RequestFault) -> Option<u64> {
    match fault {
        RequestFault::UnknownMeasure { at }
        | RequestFault::UnknownDimension { at }
        | RequestFault::UnknownLevel { at }
        | RequestFault::UnknownMember { at } => Some(*at),
        _ => None,
    }
}

// The note on a query in which a name is unknown.
fn note_on_name(
    alloc: Global,
    dims: &Dims,
    line: &[u8],
    fault: &RequestFault,
) -> Result<Text, NoMemory> {
    let mut text = Text::new(alloc);
    let (Some(at), Ok(query)) = (unknown_place(fault), parse(alloc, line)) else {
        return Ok(text);
    };
    if let Some(unknown) = in_query(dims, &query, at) {
        unknown.push_to(alloc, &mut text)?;
    }
    Ok(text)
}

/// The note on a query: which members a range picks; where a level or a dimension stands alone, what to write; and of a name that is
/// unknown, the names that there are.
pub fn note_on_query(alloc: Global, dims: &Dims, line: &[u8]) -> Result<Text, NoMemory> {
    match read_request(alloc, dims, line) {
        Ok(request) => note_on_ranges(alloc, dims, &request),
        Err(RequestFault::Syntax { at }) => note_on_syntax(alloc, dims, line, at as usize),
        Err(fault) => note_on_name(alloc, dims, line, &fault),
    }
}
