// The names that may stand in a place.
use crate::nearest::push_nearest;
use crate::shown::push_shown;
use csv::ByteRecord;
use cube_model::{Dimension, Measure, NoMemory, NumberedNames, Text};
use std::alloc::Global;

// At most so many are shown.
const MOST: usize = 8;

/// The names that may stand in a place.
#[derive(Clone, Copy)]
pub(crate) enum Choices<'a> {
    /// These words.
    Words(&'static [&'static [u8]]),
    /// The columns of a file, by its header.
    Columns(&'a ByteRecord),
    /// The dimensions.
    Dimensions(&'a [Dimension]),
    /// The measures.
    Measures(&'a [Measure]),
    /// The measures, and `count`.
    Asked(&'a [Measure]),
    /// The named levels of a dimension.
    Levels(&'a [Text]),
    /// The named levels of a dimension, and `all`.
    Below(&'a [Text]),
    /// The members of a level.
    Members(&'a NumberedNames),
}

// The name of a measure, or else a word.
fn measure_or<'a>(measures: &'a [Measure], place: usize, word: &'a [u8]) -> &'a [u8] {
    match measures.get(place) {
        Some(measure) => measure.name(),
        None => word,
    }
}

// The name of a level, or else a word.
fn level_or<'a>(levels: &'a [Text], place: usize, word: &'a [u8]) -> &'a [u8] {
    match levels.get(place) {
        Some(level) => level.as_slice(),
        None => word,
    }
}

fn dimension_name(dimensions: &[Dimension], place: usize) -> &[u8] {
    match dimensions.get(place) {
        Some(dimension) => dimension.name(),
        None => b"",
    }
}

fn member_name(members: &NumberedNames, place: usize) -> &[u8] {
    if place < members.count() {
        members.name(place)
    } else {
        b""
    }
}

impl<'a> Choices<'a> {
    /// How many there are.
    pub(crate) fn count(self) -> usize {
        match self {
            Choices::Words(words) => words.len(),
            Choices::Columns(header) => header.len(),
            Choices::Dimensions(dimensions) => dimensions.len(),
            Choices::Measures(measures) => measures.len(),
            Choices::Asked(measures) => measures.len().saturating_add(1),
            Choices::Levels(levels) => levels.len(),
            Choices::Below(levels) => levels.len().saturating_add(1),
            Choices::Members(members) => members.count(),
        }
    }

    /// The name in a place.
    pub(crate) fn name(self, place: usize) -> &'a [u8] {
        match self {
            Choices::Words(words) => words.get(place).copied().unwrap_or(b""),
            Choices::Columns(header) => header.get(place).unwrap_or(b""),
            Choices::Dimensions(dimensions) => dimension_name(dimensions, place),
            Choices::Measures(measures) => measure_or(measures, place, b""),
            Choices::Asked(measures) => measure_or(measures, place, b"count"),
            Choices::Levels(levels) => level_or(levels, place, b""),
            Choices::Below(levels) => level_or(levels, place, b"all"),
            Choices::Members(members) => member_name(members, place),
        }
    }
}

/// Puts the names, at most eight of them, with `..` behind where there are more.
pub(crate) fn push_choices(text: &mut Text, choices: Choices) -> Result<(), NoMemory> {
    let count = choices.count();
    let mut between: &[u8] = b"";
    for place in 0..count.min(MOST) {
        text.extend(between)?;
        push_shown(text, choices.name(place))?;
        between = b", ";
    }
    if count > MOST {
        text.extend(b", ..")?;
    }
    Ok(())
}

/// A name that is none of those that may stand in its place.
#[derive(Clone, Copy)]
pub(crate) struct Unknown<'a> {
    pub(crate) said: &'a [u8],
    pub(crate) choices: Choices<'a>,
}

impl Unknown<'_> {
    /// Puts what stands there, the choices that there are, and the nearest of them.
    pub(crate) fn push_to(&self, alloc: Global, text: &mut Text) -> Result<(), NoMemory> {
        push_shown(text, self.said)?;
        text.extend(b" is none of ")?;
        push_choices(text, self.choices)?;
        push_nearest(alloc, text, self.said, self.choices)?;
        text.push(b'\n')
    }
}
