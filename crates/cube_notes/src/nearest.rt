// The names that may have been meant by one that is unknown.
ghost use Rattle.std.specs.Prelude.{◌≡◌, ◌≤◌, length, vec_len, Ok, None, IfOk, IfSome};
ghost use Rattle.std.specs.Str.{chars};
ghost use Rattle.cube_notes.specs.Nearness.{edits, most_edits, length_gap, AreFar};

use crate::choices::Choices;
use crate::shown::push_shown;
use cube_model::{NoMemory, Text};
use std::alloc::Global;
use std::str;
use strsim::osa_distance;

// At most so many are said.
const MOST: usize = 3;

// What has more bytes is compared with nothing: the time that this takes grows by the product of the lengths.
const LONGEST: usize = 64;

// A name, and how many edits it is away from the one that is unknown.
#[derive(Drop)]
struct Near {
    distance: usize,
    name: Text,
}

fn count_chars(text: &str) -> usize
    ensures { result ≡ length (chars text.now) }
{
    text.chars().count()
}

// How many edits are still near.
fn most_edits(from: &str, to: &str) -> usize
    ensures { result ≡ most_edits from.now to.now }
{
    count_chars(from).max(count_chars(to)) / 3
}

// How far apart the lengths are.
fn length_gap(from: &str, to: &str) -> usize
    ensures { result ≡ length_gap from.now to.now }
{
    count_chars(from).abs_diff(count_chars(to))
}

// How many edits lead from a name to another, where they are near. Names of lengths that lie further apart are not compared.
fn near_distance(alloc: Global, from: &str, to: &str) -> Result<Option<usize>, NoMemory>
    ensures edits { IfOk result (λ near. IfSome near (λ d. d ≡ edits from.now to.now)) }
    ensures near { IfOk result (λ near. IfSome near (λ d. d ≤ most_edits from.now to.now)) }
    ensures far { result ≡ Ok None → AreFar from.now to.now }
{
    let most = most_edits(from, to);
    if length_gap(from, to) > most {
        return Ok(None);
    }
    let distance = osa_distance(alloc, from, to)?;
    if distance > most {
        return Ok(None);
    }
    Ok(Some(distance))
}

// A text with small letters of ASCII for its large ones, where it may be a name.
fn folded(alloc: Global, name: &[u8]) -> Result<Option<String>, NoMemory> {
    if name.len() > LONGEST {
        return Ok(None);
    }
    let Ok(text) = str::from_utf8(name) else {
        return Ok(None);
    };
    let mut folded = String::from_str(alloc, text)?;
    folded.make_ascii_lowercase();
    Ok(Some(folded))
}

// Names, the nearest first and those as near in the order of the file.
#[derive(Drop)]
struct Nearest {
    names: Vec<Near>,
    ghost few: { vec_len names ≤ 3 },
}

impl Nearest {
    fn new(alloc: Global) -> Nearest {
        Nearest {
            names: Vec::new(alloc),
        }
    }

    // Where a name that is so far away comes.
    fn place(&self, distance: usize) -> usize
        ensures { result ≤ vec_len self.now.names }
    {
        match self.names.iter().position(|near| distance < near.distance) {
            Some(place) => place,
            None => self.names.len(),
        }
    }

    // Puts a name in its place, where it is among the nearest.
    fn put(&mut self, alloc: Global, distance: usize, name: &[u8]) -> Result<(), NoMemory> {
        let place = self.place(distance);
        if place >= MOST {
            return Ok(());
        }
        let name = Text::from_bytes(alloc, name)?;
        self.names.insert(place, Near { distance, name })?;
        self.names.truncate(MOST);
        Ok(())
    }
}

// The names that are nearest to one among those that there are.
fn find_nearest(alloc: Global, wanted: &str, choices: Choices) -> Result<Nearest, NoMemory> {
    let mut nearest = Nearest::new(alloc);
    for place in 0..choices.count() {
        let name = choices.name(place);
        if let Some(folded) = folded(alloc, name)? {
            if let Some(distance) = near_distance(alloc, wanted, folded.as_str())? {
                nearest.put(alloc, distance, name)?;
            }
        }
    }
    Ok(nearest)
}

// What stands before the name in a place among so many.
fn before(place: usize, count: usize) -> &'static [u8] {
    if place == 0 {
        b", did you mean "
    } else if place.saturating_add(1) == count {
        b" or "
    } else {
        b", "
    }
}

/// Asks whether one of the nearest names was meant, where some are near: at most three, without regard to large and small letters.
pub(crate) fn push_nearest(
    alloc: Global,
    text: &mut Text,
    unknown: &[u8],
    choices: Choices,
) -> Result<(), NoMemory> {
    let Some(wanted) = folded(alloc, unknown)? else {
        return Ok(());
    };
    let nearest = find_nearest(alloc, wanted.as_str(), choices)?;
    let count = nearest.names.len();
    for (place, near) in nearest.names.iter().enumerate() {
        text.extend(before(place, count))?;
        push_shown(text, near.name.as_slice())?;
    }
    if count > 0 {
        text.push(b'?')?;
    }
    Ok(())
}
