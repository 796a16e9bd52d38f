// The canonical text of a request.
ghost use Rattle.std.specs.Prelude.{◌≡◌, ◌<◌, ◌≤◌, ◌++◌, length, true, IfOk, OnOk, Ok};
ghost use Rattle.std.specs.List.{list_all};
ghost use Rattle.cube_model.specs.Dims.{plain, plains, members};
ghost use Rattle.cube_model.specs.Requests.{is_grouped, is_one as one_test};
ghost use Rattle.cube_query.specs.Faults.{request_of};
ghost use Rattle.cube_query.specs.Canonical.{is_request, is_there, what_text, level_text, member_text, pick_text, behind, by_texts, pick_texts, PicksFit, request_text};

use cube_model::{Dimension, Dims, NoMemory, Pick, Request, Text, What};
use cube_text::push_name;
use std::alloc::Global;

// The pick is of one member.
fn is_one(pick: &Option<Pick>) -> bool
    ensures { result ≡ one_test pick.now }
{
    match pick {
        None => true,
        Some(pick) => pick.first == pick.last,
    }
}

/// Whether each pick is of one member.
pub fn all_one(picks: &[Option<Pick>]) -> bool
    ensures { result ≡ list_all one_test picks.now }
{
    picks.iter().all(|pick| is_one(pick))
}

/// Whether some level is a named one.
pub fn groups(dims: &Dims, levels: &[u32]) -> bool
    requires { length levels.now ≡ length dims.now.dimensions }
    ensures { result ≡ is_grouped (plains dims.now) levels.now }
{
    for (d, dimension) in dims.dimensions().iter().enumerate() {
        if (levels[d] as usize) < dimension.levels().len() {
            return true;
        }
    }
    false
}

fn push_what(text: &mut Text, dims: &Dims, what: What) -> Result<(), NoMemory>
    requires { is_there dims.now what ≡ true }
    ensures { OnOk result (text.new ≡ text.old ++ what_text dims.now what) }
{
    match what {
        What::Count => text.extend(b"count"),
        What::Measure(measure) => push_name(text, dims.measure(measure).name()),
    }
}

/// Writes a named level, as `region.area`.
pub fn push_level(text: &mut Text, dimension: &Dimension, level: u32) -> Result<(), NoMemory>
    requires { level < length dimension.now.levels }
    ensures { OnOk result (text.new ≡ text.old ++ level_text dimension.now level) }
{
    push_name(text, dimension.name())?;
    text.push(b'.')?;
    push_name(text, dimension.levels()[level as usize].as_slice())
}

/// Writes a member of a named level.
pub fn push_member(
    text: &mut Text,
    dimension: &Dimension,
    level: u32,
    member: u32,
) -> Result<(), NoMemory>
    requires level { level < length dimension.now.levels }
    requires member { member < length (members dimension.now level) }
    ensures { OnOk result (text.new ≡ text.old ++ member_text dimension.now level member) }
{
    push_name(
        text,
        dimension.members(level as usize).name(member as usize),
    )
}

fn push_pick(
    text: &mut Text,
    dimension: &Dimension,
    pick: Pick,
    is_span: bool,
) -> Result<(), NoMemory>
    requires level { pick.level < length dimension.now.levels }
    requires order { pick.first ≤ pick.last }
    requires last { pick.last < length (members dimension.now pick.level) }
    ensures { OnOk result (text.new ≡ text.old ++ pick_text is_span dimension.now pick) }
{
    push_level(text, dimension, pick.level)?;
    text.push(b'=')?;
    push_member(text, dimension, pick.level, pick.first)?;
    if is_span {
        text.extend(b"..")?;
        push_member(text, dimension, pick.level, pick.last)?;
    }
    Ok(())
}

/// Writes the levels that are not `all` behind a word, with a comma and a blank between.
pub fn push_levels(
    text: &mut Text,
    dims: &Dims,
    levels: &[u32],
    word: &[u8],
) -> Result<(), NoMemory>
    requires { length levels.now ≡ length dims.now.dimensions }
    ensures { OnOk result (text.new ≡ text.old ++ behind word.now (by_texts dims.now.dimensions levels.now)) }
{
    let mut separator = word;
    for (d, dimension) in dims.dimensions().iter().enumerate() {
        if (levels[d] as usize) < dimension.levels().len() {
            text.extend(separator)?;
            push_level(text, dimension, levels[d])?;
            separator = b", ";
        }
    }
    Ok(())
}

// Writes picks behind a word.
fn push_picks(
    text: &mut Text,
    dims: &Dims,
    picks: &[Option<Pick>],
    word: &[u8],
    is_span: bool,
) -> Result<(), NoMemory>
    requires length { length picks.now ≡ length dims.now.dimensions }
    requires fit { PicksFit dims.now.dimensions picks.now }
    ensures { OnOk result (text.new ≡ text.old ++ behind word.now (pick_texts is_span dims.now.dimensions picks.now)) }
{
    let mut separator = word;
    for (d, dimension) in dims.dimensions().iter().enumerate() {
        if let Some(pick) = picks[d] {
            text.extend(separator)?;
            push_pick(text, dimension, pick, is_span)?;
            separator = b", ";
        }
    }
    Ok(())
}

// Writes the request, each part of which is there.
#[tactic(auto, unfolding(crate::specs::Canonical::request_text))]
fn write(alloc: Global, dims: &Dims, request: &Request) -> Result<Text, NoMemory>
    requires there { is_there dims.now request.now.what ≡ true }
    requires levels { length request.now.group ≡ length dims.now.dimensions }
    requires picks { length request.now.picks ≡ length dims.now.dimensions }
    requires fit { PicksFit dims.now.dimensions request.now.picks }
    ensures { IfOk result (λ text. text ≡ request_text dims.now request.now) }
{
    let picks = request.picks.as_slice();
    let levels = request.group.as_slice();
    let mut text = Text::new(alloc);
    if groups(dims, levels) {
        text.extend(b"slice ")?;
        push_what(&mut text, dims, request.what)?;
        push_levels(&mut text, dims, levels, b" by ")?;
        push_picks(&mut text, dims, picks, b" where ", false)?;
    } else if all_one(picks) {
        text.extend(b"cell ")?;
        push_what(&mut text, dims, request.what)?;
        push_picks(&mut text, dims, picks, b" ", false)?;
    } else {
        text.extend(b"range ")?;
        push_what(&mut text, dims, request.what)?;
        push_picks(&mut text, dims, picks, b" ", true)?;
    }
    Ok(text)
}

/// The canonical text of a valid request: single blanks, a comma and a blank between items, the items in the order of
/// the dimensions, and names in quotes only where they need them. It reads back as the request.
pub fn print(alloc: Global, dims: &Dims, request: &Request) -> Result<Text, NoMemory>
    requires { is_request dims.now request.now ≡ true }
    ensures text { IfOk result (λ text. text ≡ request_text dims.now request.now) }
    ensures back { IfOk result (λ text. request_of dims.now text ≡ Ok request.now) }
{
    let _rules = dims.dimensions();
    let text = write(alloc, dims, request)?;
    Ok(text)
}
