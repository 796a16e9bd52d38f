// The texts of refusals, each of which names its rule.
ghost use Rattle.std.specs.Prelude.{◌≡◌, ◌<◌, ◌++◌, ◌∷◌, [], length, codes, decimal, IfOk, OnOk};
ghost use Rattle.cube_model.specs.declared.policy.Policy.{Policy};
ghost use Rattle.cube_model.specs.Cores.{shown};
ghost use Rattle.cube_answers.specs.VerdictText.{cuboid_text, cell_text, place_text, bracketed, verdict_text as verdict_words, unprotected, CellFits, IsVerdict};

use crate::cells::{push_cell, push_cuboid, push_place};
use cube_core::Core;
use cube_model::{Cell, Dims, NoMemory, Text, Verdict};
use std::alloc::Global;

fn full_text(alloc: Global, held: u32) -> Result<Text, NoMemory>
    ensures { IfOk result (λ text. text ≡ codes "full: the history holds " ++ decimal held ++ codes " requests\n") }
{
    let mut text = Text::from_bytes(alloc, b"full: the history holds ")?;
    text.push_number(u64::from(held))?;
    text.extend(b" requests\n")?;
    Ok(text)
}

fn source_text(alloc: Global, dims: &Dims, levels: &[u32], cell: &Cell) -> Result<Text, NoMemory>
    requires levels { length levels.now ≡ length dims.now.dimensions }
    requires cell { CellFits dims.now cell.now }
    ensures { IfOk result (λ text. text ≡ codes "source: the cuboid " ++ bracketed (cuboid_text dims.now levels.now) ++ codes " does not cut the cell " ++ bracketed (cell_text dims.now cell.now) ++ 10 ∷ []) }
{
    let mut text = Text::from_bytes(alloc, b"source: the cuboid ")?;
    push_cuboid(&mut text, dims, levels)?;
    text.extend(b" does not cut the cell ")?;
    push_cell(&mut text, dims, cell)?;
    text.push(b'\n')?;
    Ok(text)
}

// What a link fixes, behind the link.
fn push_fixed(alloc: Global, text: &mut Text, core: &Core, place: u32) -> Result<(), NoMemory>
    requires { place < length core.now.shape.points }
    ensures { OnOk result (text.new ≡ text.old ++ codes ", fixes the cell " ++ bracketed (place_text core.now.dims (unprotected core.now) place) ++ 10 ∷ []) }
{
    text.extend(b", fixes the cell ")?;
    push_place(alloc, text, core, place)?;
    text.push(b'\n')
}

fn pair_text(
    alloc: Global,
    core: &Core,
    index: u32,
    places: (u32, u32),
    cell: u32,
) -> Result<Text, NoMemory>
    requires first { places.0 < length core.now.shape.points }
    requires second { places.1 < length core.now.shape.points }
    requires cell { cell < length core.now.shape.points }
    ensures { IfOk result (λ text. text ≡ codes "pair: link " ++ decimal index ++ codes ", " ++ bracketed (place_text core.now.dims (unprotected core.now) places.0) ++ codes " and " ++ bracketed (place_text core.now.dims (unprotected core.now) places.1) ++ codes ", fixes the cell " ++ bracketed (place_text core.now.dims (unprotected core.now) cell) ++ 10 ∷ []) }
{
    let mut text = Text::from_bytes(alloc, b"pair: link ")?;
    text.push_number(u64::from(index))?;
    text.extend(b", ")?;
    push_place(alloc, &mut text, core, places.0)?;
    text.extend(b" and ")?;
    push_place(alloc, &mut text, core, places.1)?;
    push_fixed(alloc, &mut text, core, cell)?;
    Ok(text)
}

fn single_text(
    alloc: Global,
    core: &Core,
    index: u32,
    place: u32,
    cell: u32,
) -> Result<Text, NoMemory>
    requires place { place < length core.now.shape.points }
    requires cell { cell < length core.now.shape.points }
    ensures { IfOk result (λ text. text ≡ codes "single: link " ++ decimal index ++ codes ", " ++ bracketed (place_text core.now.dims (unprotected core.now) place) ++ codes ", fixes the cell " ++ bracketed (place_text core.now.dims (unprotected core.now) cell) ++ 10 ∷ []) }
{
    let mut text = Text::from_bytes(alloc, b"single: link ")?;
    text.push_number(u64::from(index))?;
    text.extend(b", ")?;
    push_place(alloc, &mut text, core, place)?;
    push_fixed(alloc, &mut text, core, cell)?;
    Ok(text)
}

/// The line that names the rule by which a request is refused; nothing for an answer.
pub fn verdict_text(alloc: Global, core: &Core, verdict: &Verdict) -> Result<Text, NoMemory>
    requires { IsVerdict core.now verdict.now }
    ensures { IfOk result (λ text. (p : Policy) → text ≡ verdict_words core.now.dims (shown core.now p) verdict.now) }
{
    match verdict {
        Verdict::Answer { .. } => Ok(Text::new(alloc)),
        Verdict::Full { held } => full_text(alloc, *held),
        Verdict::SourceWould { levels, cell } => {
            source_text(alloc, core.dims(), levels.as_slice(), cell)
        }
        Verdict::Pair {
            index,
            first,
            second,
            cell,
        } => pair_text(alloc, core, *index, (*first, *second), *cell),
        Verdict::Single { index, place, cell } => single_text(alloc, core, *index, *place, *cell),
    }
}
