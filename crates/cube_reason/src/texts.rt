// The text of a reason.
ghost use Rattle.std.specs.Prelude.{◌≡◌, ◌<◌, ◌++◌, length, flat_map, IfOk, OnOk};
ghost use Rattle.std.specs.List.{All};
ghost use Rattle.cube_model.specs.declared.policy.Policy.{Policy};
ghost use Rattle.cube_model.specs.Cores.{shown};
ghost use Rattle.cube_answers.specs.VerdictText.{CellFits};
ghost use Rattle.cube_source.specs.Blocks.{bare};
ghost use Rattle.cube_reason.specs.ReasonText.{origin_words, by_words, block_line, step_line, end_line, reason_words, EndsThere, CanBeTold};

use crate::{End, Origin, Reason, WalkStep};
use cube_answers::{push_cell, push_place};
use cube_core::Core;
use cube_model::{Cell, Dims, NoMemory, Text};
use std::alloc::Global;

fn push_origin(text: &mut Text, origin: Origin) -> Result<(), NoMemory>
    ensures { OnOk result (text.new ≡ text.old ++ origin_words origin) }
{
    match origin {
        Origin::Entry(number) => {
            text.extend(b"entry ")?;
            text.push_number(number)
        }
        Origin::Own(number) => {
            text.extend(b"own ")?;
            text.push_number(number)
        }
    }
}

/// Puts where a link comes from, at the end of a line.
fn push_by(text: &mut Text, origin: Origin) -> Result<(), NoMemory>
    ensures { OnOk result (text.new ≡ text.old ++ by_words origin) }
{
    text.push(b' ')?;
    push_origin(text, origin)?;
    text.push(b'\n')
}

fn push_block(text: &mut Text, dims: &Dims, block: &Cell) -> Result<(), NoMemory>
    requires { CellFits dims.now block.now }
    ensures { OnOk result (text.new ≡ text.old ++ block_line dims.now block.now) }
{
    text.extend(b"block ")?;
    push_cell(text, dims, block)?;
    text.push(b'\n')
}

fn push_blocks(text: &mut Text, dims: &Dims, blocks: &[Cell]) -> Result<(), NoMemory>
    requires { All (CellFits dims.now) blocks.now }
    ensures { OnOk result (text.new ≡ text.old ++ flat_map (block_line dims.now) blocks.now) }
{
    for block in blocks {
        push_block(text, dims, block)?;
    }
    Ok(())
}

pub(crate) fn push_step(
    alloc: Global,
    text: &mut Text,
    core: &Core,
    step: &WalkStep,
) -> Result<(), NoMemory>
    requires from { step.now.from < length core.now.shape.points }
    requires to { step.now.to < length core.now.shape.points }
    ensures { OnOk result (text.new ≡ text.old ++ step_line core.now.dims (bare core.now) step.now) }
{
    text.extend(b"step ")?;
    push_place(alloc, text, core, step.from)?;
    text.push(b' ')?;
    push_place(alloc, text, core, step.to)?;
    push_by(text, step.by)
}

fn push_steps(
    alloc: Global,
    text: &mut Text,
    core: &Core,
    steps: &[WalkStep],
) -> Result<(), NoMemory>
    requires { All (λ x. (x.from < length core.now.shape.points) × (x.to < length core.now.shape.points)) steps.now }
    ensures { OnOk result (text.new ≡ text.old ++ flat_map (step_line core.now.dims (bare core.now)) steps.now) }
{
    for step in steps {
        push_step(alloc, text, core, step)?;
    }
    Ok(())
}

pub(crate) fn push_end(
    alloc: Global,
    text: &mut Text,
    core: &Core,
    end: Option<End>,
) -> Result<(), NoMemory>
    requires { EndsThere (length core.now.shape.points) end }
    ensures { OnOk result (text.new ≡ text.old ++ end_line core.now.dims (bare core.now) end) }
{
    match end {
        None => Ok(()),
        Some(end) => {
            text.extend(b"end ")?;
            push_place(alloc, text, core, end.place)?;
            push_by(text, end.by)
        }
    }
}

fn push_reason(alloc: Global, text: &mut Text, core: &Core, reason: &Reason) -> Result<(), NoMemory>
    requires { CanBeTold core.now reason.now }
    ensures { OnOk result (text.new ≡ text.old ++ reason_words core.now.dims (bare core.now) reason.now) }
{
    match reason {
        Reason::Blocks { blocks, .. } => push_blocks(text, core.dims(), blocks.as_slice()),
        Reason::Walk { steps, end, .. } => {
            push_steps(alloc, text, core, steps.as_slice())?;
            push_end(alloc, text, core, *end)
        }
    }
}

/// The text of a reason: a line `block (CELL)` for each block, by key; or a line `step (CELL) (CELL) entry N` or
/// `step (CELL) (CELL) own K` for each step, and behind them `end (CELL) entry N` or `end (CELL) own K` where the walk leads to a
/// place alone. Entries and links are numbered from 1, and cells are named as refusals name them.
///
/// The protected cell itself is not told: the text of the refusal names it.
pub fn reason_text(alloc: Global, core: &Core, reason: &Reason) -> Result<Text, NoMemory>
    requires { CanBeTold core.now reason.now }
    ensures { IfOk result (λ text. (p : Policy) → text ≡ reason_words core.now.dims (shown core.now p) reason.now) }
{
    let mut text = Text::new(alloc);
    push_reason(alloc, &mut text, core, reason)?;
    Ok(text)
}
