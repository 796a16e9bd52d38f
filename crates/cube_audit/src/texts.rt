// The line of an audit.
ghost use Rattle.std.specs.Prelude.{◌≡◌, ◌<◌, ◌++◌, ◌∷◌, [], length, codes, decimal, IfOk};
ghost use Rattle.cube_model.specs.Dims.{measure_at};
ghost use Rattle.cube_text.specs.Quoting.{printed};
ghost use Rattle.cube_answers.specs.VerdictText.{cell_text, bracketed, CellFits};
ghost use Rattle.cube_audit.specs.AuditText as said;
ghost use Rattle.cube_audit.specs.AuditText.{IsThere};

use crate::auditing::Audited;
use cube_answers::push_cell;
use cube_model::{Cell, Dims, NoMemory, Text};
use cube_text::push_name;
use std::alloc::Global;

/// Some words, a number and a line feed.
fn numbered(alloc: Global, words: &[u8], number: u32) -> Result<Text, NoMemory>
    ensures { IfOk result (λ text. text ≡ words.now ++ decimal number ++ 10 ∷ []) }
{
    let mut text = Text::from_bytes(alloc, words)?;
    text.push_number(u64::from(number))?;
    text.push(b'\n')?;
    Ok(text)
}

/// The line of a measure that is not kept.
fn fixed_text(alloc: Global, dims: &Dims, measure: u32, cell: &Cell) -> Result<Text, NoMemory>
    requires measure { measure < length dims.now.measures }
    requires cell { CellFits dims.now cell.now }
    ensures { IfOk result (λ text. text ≡ codes "no: measure " ++ printed (measure_at dims.now measure).name ++ codes ", cell " ++ bracketed (cell_text dims.now cell.now) ++ 10 ∷ []) }
{
    let mut text = Text::from_bytes(alloc, b"no: measure ")?;
    push_name(&mut text, dims.measure(measure).name())?;
    text.extend(b", cell ")?;
    push_cell(&mut text, dims, cell)?;
    text.push(b'\n')?;
    Ok(text)
}

/// The line of an audit, as `yes 3`.
pub fn audited_text(alloc: Global, dims: &Dims, told: &Audited) -> Result<Text, NoMemory>
    requires { IsThere dims.now told.now }
    ensures { IfOk result (λ text. text ≡ said.audited_text dims.now told.now) }
{
    match told {
        Audited::Yes { examined } => numbered(alloc, b"yes ", *examined),
        Audited::Inexact { item } => numbered(alloc, b"no: item ", *item),
        Audited::Fixed { measure, cell } => fixed_text(alloc, dims, *measure, cell),
    }
}
