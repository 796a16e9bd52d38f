// A draft as a whole.
ghost use Rattle.std.specs.Prelude.{◌≡◌, true, false, IfOk, OnOk};
ghost use Rattle.csv.specs.Reading.{strip_bom};
ghost use Rattle.cube_model.specs.Names.{begins_with_mark};
ghost use Rattle.cube_draft.specs.Drafts.{AreTrue, IsDraft, IsFilled};
ghost use Rattle.cube_draft.specs.Kept.{Holds, Shown};

use crate::accept::{check_facts, check_policy, read_drafted};
use crate::apart::are_apart;
use crate::check::{are_true, covers};
use crate::choices::Choices;
use crate::fault::DraftFault;
use crate::kept::keeps;
use crate::plan::{Plan, make_plan};
use crate::shown::{are_fine, is_shown};
use crate::table::{Table, read_columns};
use crate::text::{dims_text, policy_text};
use cube_model::{Dims, Text};
use std::alloc::Global;

/// The texts of a draft: a dimension file, and a policy file that protects each measure at each
/// point.
#[derive(Drop)]
pub struct Draft {
    pub dims: Text,
    pub policy: Text,
}

// Checks that the fact file is accepted under dimensions that were read back. What the scan has seen
// shows it for most files; the others are read again, which tells the first fault.
fn check_filled(
    alloc: Global,
    bytes: &[u8],
    table: &Table,
    said: &Dims,
    agrees: bool,
) -> Result<(), DraftFault>
    requires shown { table.now.sound ≡ true → Shown bytes.now table.now.header table.now.members.items table.now.fields.items table.now.rows table.now.decimals.items }
    requires unmarked { begins_with_mark (strip_bom bytes.now) ≡ false }
    requires agrees { agrees ≡ true → AreTrue bytes.now said.now }
    ensures { OnOk result (IsFilled said.now bytes.now) }
{
    if agrees && is_shown(alloc, said, table)? {
        return Ok(());
    }
    check_facts(alloc, said, bytes)
}

// The draft of two texts, where they are read without a fault, and the fact file under them. That
// its dimensions are true of the columns and keep what was stated follows from how they were found;
// it is looked at again, since nothing else is believed of the texts.
fn accepted(
    alloc: Global,
    bytes: &[u8],
    table: &Table,
    plan: &Plan,
    choices: &Choices,
    texts: Draft,
) -> Result<Draft, DraftFault>
    requires holds { Holds bytes.now table.now.header table.now.members.items table.now.fields.items table.now.rows }
    requires shown { table.now.sound ≡ true → Shown bytes.now table.now.header table.now.members.items table.now.fields.items table.now.rows table.now.decimals.items }
    requires unmarked { begins_with_mark (strip_bom bytes.now) ≡ false }
    ensures { IfOk result (λ draft. IsDraft bytes.now choices.now draft.dims draft.policy) }
{
    let said = read_drafted(alloc, &texts.dims)?;
    let agrees = are_true(&said, table, plan.dimensions.as_slice());
    check_filled(alloc, bytes, table, &said, agrees)?;
    check_policy(alloc, &said, &texts.policy)?;
    if !agrees || !keeps(choices, &said) {
        return Err(DraftFault::Untrue);
    }
    if !covers(&said, table, choices.skipped.as_slice()) || !are_apart(choices, &said) {
        return Err(DraftFault::Untrue);
    }
    if !are_fine(&said, table) {
        return Err(DraftFault::Untrue);
    }
    Ok(texts)
}

/// Drafts a dimension file and a policy file for a fact file.
///
/// The time grows in step with the size of the fact file, for each pair of columns with members
/// once more, without reading the file again. The file is read again under the drafted dimensions
/// only where one pass over it does not show that it is accepted.
pub fn draft_files(alloc: Global, bytes: &[u8], choices: &Choices) -> Result<Draft, DraftFault>
    ensures { IfOk result (λ draft. IsDraft bytes.now choices.now draft.dims draft.policy) }
{
    let table = read_columns(alloc, bytes, choices)?;
    let plan = make_plan(alloc, &table, choices)?;
    let dims = dims_text(alloc, &table, &plan)?;
    let policy = policy_text(alloc, &table, &plan)?;
    accepted(alloc, bytes, &table, &plan, choices, Draft { dims, policy })
}
