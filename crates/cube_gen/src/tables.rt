// The made dimension file and the made policy.
ghost use Rattle.std.specs.Prelude.{◌≡◌, ◌≤◌, ◌++◌, IfOk, OnOk};
ghost use Rattle.cube_gen.specs.Tables as said;
ghost use Rattle.cube_gen.specs.Tables.{branch_path, branches_head, other_tables, made_dims};

use crate::facts::push_numbered;
use cube_model::{NoMemory, Text};
use std::alloc::Global;

const BRANCHES: &[u8] =
    b"[[dimension]]\nlevels = [\n    \"branch\",\n    \"region\",\n]\nname = \"branch\"\npaths = [";

const OTHERS: &[u8] =
    b"\n]\n\n[[dimension]]\nlevels = [\n    \"month\",\n    \"quarter\",\n]\nname = \"month\"\npaths = [\n    [\n    \"m1\",\n    \"q1\",\n],\n    [\n    \"m2\",\n    \"q1\",\n],\n    [\n    \"m3\",\n    \"q1\",\n],\n    [\n    \"m4\",\n    \"q2\",\n],\n    [\n    \"m5\",\n    \"q2\",\n],\n    [\n    \"m6\",\n    \"q2\",\n],\n    [\n    \"m7\",\n    \"q3\",\n],\n    [\n    \"m8\",\n    \"q3\",\n],\n    [\n    \"m9\",\n    \"q3\",\n],\n    [\n    \"m10\",\n    \"q4\",\n],\n    [\n    \"m11\",\n    \"q4\",\n],\n    [\n    \"m12\",\n    \"q4\",\n],\n]\n\n[[dimension]]\nlevels = [\"grade\"]\nname = \"grade\"\npaths = [\n    [\"g0\"],\n    [\"g1\"],\n    [\"g2\"],\n    [\"g3\"],\n    [\"g4\"],\n    [\"g5\"],\n]\n\n[[measure]]\ndecimals = 2\nname = \"pay\"\n\n[[measure]]\nname = \"hours\"\n\n[[measure]]\nname = \"bonus\"\n";

const POLICY: &[u8] =
    b"[[measure]]\nname = \"pay\"\nmethod = \"lattice\"\n\n[[measure]]\nname = \"hours\"\nmethod = \"parity\"\n\n[[measure]]\nname = \"bonus\"\nmethod = \"open\"\n\n[[object]]\nmeasure = \"pay\"\nbelow = { branch = \"branch\", month = \"month\", grade = \"grade\" }\nslice = { grade = { level = \"grade\", members = [\"g5\"] } }\n";

/// Puts the path of a branch at the end.
fn push_branch(text: &mut Text, size: u32, branch: u64) -> Result<(), NoMemory>
    requires some { 1 ≤ size }
    requires few { size ≤ 20 }
    ensures { OnOk result (text.new ≡ text.old ++ branch_path size branch) }
{
    push_numbered(text, b"\n    [\n    \"b", branch)?;
    push_numbered(text, b"\",\n    \"r", branch % (5 * u64::from(size)))?;
    text.extend(b"\",\n],")
}

/// Puts what stands behind the branches at the end: months, grades and measures.
fn push_others(text: &mut Text) -> Result<(), NoMemory>
    ensures { OnOk result (text.new ≡ text.old ++ other_tables) }
{
    text.extend(OTHERS)
}

/// The text of the dimension file: 40 branches for each unit of size, in regions of 8 branches.
pub(crate) fn make_dims(alloc: Global, size: u32) -> Result<Text, NoMemory>
    requires some { 1 ≤ size }
    requires few { size ≤ 20 }
    ensures { IfOk result (λ text. text ≡ made_dims size) }
{
    let mut text = Text::from_bytes(alloc, BRANCHES)?;
    'branches: for branch in 0..40 * u64::from(size) {
        push_branch(&mut text, size, branch)?;
    }
    push_others(&mut text)?;
    Ok(text)
}

/// The text of the policy.
pub(crate) fn make_policy(alloc: Global) -> Result<Text, NoMemory>
    ensures { IfOk result (λ text. text ≡ said.made_policy) }
{
    Text::from_bytes(alloc, POLICY)
}
