// What is drafted is read as those who use it will read it.
ghost use Rattle.std.specs.Prelude.{◌≡◌, ◌==◌, ◌<◌, ℕ, length, true, slice_index_or, Ok, IfOk, OnOk, IfErr};
ghost use Rattle.std.specs.List.{list_any};
ghost use Rattle.cube_model.specs.declared.policy.Method.TheVariants as method;
ghost use Rattle.cube_model.specs.declared.policy.Policy.{Policy};
ghost use Rattle.cube_model.specs.declared.shape.Shape.{Shape};
ghost use Rattle.cube_dims.specs.DimsFile.{dims_of};
ghost use Rattle.cube_facts.specs.FactFile.{filled_of};
ghost use Rattle.cube_policy.specs.PolicyFile.{policy_of};
ghost use Rattle.cube_draft.specs.Drafts.{is_controlled as controls, is_governed as governs, IsFilled, IsGoverned};

use crate::fault::DraftFault;
use cube_dims::{DimsFault, read_dims};
use cube_facts::{FactsFault, read_facts};
use cube_model::{Dims, LimitKind, Method, Object, Policy, Text};
use cube_policy::{PolicyFault, read_policy};
use std::alloc::Global;

// The most bytes of a file that is read.
const MAX_FILE: usize = 67_108_864;

fn dims_fault(fault: DimsFault) -> DraftFault {
    match fault {
        DimsFault::NoMemory => DraftFault::NoMemory,
        fault => DraftFault::Dims { fault },
    }
}

fn facts_fault(fault: FactsFault) -> DraftFault {
    match fault {
        FactsFault::NoMemory => DraftFault::NoMemory,
        fault => DraftFault::Facts { fault },
    }
}

fn policy_fault(fault: PolicyFault) -> DraftFault {
    match fault {
        PolicyFault::NoMemory => DraftFault::NoMemory,
        fault => DraftFault::Policy { fault },
    }
}

// Checks that a text is no longer than a file that is read may be.
fn check_length(text: &Text) -> Result<(), DraftFault> {
    if text.len() > MAX_FILE {
        return Err(DraftFault::Limit {
            which: LimitKind::File,
            number: MAX_FILE as u64,
        });
    }
    Ok(())
}

/// Reads a dimension file that was drafted.
pub(crate) fn read_drafted(alloc: Global, text: &Text) -> Result<Dims, DraftFault>
    ensures { IfOk result (λ dims. dims_of text.now ≡ Ok dims) }
{
    check_length(text)?;
    match read_dims(alloc, text.as_slice()) {
        Ok(dims) => Ok(dims),
        Err(fault) => Err(dims_fault(fault)),
    }
}

/// Reads the fact file under dimensions that were drafted.
pub(crate) fn check_facts(alloc: Global, dims: &Dims, bytes: &[u8]) -> Result<(), DraftFault>
    ensures { OnOk result (IsFilled dims.now bytes.now) }
{
    match read_facts(alloc, dims, bytes) {
        Ok(_) => Ok(()),
        Err(fault) => Err(facts_fault(fault)),
    }
}

// Whether a measure is under a control.
fn is_controlled(methods: &[Method], measure: usize) -> bool
    ensures { result ≡ controls (slice_index_or methods.now measure method.Plain) }
{
    match methods.get(measure) {
        Some(Method::Lattice) | Some(Method::Parity) => true,
        Some(Method::Plain) | None => false,
    }
}

/// Whether an object protects a measure.
pub fn has_object(objects: &[Object], measure: usize) -> bool
    ensures { result ≡ list_any (λ o. o.measure == measure) objects.now }
{
    objects
        .iter()
        .any(|object| object.measure as usize == measure)
}

// Whether a measure is under a control and an object protects it.
fn is_governed(policy: &Policy, measure: usize) -> bool
    ensures { result ≡ governs policy.now measure }
{
    is_controlled(policy.methods.as_slice(), measure)
        && has_object(policy.objects.as_slice(), measure)
}

// Whether so many measures are.
fn are_governed(policy: &Policy, measures: usize) -> bool
    ensures { result ≡ true → (m : ℕ) → m < measures → governs policy.now m ≡ true }
{
    for measure in 0..measures {
        if !is_governed(policy, measure) {
            return false;
        }
    }
    true
}

/// Reads a policy file that was drafted, which leaves no measure open.
pub(crate) fn check_policy(alloc: Global, dims: &Dims, text: &Text) -> Result<(), DraftFault>
    ensures { OnOk result (IsGoverned dims.now text.now) }
{
    check_length(text)?;
    match read_policy(alloc, dims, text.as_slice()) {
        Ok(policy) if are_governed(&policy, dims.measures().len()) => Ok(()),
        Ok(_) => Err(DraftFault::Untrue),
        Err(fault) => Err(policy_fault(fault)),
    }
}
