// The source rule: what one more request makes of the source of a lattice measure.
ghost use Rattle.std.specs.Prelude.{◌≡◌, length};
ghost use Rattle.cube_model.specs.Verdicts.{holds_grain};
ghost use Rattle.cube_admit.specs.Sources.{IsLong, stepped, step_by};
ghost use Rattle.cube_admit.specs.States.{source_in};

use crate::Held;
use cube_lattice::{finer_or_equal, narrow};
use cube_model::Levels;

/// Whether the source is as fine as the grain already.
#[tactic(auto, using(crate::proofs::Meets::held_finer))]
fn holds(source: &Option<Levels>, grain: &Levels) -> bool
    requires { IsLong (length grain.now) source.now }
    ensures { result ≡ holds_grain source.now grain.now }
{
    match source {
        None => false,
        Some(source) => finer_or_equal(source, grain),
    }
}

/// What a request does to the source of its measure.
#[derive(Drop)]
pub(crate) enum Step {
    /// It stays as it is.
    Stays,
    /// It would become these levels.
    Would(Levels),
}

/// What one more grain does to a source.
fn step_from(source: &Option<Levels>, grain: Levels) -> Step
    requires { IsLong (length grain) source.now }
    ensures { result ≡ stepped source.now grain }
{
    if holds(source, &grain) {
        Step::Stays
    } else {
        Step::Would(narrow(source.as_ref(), grain))
    }
}

/// What levels do to what is kept of a measure: where it has no source, nothing.
pub(crate) fn step_at(held: &Held, levels: Levels) -> Step
    requires { IsLong (length levels) (source_in held.now) }
    ensures { result ≡ step_by held.now levels }
{
    match held {
        Held::Open | Held::Links(_) => Step::Stays,
        Held::Source(source) => step_from(source, levels),
    }
}
