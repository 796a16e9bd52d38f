// What a state keeps of a measure of the old cube, where the old cube has the measure.
ghost use Rattle.std.specs.Prelude.{◌≡◌, ◌<◌, length, None, option_copied};
ghost use Rattle.cube_model.specs.declared.policy.Method.TheVariants as methods;
ghost use Rattle.cube_model.specs.Cores.{shown};
ghost use Rattle.cube_model.specs.Policies.{IsPolicy};
ghost use Rattle.cube_model.specs.Protection.{method};
ghost use Rattle.cube_model.specs.Verdicts.{source};
ghost use Rattle.cube_admit.specs.States.{IsStateOf};
ghost use Rattle.cube_carrying.specs.Given.{IsKept};

use cube_admit::State;
use cube_colour::Colouring;
use cube_core::Core;
use cube_model::{Levels, Policy};

/// The source of a lattice measure with a number; none where there is no such measure.
pub(crate) fn kept_source<'a>(
    core: &Core,
    policy: &Policy,
    state: &'a State,
    number: usize,
) -> Option<&'a Levels>
    requires policy { IsPolicy core.now.dims policy.now }
    requires stands { IsStateOf (shown core.now policy.now) state.now }
    requires none { state.now.pending ≡ None }
    requires lattice { number < length core.now.dims.measures → method (shown core.now policy.now) number ≡ methods.Lattice }
    ensures { option_copied result ≡ source state.now.history number }
{
    if number < core.dims().measures().len() {
        state.source(number as u32)
    } else {
        None
    }
}

/// The colouring of a parity measure with a number; none where there is no such measure.
pub(crate) fn kept_colouring<'a>(
    core: &Core,
    policy: &Policy,
    state: &'a State,
    number: usize,
) -> Option<&'a Colouring>
    requires policy { IsPolicy core.now.dims policy.now }
    requires stands { IsStateOf (shown core.now policy.now) state.now }
    requires none { state.now.pending ≡ None }
    requires parity { number < length core.now.dims.measures → method (shown core.now policy.now) number ≡ methods.Parity }
    ensures { IsKept (shown core.now policy.now) state.now.history number (option_copied result) }
{
    if number < core.dims().measures().len() {
        state.colouring(number as u32)
    } else {
        None
    }
}
