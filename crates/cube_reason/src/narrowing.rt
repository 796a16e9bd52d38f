// The cuboid that the source of a measure would become.
ghost use Rattle.std.specs.Prelude.{◌≡◌, ◌<◌, ⊤, ℕ, true, Some, None, length, fold, IfOk};
ghost use Rattle.cube_model.specs.declared.policy.Policy.{Policy};
ghost use Rattle.cube_model.specs.Cores.{shown};
ghost use Rattle.cube_model.specs.Cubes.{are_levels};
ghost use Rattle.cube_model.specs.Dims.{plains};
ghost use Rattle.cube_model.specs.Entries.{is_allowed, levels_in};
ghost use Rattle.cube_model.specs.Requests.{grain as grain_of};
ghost use Rattle.cube_model.specs.Verdicts as verdicts;
ghost use Rattle.cube_reason.specs.Cases.{IsCase};
ghost use Rattle.cube_reason.specs.Given.{HasLevels};

use crate::cases::Case;
use cube_core::Core;
use cube_lattice::{grain, narrow};
use cube_model::{Entry, Levels, NoMemory, Policy};
use std::alloc::Global;

/// A source under what an entry brings.
fn narrow_by(
    alloc: Global,
    core: &Core,
    policy: &Policy,
    source: Option<Levels>,
    entry: &Entry,
) -> Result<Option<Levels>, NoMemory>
    requires source { HasLevels (plains core.now.dims) source }
    requires allowed { is_allowed (shown core.now policy.now) entry.now ≡ true }
    ensures narrowed { IfOk result (λ next. next ≡ fold (λ s c. Some (verdicts.narrowed s c)) source (levels_in entry.now)) }
    ensures levels { IfOk result (λ next. HasLevels (plains core.now.dims) next) }
{
    match entry {
        Entry::Asked(request) => Ok(Some(narrow(source.as_ref(), grain(alloc, request)?))),
        Entry::Source { levels, .. } => Ok(Some(narrow(source.as_ref(), levels.copied(alloc)?))),
        Entry::Linked { .. } => Ok(source),
    }
}

/// The source that a history leaves of a measure.
fn source_of(alloc: Global, case: &Case, measure: u32) -> Result<Option<Levels>, NoMemory>
    requires case { IsCase case.now }
    ensures source { IfOk result (λ source. source ≡ verdicts.source case.now.history.now measure) }
    ensures levels { IfOk result (λ source. HasLevels (plains case.now.core.now.dims) source) }
{
    let mut source = None;
    'entries: for entry in case.history {
        if entry.is_on(measure) {
            source = narrow_by(alloc, case.core, case.policy, source, entry)?;
        }
    }
    Ok(source)
}

/// The cuboid that the source of a measure would become behind a history, by the grain of a request.
pub(crate) fn next_source(alloc: Global, case: &Case, measure: u32) -> Result<Levels, NoMemory>
    requires case { IsCase case.now }
    ensures levels { IfOk result (λ levels. levels ≡ verdicts.narrowed (verdicts.source case.now.history.now measure) (grain_of case.now.request.now)) }
    ensures there { IfOk result (λ levels. are_levels (plains case.now.core.now.dims) levels ≡ true) }
{
    let source = source_of(alloc, case, measure)?;
    Ok(narrow(source.as_ref(), grain(alloc, case.request)?))
}
