// The history written down as what it holds.
ghost use Rattle.std.specs.Prelude.{◌≡◌, ◌<◌, ◌^◌, ◌++◌, map, length, None, IfOk, OnOk};
ghost use Rattle.cube_model.specs.declared.entry.Entry.TheVariants as entries;
ghost use Rattle.cube_model.specs.Compaction.{compacted, source_entry};
ghost use Rattle.cube_model.specs.Cores.{shown};
ghost use Rattle.cube_model.specs.Policies.{IsPolicy};
ghost use Rattle.cube_admit.specs.Compacting.{held_entries, held_from};
ghost use Rattle.cube_admit.specs.States.{IsStateOf};

use super::State;
use crate::Held;
use cube_colour::Colouring;
use cube_core::Core;
use cube_model::{Entry, History, Levels, NoMemory, Policy};
use std::alloc::Global;

fn put_levels(
    history: &mut History,
    alloc: Global,
    measure: u32,
    source: &Option<Levels>,
) -> Result<(), NoMemory>
    ensures { OnOk result (history.new ≡ history.old ++ source_entry measure source.now) }
{
    match source {
        None => Ok(()),
        Some(levels) => {
            let levels = levels.copied(alloc)?;
            history.push(Entry::Source { measure, levels })
        }
    }
}

fn put_links(history: &mut History, measure: u32, colouring: &Colouring) -> Result<(), NoMemory>
    ensures { OnOk result (history.new ≡ history.old ++ map (entries.Linked measure) colouring.now.kept) }
{
    'links: for number in 0..colouring.mark() {
        let link = colouring.kept(number);
        history.push(Entry::Linked { measure, link })?;
    }
    Ok(())
}

fn put_held(history: &mut History, alloc: Global, measure: u32, held: &Held) -> Result<(), NoMemory>
    ensures { OnOk result (history.new ≡ history.old ++ held_entries measure held.now) }
{
    match held {
        Held::Open => Ok(()),
        Held::Source(source) => put_levels(history, alloc, measure, source),
        Held::Links(colouring) => put_links(history, measure, colouring),
    }
}

fn put_all(alloc: Global, held: &[Held]) -> Result<History, NoMemory>
    requires { length held.now < 2 ^ 32 }
    ensures { IfOk result (λ entries. entries ≡ held_from 0 held.now) }
{
    let mut history = History::new(alloc);
    'measures: for measure in 0..held.len() {
        put_held(&mut history, alloc, measure as u32, &held[measure])?;
    }
    Ok(history)
}

impl State {
    /// The history written down as what it holds: measure after measure its source, or the links that are kept of it.
    /// No request may wait.
    #[tactic(auto, using(crate::proofs::Compacting::all_is_compacted))]
    pub fn compacted(
        &self,
        alloc: Global,
        core: &Core,
        policy: &Policy,
    ) -> Result<History, NoMemory>
        requires policy { IsPolicy core.now.dims policy.now }
        requires stands { IsStateOf (shown core.now policy.now) self.now }
        requires none { self.now.pending ≡ None }
        ensures { IfOk result (λ entries. entries ≡ compacted (shown core.now policy.now) self.now.history) }
    {
        let _rules = core.dims();
        put_all(alloc, self.held.as_slice())
    }
}
