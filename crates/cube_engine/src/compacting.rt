// The history written down as what it holds, as the text of a journal.
ghost use Rattle.std.specs.Prelude.{◌≡◌, None, IfOk};
ghost use Rattle.cube_engine.specs.Compacting.{compacted_text};

use crate::holding::Holding;
use crate::opening::digest_for;
use cube_journal::journal2_text;
use cube_model::{NoMemory, Text};
use std::alloc::Global;

impl Holding {
    /// The text of a journal that holds what the history holds, by no request.
    #[tactic(auto, using(crate::proofs::KeepsAll::pending_is, crate::proofs::KeepsAll::compacted_is_alone))]
    pub(crate) fn compacted_text(&self, alloc: Global) -> Result<Text, NoMemory>
        requires none { self.now.waiting ≡ None }
        ensures { IfOk result (λ text. text ≡ compacted_text self.now.core self.now.policy self.now.history) }
    {
        let _rules = self.core();
        let digest = digest_for(alloc, self.core.get(), &self.policy)?;
        let entries = self.state.compacted(alloc, self.core.get(), &self.policy)?;
        journal2_text(alloc, &digest, entries.as_slice())
    }
}
