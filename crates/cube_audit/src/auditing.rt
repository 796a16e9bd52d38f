// The audit of a transcript.
ghost use Rattle.std.specs.Prelude.{◌≡◌, ◌≤◌, length, IfOk};
ghost use Rattle.cube_model.specs.Policies.{IsPolicy};
ghost use Rattle.cube_audit.specs.Audits.{audited};
ghost use Rattle.cube_audit.specs.AuditText.{IsThere};
ghost use Rattle.cube_audit.specs.Sound.{SaysSound};

use crate::exact::{Examined, examine};
use crate::keeping::{Asked, keep_all};
use crate::transcript::Transcript;
use cube_core::{Core, Steps};
use cube_model::{Cell, NoMemory, Policy};
use std::alloc::Global;
use std::sync::ledger::Ledger;

/// What an audit tells.
#[derive(Drop)]
pub enum Audited {
    /// Each item that was examined is exact, and the requests keep each measure.
    Yes {
        /// How many items were examined.
        examined: u32,
    },
    /// An item is not exact.
    Inexact {
        /// The number of the first such item in the transcript, counted from 1.
        item: u32,
    },
    /// Each item is exact, and a measure is not kept.
    Fixed {
        /// The number of the first such measure.
        measure: u32,
        /// Its first protected cell that fails.
        cell: Cell,
    },
}

/// Examines the items, and then whether their requests keep each measure.
fn audit_items<L: Ledger>(
    alloc: Global,
    core: &Core,
    policy: &Policy,
    items: &Transcript,
    steps: &mut Steps<L>,
) -> Result<Audited, NoMemory>
    requires policy { IsPolicy core.now.dims policy.now }
    requires few { length items.now ≤ 65536 }
    ensures { IfOk result (λ told. told ≡ audited core.now policy.now items.now) }
{
    let _rules = core.dims();
    match examine(alloc, core, items.as_slice(), steps)? {
        Examined::Inexact { item } => Ok(Audited::Inexact { item }),
        Examined::Exact { requests } => {
            let requests = requests.as_slice();
            let asked = Asked {
                core,
                policy,
                requests,
            };
            keep_all(alloc, &asked)
        }
    }
}

/// Checks a transcript against a cube under a policy. Only the items of status 200 are examined, as queries: a refusal of an unknown
/// server may say anything, and nothing is claimed of it.
///
/// A yes tells that each reply is right, and that for each protected cell there is another cube with the same replies, where the sum of
/// the cell is greater by one. A no is no proof of a disclosure.
pub fn audit<L: Ledger>(
    alloc: Global,
    core: &Core,
    policy: &Policy,
    items: &Transcript,
    steps: &mut Steps<L>,
) -> Result<Audited, NoMemory>
    requires policy { IsPolicy core.now.dims policy.now }
    requires few { length items.now ≤ 65536 }
    ensures audited { IfOk result (λ told. told ≡ audited core.now policy.now items.now) }
    ensures sound { IfOk result (λ told. SaysSound core.now policy.now items.now told) }
    ensures there { IfOk result (λ told. IsThere core.now.dims told) }
{
    let _rules = core.dims();
    audit_items(alloc, core, policy, items, steps)
}
