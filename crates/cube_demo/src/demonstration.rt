// The demonstration.
ghost use Rattle.std.specs.Prelude.{◌≡◌, ◌≢◌, ◌≤◌, Err, IfOk, IfErr, OnOk};
ghost use Rattle.cube_io.specs.Causes.{Rose};
ghost use Rattle.cube_demo.specs.Writing.{IsSummary, Prints, EndsShort};
ghost use Rattle.cube_demo.specs.declared.fault.DemoFault.TheVariants as fault;

use crate::DemoFault;
use crate::asking::ask_all;
use crate::summary::summary;
use cube_io::{NullStore, Sink};
use cube_made::make_cube;
use cube_model::{NoMemory, Text};
use std::alloc::Global;

/// The summary of the cube that is made of a number and a size, whose queries are asked of a book as well.
fn summary_of(alloc: Global, number: u64, size: u32) -> Result<Text, NoMemory>
    requires some { 1 ≤ size }
    requires few { size ≤ 20 }
    ensures { IfOk result (λ text. IsSummary number size text) }
{
    let made = make_cube(alloc, number, size)?;
    let requests = made.requests.as_slice();
    let text = summary(alloc, size, &made.core, &made.policy, requests)?;
    ask_all(alloc, made.core, made.policy, made.queries.as_slice())?;
    Ok(text)
}

/// Makes a cube and queries of a number and a size, and puts a summary: how many facts, points and queries there are,
/// how many verdicts of each kind the queries get in turn, and how many of the first 100 protected cells of pay and of
/// hours have a witness, that is changes that no answer tells and that make the sum of the cell greater by one.
///
/// A size of 1 has 20,000 facts and 200 queries, and a size of s has s times as many.
pub fn demo<S: Sink>(alloc: Global, number: u64, size: u32, out: &mut S) -> Result<(), DemoFault>
    requires some { 1 ≤ size }
    requires few { size ≤ 20 }
    ensures prints { OnOk result (Prints number size (S.state out.old).written (S.state out.new).written) }
    ensures fault { IfErr result (EndsShort number size (S.state out.old).written (S.state out.new).written) }
    ensures output { result ≡ Err fault.OutputFailed → Rose (S.state out.old).faults (S.state out.new).faults }
    ensures steady { result ≢ Err fault.OutputFailed → (S.state out.new).faults ≡ (S.state out.old).faults }
    ensures nothing { IfErr result (λ e. e ≢ fault.OutputFailed → out.new ≡ out.old) }
{
    let text = summary_of(alloc, number, size)?;
    match out.put(&NullStore::new(), text.as_slice()) {
        Ok(()) => Ok(()),
        Err(_) => Err(DemoFault::OutputFailed),
    }
}
