// Fact files: facts in the columns that dimensions and measures name, added up at their points.
ghost use Rattle.std.specs.Prelude.{◌≡◌, ◌⊎◌, List, length, Ok, Err, IfOk, IfErr, OnOk};
ghost use Rattle.cube_model.specs.Answers.{Answers};
ghost use Rattle.cube_model.specs.Cores.{IsCore};
ghost use Rattle.cube_model.specs.Dims.{IsDims};
ghost use Rattle.cube_facts.specs.FactFile.{Fact, facts_in, filled, filled_of};
ghost use Rattle.cube_facts.specs.Filling.{AreFacts, Gathers};
ghost use Rattle.cube_facts.specs.declared.fault.FactsFault.TheVariants as fault;

use crate::FactsFault;
use crate::blocks::{add_block, new_block, read_block};
use crate::layout::Layout;
use crate::records::{FileRecords, Records, has_second_mark};
use crate::totals::Points;
use csv::ByteRecord;
use cube_model::{Cube, Dims, Recent, Shape};
use std::alloc::Global;

// How many slots there are for the leaves that were found last.
const RECENT: usize = 16_384;

// The points of some records, with what their facts add up to.
fn read_points<R: Records>(
    alloc: Global,
    dims: &Dims,
    records: &mut R,
) -> Result<Points, FactsFault>
    ensures ok { IfOk result (λ points. (facts : List Fact) × (facts_in dims.now (R.left records.old) ≡ Ok facts) × AreFacts dims.now facts × Gathers dims.now facts points) }
    ensures rules { OnOk result (IsDims dims.now) }
    ensures err { IfErr result (λ e. (e ≡ fault.NoMemory) ⊎ (facts_in dims.now (R.left records.old) ≡ Err e)) }
{
    let mut row = ByteRecord::new(alloc);
    if !records.next_record(&mut row)? {
        return Err(FactsFault::NoHeader);
    }
    let layout = match Layout::read(alloc, dims, &row) {
        Ok(layout) => layout,
        Err(fault) => return Err(fault),
    };
    let mut points = Points::new(alloc, dims)?;
    let mut recent = Recent::none(alloc);
    recent.make_slots(alloc, RECENT)?;
    let mut block = new_block(alloc)?;
    let mut earlier = 0u64;
    'turns: for _turn in 0..u64::MAX {
        let (many, ending) = read_block(
            alloc,
            &layout,
            records,
            &mut row,
            earlier,
            &mut recent,
            &mut block,
        );
        match add_block(alloc, &mut points, earlier, &block[..many]) {
            Ok(()) => {}
            Err(fault) => return Err(fault),
        }
        match ending {
            Ok(true) => earlier += many as u64,
            Ok(false) => return Ok(points),
            Err(fault) => return Err(fault),
        }
    }
    Err(FactsFault::NoMemory)
}

// Reads facts from records.
fn read_facts_of<R: Records>(
    alloc: Global,
    dims: &Dims,
    records: &mut R,
) -> Result<(Shape, Cube), FactsFault>
    ensures said { Answers fault.NoMemory result (filled dims.now (facts_in dims.now (R.left records.old))) }
    ensures rules { IfOk result (λ filled. IsCore (record { dims = dims.now; shape = filled.0; cube = filled.1 })) }
{
    let points = read_points(alloc, dims, records)?;
    let order = points.order(alloc)?;
    let shape = points.shape(alloc, order.as_slice())?;
    let cube = points.cube(alloc, order.as_slice())?;
    Ok((shape, cube))
}

/// Reads a fact file by the columns that the dimensions and the measures name: the points at which there
/// are facts, and the plain sum of each measure at each of them.
///
/// Columns that nothing names are ignored. The time is that of the records, each with one look-up
/// of its point by a hash, and of one sort of the points.
pub fn read_facts(alloc: Global, dims: &Dims, bytes: &[u8]) -> Result<(Shape, Cube), FactsFault>
    ensures said { Answers fault.NoMemory result (filled_of dims.now bytes.now) }
    ensures rules { IfOk result (λ filled. IsCore (record { dims = dims.now; shape = filled.0; cube = filled.1 })) }
{
    if has_second_mark(bytes) {
        return Err(FactsFault::NoHeader);
    }
    read_facts_of(alloc, dims, &mut FileRecords::new(alloc, bytes))
}
