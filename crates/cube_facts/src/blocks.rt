// Facts of records, read in blocks and added up a block at a time. What a point holds is far away in memory; the facts
// of a block wait for theirs together, where each by itself would wait alone.
ghost use Rattle.std.specs.Prelude.{◌≡◌, ◌⊎◌, ◌≤◌, ◌<◌, ◌+◌, ◌-◌, ◌^◌, ◌∷◌, [], ℕ, List, length, map, take, true, false, IfOk, IfErr, OnOk, Err};
ghost use Rattle.csv.specs.Records.{fields_of};
ghost use Rattle.cube_model.specs.Dims.{Dims, IsDims};
ghost use Rattle.cube_facts.specs.FactFile.{facts_in};
ghost use Rattle.cube_facts.specs.Blocks.{fact_held, SaysFact, FirstIsFaulty, Takes, Reads, Awaits, MayAdd, MayLook, AreNoted};
ghost use Rattle.cube_facts.specs.declared.fault.FactsFault.TheVariants as fault;

use crate::FactsFault;
use crate::layout::Layout;
use crate::records::Records;
use crate::totals::Points;
use csv::ByteRecord;
use cube_model::{LimitKind, NoMemory, Recent};
use std::alloc::Global;

// The most points.
const MAX_POINTS: usize = 65_536;

// How many facts make a block.
const BLOCK: usize = 128;

/// A fact that waits to be added up: a leaf of each dimension, and the units of each measure.
#[derive(Drop)]
pub(crate) struct Held {
    leaves: Vec<u32>,
    units: Vec<i64>,
}

/// Room for the facts of a block.
pub(crate) fn new_block(alloc: Global) -> Result<Vec<Held>, NoMemory>
    ensures { IfOk result (λ block. length block.items ≤ 128) }
{
    let mut block = Vec::new(alloc);
    for _ in 0..BLOCK {
        block.push(Held {
            leaves: Vec::new(alloc),
            units: Vec::new(alloc),
        })?;
    }
    Ok(block)
}

// Takes the fact of the next record, behind so many others, and whether there is one.
fn read_held<R: Records>(
    alloc: Global,
    layout: &Layout,
    records: &mut R,
    row: &mut ByteRecord,
    earlier: u64,
    recent: &mut Recent,
    held: &mut Held,
) -> Result<bool, FactsFault>
    requires rules { IsDims layout.now.dims.now }
    requires few { earlier < 2 ^ 64 - 1 }
    ensures found { IfOk result (λ found. found ≡ true → (R.left records.old ≡ fields_of row.new ∷ R.left records.new) × SaysFact layout.now.dims.now layout.now.header earlier (fact_held held.new) (fields_of row.new)) }
    ensures none { IfOk result (λ found. found ≡ false → R.left records.old ≡ []) }
    ensures err { IfErr result (λ e. (e ≡ fault.NoMemory) ⊎ FirstIsFaulty layout.now.dims.now layout.now.header earlier (R.left records.old) e) }
{
    if !records.next_record(row)? {
        return Ok(false);
    }
    match layout.read_fact(
        alloc,
        row,
        earlier,
        recent,
        &mut held.leaves,
        &mut held.units,
    ) {
        Ok(()) => Ok(true),
        Err(fault) => Err(fault),
    }
}

/// Takes facts of the records behind so many others in the places of a block, from its front on: how many, and whether
/// the block is full or no record is left, or the fault of the record behind them.
pub(crate) fn read_block<R: Records>(
    alloc: Global,
    layout: &Layout,
    records: &mut R,
    row: &mut ByteRecord,
    earlier: u64,
    recent: &mut Recent,
    block: &mut Vec<Held>,
) -> (usize, Result<bool, FactsFault>)
    requires rules { IsDims layout.now.dims.now }
    requires few { earlier ≤ 1000000 }
    requires short { length block.old.items ≤ 128 }
    ensures many { result.0 ≤ length block.new.items }
    ensures same { length block.new.items ≡ length block.old.items }
    ensures full { IfOk result.1 (λ more. more ≡ true → Takes layout.now.dims.now layout.now.header earlier (R.left records.old) (map fact_held (take result.0 block.new.items)) (R.left records.new)) }
    ensures end { IfOk result.1 (λ more. more ≡ false → Takes layout.now.dims.now layout.now.header earlier (R.left records.old) (map fact_held (take result.0 block.new.items)) []) }
    ensures err { IfErr result.1 (λ e. (rest : List (List (List ℕ))) × Takes layout.now.dims.now layout.now.header earlier (R.left records.old) (map fact_held (take result.0 block.new.items)) rest
        × ((e ≡ fault.NoMemory) ⊎ FirstIsFaulty layout.now.dims.now layout.now.header (earlier + result.0) rest e)) }
{
    for many in 0..block.len() {
        match read_held(
            alloc,
            layout,
            records,
            row,
            earlier + many as u64,
            recent,
            &mut block[many],
        ) {
            Ok(true) => {}
            Ok(false) => return (many, Ok(false)),
            Err(fault) => return (many, Err(fault)),
        }
    }
    (block.len(), Ok(true))
}

// The places of the points of a block, each and 1 more, and 0 where it is not known. All are looked for before any fact is
// added up, so that the facts of a block wait for memory together.
fn noted_places(points: &Points, block: &[Held]) -> [u16; BLOCK]
    requires short { length block.now ≤ 128 }
    requires may { MayLook points.now block.now }
    ensures { AreNoted points.now result block.now }
{
    let mut noted = [0u16; BLOCK];
    for (place, held) in block.iter().enumerate() {
        noted[place] = points.noted(held.leaves.as_slice());
    }
    noted
}

/// Adds up the facts of a block, behind so many others, until there are too many points.
pub(crate) fn add_block(
    alloc: Global,
    points: &mut Points,
    earlier: u64,
    block: &[Held],
) -> Result<(), FactsFault>
    requires short { length block.now ≤ 128 }
    requires may { MayAdd points.old earlier (map fact_held block.now) }
    ensures ok { (s : Dims) (all : List (List (List ℕ))) (header : List (List ℕ)) (rest : List (List (List ℕ))) → Awaits s all header points.old earlier (map fact_held block.now) rest → OnOk result (Reads s all header points.new (earlier + length block.now) rest) }
    ensures err { (s : Dims) (all : List (List (List ℕ))) (header : List (List ℕ)) (rest : List (List (List ℕ))) → Awaits s all header points.old earlier (map fact_held block.now) rest → IfErr result (λ e. (e ≡ fault.NoMemory) ⊎ (facts_in s all ≡ Err e)) }
{
    let noted = noted_places(points, block);
    for (place, held) in block.iter().enumerate() {
        points.add(
            alloc,
            earlier + place as u64,
            noted[place],
            held.leaves.as_slice(),
            held.units.as_slice(),
        )?;
        if points.len() > MAX_POINTS {
            return Err(FactsFault::Limit {
                which: LimitKind::Points,
                number: MAX_POINTS as u64,
            });
        }
    }
    Ok(())
}
