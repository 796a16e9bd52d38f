// The records of a file.
ghost use Rattle.std.specs.Prelude.{◌≡◌, ◌∷◌, [], ℕ, List, true, false, None, Some, IfOk, if◌then◌else◌};
ghost use Rattle.std.proofs.Props.{props};
ghost use Rattle.csv.specs.Reading.{default_config, strip_bom, source_of, reader_config, reader_trim, names_headers, reader_headers, reader_state};
ghost use Rattle.csv.specs.declared.reader.Trim.TheVariants as trim;
ghost use Rattle.csv.specs.declared.parser.State.TheVariants as st;
ghost use Rattle.csv.specs.Records.{fields_of};
ghost use Rattle.cube_model.specs.Names.{begins_with_mark};
ghost use Rattle.cube_facts.specs.Records.{records_of};
ghost use Rattle.cube_facts.specs.Unread.{unread, StandsBetween};

use csv::{ByteRecord, Reader, ReaderBuilder};
use cube_model::NoMemory;
use std::alloc::Global;

/// The most records behind a header.
pub const MAX_FACTS: u64 = 1_000_000;

const MARK: [u8; 3] = [0xEF, 0xBB, 0xBF];

#[tactic(auto, unfolding(csv::specs::Reading::strip_bom))]
fn behind_mark(bytes: &[u8]) -> &[u8]
    ensures { result.now ≡ strip_bom bytes.now }
{
    match bytes {
        [0xEF, 0xBB, 0xBF, rest @ ..] => rest,
        _ => bytes,
    }
}

/// Whether a byte order mark still stands at the front behind the one that is dropped.
pub fn has_second_mark(bytes: &[u8]) -> bool
    ensures { result ≡ begins_with_mark (strip_bom bytes.now) }
{
    behind_mark(bytes).starts_with(&MARK)
}

/// A reader of the records: all of them, the first like the others, of any lengths.
pub fn open_records(alloc: Global, bytes: &[u8]) -> Reader<&[u8]>
    ensures config { reader_config result ≡ default_config }
    ensures trim { reader_trim result ≡ trim.None }
    ensures has_headers { names_headers result ≡ false }
    ensures headers { reader_headers result ≡ None }
    ensures state { reader_state result ≡ st.StartRecord }
    ensures source { source_of (λ s. Some s.now) result ≡ Some (strip_bom bytes.now) }
{
    ReaderBuilder::new()
        .has_headers(false)
        .flexible(true)
        .from_reader(alloc, bytes)
}

/// Records, from the header on, one after another.
pub(crate) trait Records {
    /// The records that are left.
    ghost left: { Self → List (List (List ℕ)) };

    /// Puts the next record in the place of another, and whether there is one.
    fn next_record(&mut self, row: &mut ByteRecord) -> Result<bool, NoMemory>
        ensures found { IfOk result (λ found. found ≡ true → left self.old ≡ fields_of row.new ∷ left self.new) }
        ensures none { IfOk result (λ found. found ≡ false → left self.old ≡ []) };
}

// Reads the record after one, and whether there is one.
fn read_next(reader: &mut Reader<&[u8]>, row: &mut ByteRecord) -> Result<bool, NoMemory>
    requires { StandsBetween (λ s. Some s.now) reader.old }
    ensures between { IfOk result (λ found. found ≡ true → StandsBetween (λ s. Some s.now) reader.new) }
    ensures found { IfOk result (λ found. found ≡ true → unread (λ s. Some s.now) reader.old ≡ fields_of row.new ∷ unread (λ s. Some s.now) reader.new) }
    ensures none { IfOk result (λ found. found ≡ false → unread (λ s. Some s.now) reader.old ≡ []) }
{
    match reader.read_byte_record(row) {
        Ok(found) => Ok(found),
        Err(_) => Err(NoMemory),
    }
}

/// The records of a file.
#[derive(Drop)]
pub(crate) struct FileRecords<'a> {
    reader: Reader<&'a [u8]>,
    // Whether a read has found none, or has failed.
    ended: bool,
    ghost between: { ended ≡ false → StandsBetween (λ s. Some s.now) reader } by { Prim.hlevel props },
}

impl<'a> FileRecords<'a> {
    /// All the records.
    pub(crate) fn new(alloc: Global, bytes: &'a [u8]) -> Self
        ensures { ⟦<FileRecords<'a> as Records>⟧.left result ≡ records_of bytes.now }
    {
        FileRecords {
            reader: open_records(alloc, bytes),
            ended: false,
        }
    }
}

impl<'a> Records for FileRecords<'a> {
    ghost left = { λ s. if s.ended then [] else unread (λ s. Some s.now) s.reader };

    fn next_record(&mut self, row: &mut ByteRecord) -> Result<bool, NoMemory> {
        if self.ended {
            return Ok(false);
        }
        let found = read_next(&mut self.reader, row);
        self.ended = found != Ok(true);
        found
    }
}
