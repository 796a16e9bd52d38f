// The lines of a file of records: a carriage return, a line feed or both end one, as they end a record.
ghost use Rattle.std.specs.Prelude.{◌≡◌};
ghost use Rattle.cube_notes.specs.Lines.{ends_line, line_behind};

// The mark that stands at the front of some files.
const MARK: [u8; 3] = [0xEF, 0xBB, 0xBF];

// Whether a byte behind another ends a line: a line feed ends none where the carriage return before it has ended it.
fn ends_line(before: u8, byte: u8) -> bool
    ensures { result ≡ ends_line before byte }
{
    byte == b'\r' || (byte == b'\n' && before != b'\r')
}

/// The number of the line, from 1, in which the byte behind these stands.
pub(crate) fn line_behind(front: &[u8]) -> u64
    ensures { result ≡ line_behind front.now }
{
    let mut before = 0u8;
    let mut line = 1u64;
    for byte in front {
        if ends_line(before, *byte) {
            line = line.saturating_add(1);
        }
        before = *byte;
    }
    line
}

// How many bytes of empty lines stand at the front.
fn count_breaks(rest: &[u8]) -> usize {
    rest.iter()
        .take_while(|byte| **byte == b'\r' || **byte == b'\n')
        .count()
}

// Where a reader that has taken so many bytes goes on, behind a mark at the front of the file.
fn behind_mark(bytes: &[u8], taken: usize) -> usize {
    if taken == 0 && bytes.starts_with(&MARK) {
        MARK.len()
    } else {
        taken
    }
}

/// The number of the line, from 1, in which the record begins that is read behind so many bytes: empty lines are passed over.
pub(crate) fn line_of_record(bytes: &[u8], taken: usize) -> u64 {
    let start = behind_mark(bytes, taken);
    let breaks = match bytes.get(start..) {
        Some(rest) => count_breaks(rest),
        None => 0,
    };
    match bytes.get(..start.saturating_add(breaks)) {
        Some(front) => line_behind(front),
        None => line_behind(bytes),
    }
}
