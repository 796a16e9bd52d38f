// Short lines that are put together in a buffer and need no memory.
ghost use Rattle.std.specs.Prelude.{◌≡◌, ◌≤◌, ◌+◌, ◌++◌, length, take};

/// The most bytes of such a line.
pub const LINE: usize = 64;

/// Writes a text behind so many bytes that are written. Tells how many are written then.
pub fn write_at(line: &mut [u8; LINE], at: usize, text: &[u8]) -> usize
    requires { at + length text.now ≤ 64 }
    ensures end { result ≡ at + length text.now }
    ensures written { take result line.new ≡ take at line.old ++ text.now }
{
    let end = at + text.len();
    line[at..end].copy_from_slice(text);
    end
}
