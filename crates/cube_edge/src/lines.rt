// Lines of bytes.
ghost use Rattle.std.specs.Prelude.{◌≡◌, ◌<◌, ◌≤◌, length, take, position, is_some, IfSome};
ghost use Rattle.cube_edge.specs.Lines.{IsLine, is_feed};

// Where the first line feed stands.
fn find_feed(bytes: &[u8]) -> Option<usize>
    ensures at { result ≡ position is_feed bytes.now }
    ensures within { IfSome result (λ at. at < length bytes.now) }
{
    bytes.iter().position(|byte| *byte == b'\n')
}

/// Whether a line ends.
pub(crate) fn has_line(bytes: &[u8]) -> bool
    ensures { result ≡ is_some (position is_feed bytes.now) }
{
    find_feed(bytes).is_some()
}

// The first line, its line feed with it, or all where no line ends.
#[tactic(auto, using(crate::proofs::Parting::line_at, crate::proofs::Parting::line_whole))]
fn cut_line(bytes: &[u8]) -> &[u8]
    requires { 0 < length bytes.now }
    ensures front { result.now ≡ take (length result.now) bytes.now }
    ensures fits { (0 < length result.now) × (length result.now ≤ length bytes.now) }
    ensures line { IsLine result.now }
{
    match find_feed(bytes) {
        Some(at) => &bytes[..at + 1],
        None => bytes,
    }
}

/// The first line, of so many bytes at most, or as many where no line ends among them.
pub(crate) fn first_line(bytes: &[u8], most: usize) -> &[u8]
    requires some { 0 < length bytes.now }
    requires most { 0 < most }
    ensures front { result.now ≡ take (length result.now) bytes.now }
    ensures fits { (0 < length result.now) × (length result.now ≤ length bytes.now) }
    ensures few { length result.now ≤ most }
    ensures line { IsLine result.now }
{
    let count = bytes.len().min(most);
    cut_line(&bytes[..count])
}
