// The line of a seal, and what the bytes of its log say.
ghost use Rattle.std.specs.Prelude.{◌≡◌, take, drop, true, false, IfSome, IfNone};
ghost use Rattle.cube_journal.specs.Digests.{is_digest};
ghost use Rattle.cube_seal.specs.Seals.{seal_line, is_in_line, digits_in, is_seal_line, seal_in};

use cube_journal::Digest;

/// What the bytes of the log of a seal say.
#[derive(Clone, Copy, Debug, PartialEq, Eq)]
pub enum Said {
    /// Nothing yet: there is at most the beginning of a line.
    Nothing,
    /// The digest of the values.
    Sealed(Digest),
    /// They are neither a seal nor the beginning of one.
    Damaged,
}

/// The length of the line of a seal.
const LINE: usize = 72;

/// The line of a seal, with its line feed.
pub fn line_of(digest: &Digest) -> [u8; LINE]
    ensures line { result ≡ seal_line digest.now }
    ensures lower { is_digest digest.now ≡ true }
{
    let mut line = [b'\n'; LINE];
    line[..7].copy_from_slice(b"values ");
    line[7..71].copy_from_slice(digest.digits());
    line
}

fn is_in_line(bytes: &[u8]) -> bool
    ensures { result ≡ is_in_line bytes.now }
{
    bytes.iter().all(|byte| *byte != b'\n')
}

/// What stands behind the word of a seal.
fn behind_word(bytes: &[u8]) -> &[u8]
    ensures { result.now ≡ drop 7 bytes.now }
{
    match bytes.get(7..) {
        Some(digits) => digits,
        None => &[],
    }
}

/// The digits of a seal, where the bytes have them.
fn digits_in(bytes: &[u8]) -> &[u8]
    ensures { result.now ≡ digits_in bytes.now }
{
    let behind = behind_word(bytes);
    if behind.len() < 64 {
        behind
    } else {
        &behind[..64]
    }
}

/// The digest of a seal, where the bytes are its line.
fn sealed_in(bytes: &[u8]) -> Option<Digest>
    ensures some { IfSome result (λ digest. is_seal_line bytes.now ≡ true) }
    ensures digits { IfSome result (λ digest. digest ≡ digits_in bytes.now) }
    ensures none { IfNone result (is_seal_line bytes.now ≡ false) }
{
    let digest = Digest::from_digits(digits_in(bytes))?;
    if bytes == line_of(&digest).as_slice() {
        Some(digest)
    } else {
        None
    }
}

/// What the bytes of the log of a seal say.
#[tactic(auto, unfolding(crate::specs::Seals::seal_in))]
pub fn seal_in(bytes: &[u8]) -> Said
    ensures { result ≡ seal_in bytes.now }
{
    if is_in_line(bytes) {
        if bytes.len() <= LINE {
            Said::Nothing
        } else {
            Said::Damaged
        }
    } else {
        match sealed_in(bytes) {
            Some(digest) => Said::Sealed(digest),
            None => Said::Damaged,
        }
    }
}
