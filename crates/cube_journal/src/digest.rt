// Digests of texts.
ghost use Rattle.std.specs.Prelude.{◌≡◌, length, true, false, IfSome, IfNone};
ghost use Rattle.sha2.specs.Sha256.{sha256};
ghost use Rattle.hex.specs.Hex.{encode_lower};
ghost use Rattle.std.specs.List.{list_all};
ghost use Rattle.cube_journal.specs.Digests.{digest_of, is_digit as digit_test, is_digest};

use sha2::{Digest as Hash, Sha256};
use std::marker::Model;

/// The SHA-256 of a text, as its 64 hexadecimal digits in lower case.
#[derive(Clone, Copy, Debug, PartialEq, Eq)]
pub struct Digest {
    digits: [u8; 64],
}

impl Model for Digest {
    ghost use Rattle.std.specs.Prelude.{◌≡◌, ℕ, List, true};
    ghost use Rattle.cube_journal.specs.Digests.{is_digest};

    ghost Value = { List ℕ };

    ghost view = { λ d. d.digits };

    ghost inverse = { λ digits. record { digits = digits } };

    ghost invariant = { λ d. is_digest d.digits ≡ true };
}

/// The SHA-256 of a text.
fn hash(text: &[u8]) -> [u8; 32]
    ensures { result ≡ sha256 text.now }
{
    Sha256::digest(text)
}

/// The digits of 32 bytes.
fn digits_of(bytes: &[u8; 32]) -> [u8; 64]
    ensures digits { result ≡ encode_lower bytes.now }
    ensures lower { is_digest result ≡ true }
{
    let mut out = [0u8; 64];
    let _ = hex::encode_to_slice(bytes.as_slice(), &mut out);
    out
}

/// The digest of a text. Takes no memory.
#[tactic(auto, unfolding(crate::specs::Digests::digest_of))]
pub fn digest_of(text: &[u8]) -> Digest
    ensures { result ≡ digest_of text.now }
{
    Digest {
        digits: digits_of(&hash(text)),
    }
}

fn is_digit(byte: u8) -> bool
    ensures { result ≡ digit_test byte }
{
    matches!(byte, b'0'..=b'9' | b'a'..=b'f')
}

fn all_digits(text: &[u8]) -> bool
    ensures { result ≡ list_all digit_test text.now }
{
    text.iter().all(|byte| is_digit(*byte))
}

impl Digest {
    /// The 64 digits.
    pub fn digits(&self) -> &[u8]
        ensures digits { result.now ≡ self.now }
        ensures lower { is_digest self.now ≡ true }
    {
        self.digits.as_slice()
    }

    /// The digest with these digits, where they are 64 hexadecimal digits in lower case.
    pub fn from_digits(text: &[u8]) -> Option<Digest>
        ensures some { IfSome result (λ digest. digest ≡ text.now) }
        ensures digits { IfSome result (λ digest. is_digest text.now ≡ true) }
        ensures none { IfNone result (is_digest text.now ≡ false) }
    {
        if text.len() != 64 || !all_digits(text) {
            return None;
        }
        let mut digits = [0u8; 64];
        digits.copy_from_slice(text);
        Some(Digest { digits })
    }
}
