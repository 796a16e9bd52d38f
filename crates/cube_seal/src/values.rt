// The values of a core as bytes, and their digest.
ghost use Rattle.std.specs.Prelude.{◌≡◌, ◌<◌, ◌≤◌, ◌∷◌, ◌++◌, ℕ, List, [], true, length, slice_index_or};
ghost use Rattle.std.specs.List.{flat_map};
ghost use Rattle.hex.specs.Hex.{encode_lower};
ghost use Rattle.sha2.specs.Hashers.{Holds256};
ghost use Rattle.sha2.specs.Sha256.{sha256};
ghost use Rattle.cube_model.specs.Dims.{measure_at};
ghost use Rattle.cube_seal.specs.Values.{value_bytes, measure_bytes, values_of, digest_of_values as digest_in};

use cube_core::{Core, Steps};
use cube_journal::Digest;
use sha2::{Digest as Hash, Sha256};
use std::marker::Brand;
use std::sync::ledger::{Blank, Ledger};

/// Feeds a value in eight bytes.
fn feed_value(hasher: &mut Sha256, value: i64)
    ensures { (m : List ℕ) → Holds256 hasher.old m → Holds256 hasher.new (m ++ value_bytes value) }
{
    hasher.update(value.to_be_bytes().as_slice());
}

/// Feeds a number of decimals in one byte.
fn feed_decimals(hasher: &mut Sha256, decimals: u32)
    requires { decimals ≤ 6 }
    ensures { (m : List ℕ) → Holds256 hasher.old m → Holds256 hasher.new (m ++ decimals ∷ []) }
{
    hasher.update([decimals as u8].as_slice());
}

/// Feeds the values of a measure, place by place.
fn feed_values<L: Ledger>(hasher: &mut Sha256, core: &Core, measure: u32, steps: &mut Steps<L>)
    requires { measure < length core.now.dims.measures }
    ensures { (m : List ℕ) → Holds256 hasher.old m → Holds256 hasher.new (m ++ flat_map value_bytes (slice_index_or core.now.cube measure [])) }
{
    'places: for place in 0..core.len() {
        feed_value(hasher, core.value(place, measure, steps));
    }
}

/// Feeds a measure: its decimals, and then its values.
fn feed_measure<L: Ledger>(hasher: &mut Sha256, core: &Core, measure: u32, steps: &mut Steps<L>)
    requires { measure < length core.now.dims.measures }
    ensures { (m : List ℕ) → Holds256 hasher.old m → Holds256 hasher.new (m ++ measure_bytes (measure_at core.now.dims measure, slice_index_or core.now.cube measure [])) }
{
    feed_decimals(hasher, core.dims().measure(measure).decimals());
    feed_values(hasher, core, measure, steps);
}

/// The SHA-256 of the values of a core, with a count of reads that is dropped.
fn hash_values<L: Ledger>(core: &Core, blank: Blank) -> [u8; 32]
    requires name { blank.name ≡ L.name }
    requires parts { blank.parts ≡ L.parts }
    requires some { 0 < L.parts }
    ensures { result ≡ sha256 (values_of core.now) }
{
    let mut steps = Steps::<L>::new(blank);
    let mut hasher = Sha256::new();
    let many = core.dims().measures().len() as u32;
    'measures: for measure in 0..many {
        feed_measure(&mut hasher, core, measure, &mut steps);
    }
    hasher.finalize()
}

/// The digits of 32 bytes.
fn digits_of(bytes: &[u8; 32]) -> [u8; 64]
    ensures { result ≡ encode_lower bytes.now }
{
    let mut out = [0u8; 64];
    let _ = hex::encode_to_slice(bytes.as_slice(), &mut out);
    out
}

/// The digest of the values of a core, by which its journal is sealed. Takes no memory, and reads each value once.
pub fn digest_of_values(core: &Core) -> Digest
    ensures { result ≡ digest_in core.now }
{
    let _rules = core.dims();
    let digits = digits_of(&hash_values::<Brand>(core, Blank::new(1)));
    match Digest::from_digits(digits.as_slice()) {
        Some(digest) => digest,
        None => unreachable!(),
    }
}
