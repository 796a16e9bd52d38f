// Keys in lexicographic order, and where one stands among them.
ghost use Rattle.std.specs.Prelude.{◌≡◌};
ghost use Rattle.cube_model.specs.Cubes.{before, same, place_of, IsIncreasing};

use cube_model::Key;

/// Whether a key comes strictly before another in lexicographic order.
fn is_before(key: &[u32], other: &[u32]) -> bool
    ensures { result ≡ before key.now other.now }
{
    'members: for number in 0..key.len() {
        if number == other.len() {
            return false;
        }
        if key[number] != other[number] {
            return key[number] < other[number];
        }
    }
    key.len() < other.len()
}

/// Whether two keys are equal.
fn is_same(key: &[u32], other: &[u32]) -> bool
    ensures { result ≡ same key.now other.now }
{
    key == other
}

/// The place of a key among keys in order, or how many there are where it does not stand there. Takes a binary search.
pub(crate) fn place_in(keys: &[Key], key: &[u32]) -> usize
    requires { IsIncreasing keys.now }
    ensures { result ≡ place_of key.now keys.now }
{
    let place = keys.partition_point(|other| is_before(other.as_slice(), key));
    if place < keys.len() && is_same(keys[place].as_slice(), key) {
        place
    } else {
        keys.len()
    }
}
