// Whether constant columns stand by themselves in dimensions that were read.
ghost use Rattle.std.specs.Prelude.{◌≡◌, ◌<◌, ◌≤◌, ◌-◌, ◌||◌, [], true, not, slice_index_or};
ghost use Rattle.cube_draft.specs.Drafts.{is_gap as is_gap_of, is_under as is_under_in, name_in as name_at_level, is_varied as is_varied_in, is_plainly_above as is_plainly_above_in, StandsApart, AreApart};

use crate::choices::Choices;
use cube_model::{Dimension, Dims, Text, Texts};

// Whether a byte may stand behind the name of a level above.
fn is_gap(byte: u8) -> bool
    ensures { result ≡ is_gap_of byte }
{
    byte == b'-' || byte == b' ' || byte == b'.' || byte == b'/'
}

/// Whether a name begins with another one, and a gap stands behind that, as `2026-01` with `2026`.
pub(crate) fn is_under(name: &[u8], field: &[u8]) -> bool
    ensures { result ≡ is_under_in name.now field.now }
{
    match field.get(name.len()) {
        Some(gap) => is_gap(*gap) && name == &field[..name.len()],
        None => false,
    }
}

// The name of a path at a level, or no bytes where there is none.
fn name_in(path: &[Text], level: usize) -> &[u8]
    ensures { result.now ≡ name_at_level level path.now }
{
    match path.get(level) {
        Some(name) => name.as_slice(),
        None => &[],
    }
}

// The name of the first path at a level.
fn first_name(paths: &[Texts], level: usize) -> &[u8]
    ensures { result.now ≡ name_at_level level (slice_index_or paths.now 0 []) }
{
    match paths {
        [path, ..] => name_in(path.as_slice(), level),
        [] => &[],
    }
}

// Whether a level has two members or more.
fn is_varied(paths: &[Texts], level: usize) -> bool
    ensures { result ≡ is_varied_in paths.now level }
{
    let first = first_name(paths, level);
    paths
        .iter()
        .any(|path| first != name_in(path.as_slice(), level))
}

// Whether a path has below a level a name that begins with the one at it.
fn goes_up(path: &[Text], level: usize) -> bool
    requires { 0 < level }
    ensures { result ≡ is_under_in (name_at_level level path.now) (name_at_level (level - 1) path.now) }
{
    is_under(name_in(path, level), name_in(path, level - 1))
}

// Whether the names of the level below begin with those of a level.
fn is_plainly_above(paths: &[Texts], level: usize) -> bool
    requires { 0 < level }
    ensures { result ≡ is_plainly_above_in paths.now level }
{
    paths.iter().all(|path| goes_up(path.as_slice(), level))
}

// Whether each level above the finest has two members or more, or is plainly above.
fn stands_apart(dimension: &Dimension) -> bool
    ensures { result ≡ true → StandsApart dimension.now }
{
    let paths = dimension.paths();
    for level in 1..dimension.levels().len() {
        if !is_varied(paths, level) && !is_plainly_above(paths, level) {
            return false;
        }
    }
    true
}

/// Whether no dimension behind the stated ones has a constant level above that is not plainly one.
pub(crate) fn are_apart(choices: &Choices, dims: &Dims) -> bool
    ensures { result ≡ true → AreApart choices.now dims.now }
{
    let dimensions = dims.dimensions();
    for number in choices.dimensions.len()..dimensions.len() {
        if !stands_apart(&dimensions[number]) {
            return false;
        }
    }
    true
}
