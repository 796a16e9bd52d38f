// Short names as numbers, which are compared at once, where names would be compared byte by byte.
ghost use Rattle.std.specs.Prelude.{◌≡◌, ◌<◌, ◌≤◌, length, IfOk};
ghost use Rattle.cube_facts.specs.Tags.{tag_of, AreBytes, HasTags, HaveTags};

use cube_model::{Dimension, Dims, Items, NoMemory};
use std::alloc::Global;

// The most bytes of a short name.
const MAX_SHORT: usize = 7;

/// The tag of a short name, and 0 for a longer one.
pub(crate) fn tag_of(name: &[u8]) -> u64
    ensures is { result ≡ tag_of name.now }
    ensures bytes { AreBytes name.now }
{
    if name.len() > MAX_SHORT {
        return 0;
    }
    let mut tag = 0u64;
    for behind in 0..name.len() {
        tag = tag * 256 + u64::from(name[name.len() - 1 - behind]) + 1;
    }
    tag
}

/// The tags of the leaves of a dimension.
pub(crate) fn leaf_tags(alloc: Global, dimension: &Dimension) -> Result<Items<u64>, NoMemory>
    ensures { IfOk result (λ tags. HasTags dimension.now tags) }
{
    let levels = dimension.levels();
    prove!(!levels.is_empty());
    let names = dimension.members(0);
    let mut tags = Items::new(alloc);
    for leaf in 0..names.count() {
        tags.push(tag_of(names.name(leaf)))?;
    }
    Ok(tags)
}

/// The tags of the leaves of all dimensions.
pub(crate) fn all_tags(alloc: Global, dims: &Dims) -> Result<Items<Items<u64>>, NoMemory>
    ensures { IfOk result (λ tags. HaveTags dims.now tags) }
{
    let mut tags = Items::new(alloc);
    for dimension in dims.dimensions() {
        tags.push(leaf_tags(alloc, dimension)?)?;
    }
    Ok(tags)
}
