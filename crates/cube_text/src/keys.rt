// The first fields of lines of CSV: levels of dimensions, or the members of a key at these levels.
ghost use Rattle.std.specs.Prelude.{◌≡◌, ◌<◌, ◌++◌, length, flat_map, OnOk};
ghost use Rattle.cube_text.specs.Quoting.{field};
ghost use Rattle.cube_text.specs.Keys.{closed, level_head, heads, key_names, KeyFits};

use crate::push_field;
use cube_model::{Dimension, Dims, NoMemory, Text};
use std::alloc::Global;

/// Puts a level of a dimension as a field.
pub fn push_head(
    alloc: Global,
    text: &mut Text,
    dimension: &Dimension,
    level: u32,
) -> Result<(), NoMemory>
    requires { level < length dimension.now.levels }
    ensures { OnOk result (text.new ≡ text.old ++ field (level_head dimension.now level)) }
{
    let mut head = Text::from_bytes(alloc, dimension.name())?;
    head.push(b'.')?;
    head.extend(dimension.levels()[level as usize].as_slice())?;
    push_field(text, head.as_slice())
}

/// Puts the levels that are not `all`, each with a comma behind it.
pub fn push_heads(
    alloc: Global,
    text: &mut Text,
    dims: &Dims,
    levels: &[u32],
) -> Result<(), NoMemory>
    requires { length levels.now ≡ length dims.now.dimensions }
    ensures { OnOk result (text.new ≡ text.old ++ flat_map closed (heads dims.now.dimensions levels.now)) }
{
    for (d, dimension) in dims.dimensions().iter().enumerate() {
        if (levels[d] as usize) < dimension.levels().len() {
            push_head(alloc, text, dimension, levels[d])?;
            text.push(b',')?;
        }
    }
    Ok(())
}

/// Puts the names of the members of a key at these levels, each with a comma behind it.
pub fn push_key(text: &mut Text, dims: &Dims, levels: &[u32], key: &[u32]) -> Result<(), NoMemory>
    requires levels { length levels.now ≡ length dims.now.dimensions }
    requires key { length key.now ≡ length dims.now.dimensions }
    requires there { KeyFits dims.now levels.now key.now }
    ensures { OnOk result (text.new ≡ text.old ++ flat_map closed (key_names dims.now.dimensions levels.now key.now)) }
{
    for (d, dimension) in dims.dimensions().iter().enumerate() {
        if (levels[d] as usize) < dimension.levels().len() {
            let members = dimension.members(levels[d] as usize);
            push_field(text, members.name(key[d] as usize))?;
            text.push(b',')?;
        }
    }
    Ok(())
}
