// Tests of names.
ghost use Rattle.std.specs.Prelude.{◌≡◌};
ghost use Rattle.std.specs.List.{list_all};
ghost use Rattle.cube_model.specs.Names as spec;

/// Whether each byte may stand in the name of a group.
fn are_name_bytes(name: &[u8]) -> bool
    ensures { result ≡ list_all spec.is_name_byte name.now }
{
    name.iter().all(|byte| byte.is_ascii_alphanumeric() || *byte == b'_' || *byte == b'-')
}

/// Whether the text is the name of a group: 1 to 32 ASCII letters, digits, `_` or `-`.
pub fn is_group_name(name: &[u8]) -> bool
    ensures { result ≡ spec.is_group_name name.now }
{
    !name.is_empty() && name.len() <= 32 && are_name_bytes(name)
}
