// Tests of names.
ghost use Rattle.std.specs.Prelude.{◌≡◌, ◌&&◌, nat_le, length};
ghost use Rattle.std.specs.List.{list_any};
ghost use Rattle.std.specs.Str.{is_utf8};
ghost use Rattle.cube_model.specs.Names.{is_control, begins_with_mark, is_name, is_level_name, is_measure_name};

/// Whether a byte below 0x20 or the byte 0x7F is among the bytes.
fn has_control(text: &[u8]) -> bool
    ensures { result ≡ list_any is_control text.now }
{
    text.iter().any(|byte| *byte < 32 || *byte == 127)
}

/// Whether the bytes begin with a byte order mark.
fn begins_with_mark(text: &[u8]) -> bool
    ensures { result ≡ begins_with_mark text.now }
{
    text.starts_with(b"\xEF\xBB\xBF")
}

/// Whether the bytes are 1 to 128.
fn has_room(text: &[u8]) -> bool
    ensures { result ≡ (nat_le 1 (length text.now) && nat_le (length text.now) 128) }
{
    1 <= text.len() && text.len() <= 128
}

/// Whether the bytes are UTF-8.
fn is_text(text: &[u8]) -> bool
    ensures { result ≡ is_utf8 text.now }
{
    std::str::from_utf8(text).is_ok()
}

/// Whether the text is a name: UTF-8 of 1 to 128 bytes without control bytes, which does not begin
/// with a byte order mark.
#[tactic(auto, unfolding(cube_model::specs::Names::is_name))]
pub fn is_name(text: &[u8]) -> bool
    ensures { result ≡ is_name text.now }
{
    is_text(text) && has_room(text) && !has_control(text) && !begins_with_mark(text)
}

/// Whether the text is the name of a level: a name other than `all`.
#[tactic(auto, unfolding(cube_model::specs::Names::is_level_name))]
pub fn is_level_name(text: &[u8]) -> bool
    ensures { result ≡ is_level_name text.now }
{
    is_name(text) && text != b"all".as_slice()
}

/// Whether the text is the name of a measure: a name other than `count`.
#[tactic(auto, unfolding(cube_model::specs::Names::is_measure_name))]
pub fn is_measure_name(text: &[u8]) -> bool
    ensures { result ≡ is_measure_name text.now }
{
    is_name(text) && text != b"count".as_slice()
}
