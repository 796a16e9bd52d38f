// The pairs of a form's text.
ghost use Rattle.std.specs.Prelude.{◌≡◌, IfOk, option_map, string_bytes};
ghost use Rattle.cube_http.specs.Form.{decoded, first_named};

use cube_model::NoMemory;
use std::alloc::Global;

// The text that an encoded name or value stands for.
fn decode(alloc: Global, raw: &[u8]) -> Result<String, NoMemory>
    ensures { IfOk result (λ text. string_bytes text ≡ decoded raw.now) }
{
    Ok(form_urlencoded::decode(alloc, raw)?.into_owned(alloc)?)
}

/// The value of the first pair of that name.
pub fn find_value(alloc: Global, name: &str, text: &[u8]) -> Result<Option<String>, NoMemory>
    ensures { IfOk result (λ o. option_map string_bytes o ≡ first_named name.now text.now) }
{
    for (key, value) in form_urlencoded::raw_pairs(text) {
        let key = decode(alloc, key)?;
        if key.as_str() == name {
            return Ok(Some(decode(alloc, value)?));
        }
    }
    Ok(None)
}
