// Whether texts are equal to others.
ghost use Rattle.std.specs.Prelude.{◌≡◌};
ghost use Rattle.std.specs.Str.{bytes_eq};
ghost use Rattle.cube_carry.specs.Continues as continues;

use cube_model::Text;

/// Whether a text is equal to another.
fn is_same(text: &[u8], other: &[u8]) -> bool
    ensures { result ≡ bytes_eq text.now other.now }
{
    text == other
}

/// Whether texts are equal to others, one by one.
pub(crate) fn same_texts(texts: &[Text], others: &[Text]) -> bool
    ensures { result ≡ continues.same_texts texts.now others.now }
{
    if texts.len() != others.len() {
        return false;
    }
    'texts: for number in 0..texts.len() {
        if !is_same(texts[number].as_slice(), others[number].as_slice()) {
            return false;
        }
    }
    true
}
