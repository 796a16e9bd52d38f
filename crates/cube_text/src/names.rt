// Names as they are written: bare or in quotes, and as fields of CSV.
ghost use Rattle.std.specs.Prelude.{◌≡◌, ◌≤◌, length, ◌++◌, ◌∷◌, [], IfOk, OnOk, false};
ghost use Rattle.std.specs.List.{list_all, list_any, flat_map};
ghost use Rattle.cube_model.specs.Names.{is_control as control_test};
ghost use Rattle.cube_text.specs.Quoting.{is_bare as bare_test, is_marked as marked_test, is_bare_name as bare_name_test, spelled, quoted, printed, is_quoted, inside, unquoted, closing, whole_name as whole_test, needs_quotes as quotes_test, doubled, field, NameTexts, NamesRead};

use cube_model::{NoMemory, Text};
use std::alloc::Global;

// A byte below 0x20, or 0x7F.
fn is_control(byte: u8) -> bool
    ensures { result ≡ control_test byte }
{
    byte < 0x20 || byte == 0x7f
}

/// Whether a byte may stand in a name without quotes: a letter or digit of ASCII, `_` or `-`.
#[tactic(auto, unfolding(crate::specs::Quoting::is_bare))]
pub fn is_bare(byte: u8) -> bool
    ensures { result ≡ bare_test byte }
{
    byte.is_ascii_uppercase()
        || byte.is_ascii_lowercase()
        || byte.is_ascii_digit()
        || byte == b'_'
        || byte == b'-'
}

// A byte that stands behind a backslash in quotes.
fn is_marked(byte: u8) -> bool
    ensures { result ≡ marked_test byte }
{
    byte == b'"' || byte == b'\\'
}

fn all_bare(text: &[u8]) -> bool
    ensures { result ≡ list_all bare_test text.now }
{
    text.iter().all(|byte| is_bare(*byte))
}

/// Whether a text is a name that needs no quotes.
pub fn is_bare_name(text: &[u8]) -> bool
    ensures { result ≡ bare_name_test text.now }
{
    !text.is_empty() && all_bare(text)
}

fn push_spelled(text: &mut Text, byte: u8) -> Result<(), NoMemory>
    ensures { OnOk result (text.new ≡ text.old ++ spelled byte) }
{
    if is_marked(byte) {
        text.push(b'\\')?;
    }
    text.push(byte)
}

/// Writes a name in quotes at the end, with a backslash before each quote and each backslash.
pub fn push_quoted(text: &mut Text, name: &[u8]) -> Result<(), NoMemory>
    ensures { OnOk result (text.new ≡ text.old ++ quoted name.now) }
{
    text.push(b'"')?;
    for byte in name {
        push_spelled(text, *byte)?;
    }
    text.push(b'"')
}

/// Writes a name at the end as queries and replies print it: bare where each of its bytes may stand bare, else in
/// quotes.
pub fn push_name(text: &mut Text, name: &[u8]) -> Result<(), NoMemory>
    ensures { OnOk result (text.new ≡ text.old ++ printed name.now) }
{
    if is_bare_name(name) {
        text.extend(name)
    } else {
        push_quoted(text, name)
    }
}

/// A name in quotes.
pub fn quote_name(alloc: Global, name: &Text) -> Result<Text, NoMemory>
    ensures { IfOk result (λ text. text ≡ quoted name.now) }
{
    let mut text = Text::new(alloc);
    push_quoted(&mut text, name.as_slice())?;
    Ok(text)
}

/// A name as queries and replies print it.
pub fn print_name(alloc: Global, name: &Text) -> Result<Text, NoMemory>
    ensures { IfOk result (λ text. text ≡ printed name.now) }
{
    let mut text = Text::new(alloc);
    push_name(&mut text, name.as_slice())?;
    Ok(text)
}

/// Reads behind an opening quote. Where the closing quote comes, gives the name and what stands behind it; else no
/// name, and what is left from the first byte on that cannot come next, or nothing where the text is over.
pub fn read_quoted(alloc: Global, text: &[u8]) -> Result<(Option<Text>, &[u8]), NoMemory>
    ensures name { IfOk result (λ read. read.0 ≡ (closing false [] text.now).0) }
    ensures rest { IfOk result (λ read. read.1.now ≡ (closing false [] text.now).1) }
    ensures within { IfOk result (λ read. length read.1.now ≤ length text.now) }
{
    let mut name = Text::new(alloc);
    let mut marked = false;
    for (at, byte) in text.iter().enumerate() {
        if marked {
            if !is_marked(*byte) {
                return Ok((None, &text[at..]));
            }
            name.push(*byte)?;
            marked = false;
        } else if *byte == b'"' {
            return Ok((Some(name), &text[at + 1..]));
        } else if *byte == b'\\' {
            marked = true;
        } else if is_control(*byte) {
            return Ok((None, &text[at..]));
        } else {
            name.push(*byte)?;
        }
    }
    Ok((None, &[]))
}

fn split_quote(text: &[u8]) -> (bool, &[u8])
    ensures quoted { result.0 ≡ is_quoted text.now }
    ensures inside { result.1.now ≡ inside text.now }
{
    match text {
        [b'"', rest @ ..] => (true, rest),
        _ => (false, text),
    }
}

// The name that was read, where nothing stands behind it.
fn whole_name(name: Option<Text>, rest: &[u8]) -> Option<Text>
    ensures { result ≡ whole_test (name, rest.now) }
{
    if rest.is_empty() { name } else { None }
}

/// The name that a text is, or none where it is no name of the query language.
#[tactic(auto, using(crate::proofs::Quotes::unquoted_inside, crate::proofs::Quotes::unquoted_bare, crate::proofs::Quotes::unquoted_none))]
pub fn unquote_name(alloc: Global, text: &[u8]) -> Result<Option<Text>, NoMemory>
    ensures { IfOk result (λ name. name ≡ unquoted text.now) }
{
    let (is_quoted, inside) = split_quote(text);
    if is_quoted {
        return match read_quoted(alloc, inside) {
            Ok((name, rest)) => Ok(whole_name(name, rest)),
            Err(NoMemory) => Err(NoMemory),
        };
    }
    if !is_bare_name(text) {
        return Ok(None);
    }
    Ok(Some(Text::from_bytes(alloc, text)?))
}

fn needs_quotes(name: &[u8]) -> bool
    ensures { result ≡ list_any quotes_test name.now }
{
    name.iter().any(|byte| *byte == b',' || *byte == b'"' || *byte == b'\r' || *byte == b'\n')
}

fn push_doubled(text: &mut Text, byte: u8) -> Result<(), NoMemory>
    ensures { OnOk result (text.new ≡ text.old ++ doubled byte) }
{
    if byte == b'"' {
        text.push(b'"')?;
    }
    text.push(byte)
}

// Writes a name between double quotes at the end, its own doubled.
fn push_between(text: &mut Text, name: &[u8]) -> Result<(), NoMemory>
    ensures { OnOk result (text.new ≡ text.old ++ (34 ∷ flat_map doubled name.now ++ 34 ∷ [])) }
{
    text.push(b'"')?;
    for byte in name {
        push_doubled(text, *byte)?;
    }
    text.push(b'"')
}

/// Writes a field of CSV at the end: in double quotes, its own doubled, exactly where it has a comma, a double quote,
/// CR or LF.
pub fn push_field(text: &mut Text, name: &[u8]) -> Result<(), NoMemory>
    ensures { OnOk result (text.new ≡ text.old ++ field name.now) }
{
    if needs_quotes(name) {
        push_between(text, name)
    } else {
        text.extend(name)
    }
}

/// A field of CSV.
pub fn quote_field(alloc: Global, name: &Text) -> Result<Text, NoMemory>
    ensures { IfOk result (λ text. text ≡ field name.now) }
{
    let mut text = Text::new(alloc);
    push_field(&mut text, name.as_slice())?;
    Ok(text)
}

/// A text is read as a name exactly where the grammar says so, and a name reads back from its texts.
pub fn names_read_back()
    ensures texts { NameTexts }
    ensures back { NamesRead }
{}
