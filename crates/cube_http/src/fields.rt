// The fields of a head.
ghost use Rattle.std.specs.Prelude.{◌≡◌, ◌<◌, ◌==◌, not, length, map, min, reverse, All, IsTrue, codes};
ghost use Rattle.std.specs.List.{list_all, list_any};
ghost use Rattle.std.specs.Char.{is_ascii_digit};
ghost use Rattle.std.specs.Str.Parse.{digits_value};
ghost use Rattle.httparse.specs.Grammar.{trim_ows};
ghost use Rattle.httparse.specs.Grammar as grammar;
ghost use Rattle.httparse.specs.Spans.{IsHeaderWithin, header_bytes};
ghost use Rattle.cube_http.specs.Checks as spec;
ghost use Rattle.cube_http.specs.Facts.{AreValues, States, Checks};

use cube_model::Fixed;
use httparse::spans::HeaderSpan;

// The values of the fields of a name.
#[derive(Clone, Copy)]
enum Found<'a> {
    // There is none.
    Absent,
    // There is this one.
    One(&'a [u8]),
    // There are more.
    Many,
}

// Whether a field has the name, without regard to case.
fn is_named(bytes: &[u8], header: &HeaderSpan, name: &[u8]) -> bool
    requires { IsHeaderWithin (length bytes.now) header.now }
    ensures { result ≡ spec.same_word (header_bytes bytes.now header.now).0 name.now }
{
    header.name.of(bytes).eq_ignore_ascii_case(name)
}

// The values of the fields of a name.
fn values<'a>(bytes: &'a [u8], headers: &[HeaderSpan], name: &[u8]) -> Found<'a>
    requires { All (IsHeaderWithin (length bytes.now)) headers.now }
    ensures { AreValues result (spec.named name.now (map (header_bytes bytes.now) headers.now)) }
{
    let mut found = Found::Absent;
    for header in headers {
        if is_named(bytes, header, name) {
            match found {
                Found::Absent => found = Found::One(header.value.of(bytes)),
                _ => return Found::Many,
            }
        }
    }
    found
}

// The most bytes of a body.
const MAX_BODY: usize = 65_536;

fn all_digits(text: &[u8]) -> bool
    ensures { result ≡ list_all is_ascii_digit text.now }
{
    text.iter().all(|byte| byte.is_ascii_digit())
}

fn is_number(text: &[u8]) -> bool
    ensures { result ≡ spec.is_number text.now }
{
    !text.is_empty() && all_digits(text)
}

// The number that digits write, or one more than the most bytes of a body where it is larger.
fn capped_value(digits: &[u8]) -> usize
    requires { IsTrue (list_all is_ascii_digit digits.now) }
    ensures { result ≡ min 65537 (digits_value 10 digits.now) }
{
    let mut value = 0;
    for digit in digits {
        value = (value * 10 + usize::from(*digit - b'0')).min(MAX_BODY + 1);
    }
    value
}

// What is stated of the length of the body.
#[derive(Clone, Copy)]
enum Length {
    // Nothing.
    Unstated,
    // So many bytes, or one more than the most where they are more.
    Bytes(usize),
    // More than one length, or one that is no number.
    Bad,
}

// What is stated of the length of the body.
fn stated_length(bytes: &[u8], headers: &[HeaderSpan]) -> Length
    requires { All (IsHeaderWithin (length bytes.now)) headers.now }
    ensures { States (spec.named (codes "content-length") (map (header_bytes bytes.now) headers.now)) result }
{
    match values(bytes, headers, b"content-length") {
        Found::Absent => Length::Unstated,
        Found::One(text) if is_number(text) => Length::Bytes(capped_value(text)),
        _ => Length::Bad,
    }
}

// Whether the hosts of a head of HTTP/1.minor are not one.
fn is_hostless(bytes: &[u8], headers: &[HeaderSpan], minor: u8) -> bool
    requires { All (IsHeaderWithin (length bytes.now)) headers.now }
    ensures { result ≡ spec.is_hostless minor (spec.named (codes "host") (map (header_bytes bytes.now) headers.now)) }
{
    match values(bytes, headers, b"host") {
        Found::Absent => minor == 1,
        Found::One(_) => false,
        Found::Many => true,
    }
}

// Whether there is a transfer coding.
fn is_coded(bytes: &[u8], headers: &[HeaderSpan]) -> bool
    requires { All (IsHeaderWithin (length bytes.now)) headers.now }
    ensures { result ≡ not (length (spec.named (codes "transfer-encoding") (map (header_bytes bytes.now) headers.now)) == 0) }
{
    match values(bytes, headers, b"transfer-encoding") {
        Found::Absent => false,
        _ => true,
    }
}

/// Checks the fields of a head of HTTP/1.minor, and tells the length of the body.
pub fn check(bytes: &[u8], headers: &[HeaderSpan], minor: u8, post: bool) -> Result<usize, Fixed>
    requires { All (IsHeaderWithin (length bytes.now)) headers.now }
    ensures { Checks minor post (map (header_bytes bytes.now) headers.now) result }
{
    if is_hostless(bytes, headers, minor) {
        return Err(Fixed::BadHead);
    }
    if is_coded(bytes, headers) {
        return Err(Fixed::LengthRequired);
    }
    match stated_length(bytes, headers) {
        Length::Bad => Err(Fixed::BadHead),
        Length::Bytes(length) if length > MAX_BODY => Err(Fixed::TooLarge),
        Length::Bytes(length) => Ok(length),
        Length::Unstated if post => Err(Fixed::LengthRequired),
        Length::Unstated => Ok(0),
    }
}

// Whether the fields ask for leave to send the body.
fn expects_continue(bytes: &[u8], headers: &[HeaderSpan]) -> bool
    requires { All (IsHeaderWithin (length bytes.now)) headers.now }
    ensures { result ≡ spec.is_only (codes "100-continue") (spec.named (codes "expect") (map (header_bytes bytes.now) headers.now)) }
{
    match values(bytes, headers, b"expect") {
        Found::One(value) => value.eq_ignore_ascii_case(b"100-continue"),
        _ => false,
    }
}

/// Whether the client of HTTP/1.minor waits for leave to send a body of that length.
pub fn is_waiting(bytes: &[u8], headers: &[HeaderSpan], minor: u8, size: usize) -> bool
    requires headers { All (IsHeaderWithin (length bytes.now)) headers.now }
    requires stated { size ≡ spec.stated_len (map (header_bytes bytes.now) headers.now) }
    ensures { result ≡ spec.is_waiting minor (map (header_bytes bytes.now) headers.now) }
{
    minor == 1 && size > 0 && expects_continue(bytes, headers)
}

// The bytes from the first that is no space and no tab.
fn skip_blanks(mut text: &[u8]) -> &[u8]
    ensures { result.now ≡ grammar.skip_ows text.now }
{
    while let [b' ' | b'\t', rest @ ..] = text {
        text = rest;
    }
    text
}

// The bytes up to the last that is no space and no tab.
fn drop_blanks(mut text: &[u8]) -> &[u8]
    ensures { result.now ≡ reverse (grammar.skip_ows (reverse text.now)) }
{
    while let [rest @ .., b' ' | b'\t'] = text {
        text = rest;
    }
    text
}

#[tactic(auto, unfolding(httparse::specs::Grammar::trim_ows))]
fn trim(text: &[u8]) -> &[u8]
    ensures { result.now ≡ trim_ows text.now }
{
    drop_blanks(skip_blanks(text))
}

fn is_word(part: &[u8], word: &[u8]) -> bool
    ensures { result ≡ spec.same_word (trim_ows part.now) word.now }
{
    trim(part).eq_ignore_ascii_case(word)
}

fn has_close(value: &[u8]) -> bool
    ensures { result ≡ spec.has_word (codes "close") value.now }
{
    value
        .split(|byte| *byte == b',')
        .any(|part| is_word(part, b"close"))
}

// Whether a field asks for the connection to be closed.
fn asks_close(bytes: &[u8], headers: &[HeaderSpan]) -> bool
    requires { All (IsHeaderWithin (length bytes.now)) headers.now }
    ensures { result ≡ list_any (spec.has_word (codes "close")) (spec.named (codes "connection") (map (header_bytes bytes.now) headers.now)) }
{
    for header in headers {
        if is_named(bytes, header, b"connection") && has_close(header.value.of(bytes)) {
            return true;
        }
    }
    false
}

/// Whether the reply to a request of HTTP/1.minor closes the connection.
pub fn is_closing(bytes: &[u8], headers: &[HeaderSpan], minor: u8) -> bool
    requires { All (IsHeaderWithin (length bytes.now)) headers.now }
    ensures { result ≡ spec.is_closing minor (map (header_bytes bytes.now) headers.now) }
{
    minor == 0 || asks_close(bytes, headers)
}
