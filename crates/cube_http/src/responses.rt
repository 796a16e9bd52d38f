// The bytes of a response.
ghost use Rattle.std.specs.Prelude.{◌≡◌, ◌+◌, ◌≤◌, ◌++◌, ◌∷◌, [], length, take, IsTrue, Some};
ghost use Rattle.cube_http.specs.Responses as spec;

use cube_model::{Fixed, Kind, Reply};
use http::StatusCode;
use itoa::Buffer;

// The body of a constant reply.
fn fixed_body(fixed: Fixed) -> &'static [u8]
    ensures { result.now ≡ spec.fixed_line fixed ++ 10 ∷ [] }
{
    match fixed {
        Fixed::BadHead => b"bad request\n",
        Fixed::NoQuery => b"no parameter q\n",
        Fixed::NoPath => b"not found\n",
        Fixed::MethodForm | Fixed::MethodGet => b"method not allowed\n",
        Fixed::LengthRequired => b"length required\n",
        Fixed::TooLarge => b"too large\n",
        Fixed::HeadTooLarge => b"head too large\n",
        Fixed::JournalFault => b"journal fault\n",
        Fixed::NoMemory => b"no memory\n",
        Fixed::Busy => b"too many connections\n",
    }
}

/// The body of a reply.
pub fn body_of(reply: &Reply) -> &[u8]
    ensures { result.now ≡ spec.body_of reply.now }
{
    match reply {
        Reply::Made { body, .. } => body.as_slice(),
        Reply::Fixed(fixed) => fixed_body(*fixed),
    }
}

// The status of a constant reply.
fn fixed_status(fixed: Fixed) -> StatusCode
    ensures { result ≡ spec.fixed_status fixed }
{
    match fixed {
        Fixed::BadHead | Fixed::NoQuery => StatusCode::BAD_REQUEST,
        Fixed::NoPath => StatusCode::NOT_FOUND,
        Fixed::MethodForm | Fixed::MethodGet => StatusCode::METHOD_NOT_ALLOWED,
        Fixed::LengthRequired => StatusCode::LENGTH_REQUIRED,
        Fixed::TooLarge => StatusCode::PAYLOAD_TOO_LARGE,
        Fixed::HeadTooLarge => StatusCode::REQUEST_HEADER_FIELDS_TOO_LARGE,
        Fixed::JournalFault | Fixed::Busy => StatusCode::SERVICE_UNAVAILABLE,
        Fixed::NoMemory => StatusCode::INTERNAL_SERVER_ERROR,
    }
}

fn kind_of(reply: &Reply) -> Kind
    ensures { result ≡ spec.kind_of reply.now }
{
    match reply {
        Reply::Made { kind, .. } => *kind,
        Reply::Fixed(_) => Kind::Plain,
    }
}

fn type_text(kind: Kind) -> &'static [u8]
    ensures text { result.now ≡ spec.type_text kind }
    ensures short { length result.now ≤ 25 }
{
    match kind {
        Kind::Csv => b"text/csv; charset=utf-8",
        Kind::Json => b"application/json",
        Kind::Plain => b"text/plain; charset=utf-8",
    }
}

// The methods that a path allows, where the reply is that it allows no other.
fn allow_field(reply: &Reply) -> &'static [u8]
    ensures text { result.now ≡ spec.allow_field reply.now }
    ensures short { length result.now ≤ 24 }
{
    match reply {
        Reply::Fixed(Fixed::MethodForm) => b"Allow: GET, HEAD, POST\r\n",
        Reply::Fixed(Fixed::MethodGet) => b"Allow: GET, HEAD\r\n",
        _ => b"",
    }
}

fn close_field(close: bool) -> &'static [u8]
    ensures text { result.now ≡ spec.close_field close }
    ensures short { length result.now ≤ 19 }
{
    if close { b"Connection: close\r\n" } else { b"" }
}

// Writes a text behind what was written. Tells how much is written then.
fn put(buf: &mut [u8], at: usize, text: &[u8]) -> usize
    requires { at + length text.now ≤ length buf.old }
    ensures end { result ≡ at + length text.now }
    ensures written { take result buf.new ≡ take at buf.old ++ text.now }
    ensures capacity { length buf.new ≡ length buf.old }
{
    let end = at + text.len();
    buf[at..end].copy_from_slice(text);
    end
}

// The phrase of a status.
#[tactic(auto, using(crate::proofs::Phrases::phrased))]
fn phrase(status: u16) -> &'static [u8]
    requires { IsTrue (spec.has_phrase status) }
    ensures text { result.now ≡ spec.phrase status }
    ensures short { length result.now ≤ 31 }
{
    match StatusCode::from_u16(status) {
        Ok(code) => match code.canonical_reason() {
            Some(text) => text.as_bytes(),
            None => unreachable!(),
        },
        Err(_) => unreachable!(),
    }
}

/// The status of a reply.
pub fn status_of(reply: &Reply) -> u16
    ensures { result ≡ spec.status_of reply.now }
{
    match reply {
        Reply::Made { status, .. } => *status,
        Reply::Fixed(fixed) => fixed_status(*fixed).as_u16(),
    }
}

// Writes the line of a status.
fn put_status_line(buf: &mut [u8], status: u16) -> usize
    requires phrase { IsTrue (spec.has_phrase status) }
    requires capacity { 48 ≤ length buf.old }
    ensures written { take result buf.new ≡ spec.status_line status }
    ensures short { result ≤ 48 }
    ensures capacity { length buf.new ≡ length buf.old }
{
    let mut number = Buffer::new();
    let at = put(buf, 0, b"HTTP/1.1 ");
    let at = put(buf, at, number.format(status).as_bytes());
    let at = put(buf, at, b" ");
    let at = put(buf, at, phrase(status));
    put(buf, at, b"\r\n")
}

// Writes a line `name: value` behind what was written.
fn put_field(buf: &mut [u8], at: usize, name: &[u8], value: &[u8]) -> usize
    requires { at + length name.now + length value.now + 4 ≤ length buf.old }
    ensures end { result ≡ at + length name.now + length value.now + 4 }
    ensures written { take result buf.new ≡ take at buf.old ++ spec.field name.now value.now }
    ensures capacity { length buf.new ≡ length buf.old }
{
    let at = put(buf, at, name);
    let at = put(buf, at, b": ");
    let at = put(buf, at, value);
    put(buf, at, b"\r\n")
}

/// Writes the head of a response, behind which the connection closes or not. Tells how many bytes
/// it has; no head has more than 256.
pub fn write_head(reply: &Reply, close: bool, buf: &mut [u8]) -> usize
    requires phrase { IsTrue (spec.has_phrase (spec.status_of reply.now)) }
    requires capacity { 256 ≤ length buf.old }
    ensures written { take result buf.new ≡ spec.head_bytes reply.now close }
    ensures short { result ≤ 256 }
{
    let mut number = Buffer::new();
    let length = number.format(body_of(reply).len()).as_bytes();
    let at = put_status_line(buf, status_of(reply));
    let at = put_field(buf, at, b"Content-Type", type_text(kind_of(reply)));
    let at = put_field(buf, at, b"Content-Length", length);
    let at = put(buf, at, allow_field(reply));
    let at = put(buf, at, close_field(close));
    put(buf, at, b"\r\n")
}
