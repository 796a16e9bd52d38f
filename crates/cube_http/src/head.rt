// The head of a request.
ghost use Rattle.std.specs.Prelude.{◌≡◌, MatchOption, IfSome, length, None, false};
ghost use Rattle.httparse.specs.Spans.{IsRequestWithin};
ghost use Rattle.cube_http.specs.Head.{at_end, head_of, HasNoHead, SpansHead, SpansSome};
ghost use Rattle.cube_http.specs.Facts as spec;
ghost use Rattle.cube_http.specs.Methods as methods;
ghost use Rattle.httparse.specs.Grammar.{RequestHead};
ghost use Rattle.httparse.specs.Spans.{IsHeaderWithin, IsWithin};
ghost use Rattle.std.specs.Prelude.{All, Some};

use crate::fields::{check, is_closing, is_waiting};
use cube_model::Fixed;
use http::Method;
use httparse::Status;
use httparse::spans::{EMPTY_HEADER_SPAN, HeaderSpan, RequestSpans, Span, parse_request};

/// The kinds of methods.
#[derive(Clone, Copy, Debug, PartialEq, Eq)]
pub enum MethodKind {
    /// GET
    Get,
    /// HEAD
    Head,
    /// POST
    Post,
    /// Any other method.
    Other,
}

/// What is kept of a head that was read.
#[derive(Clone, Copy)]
pub struct HeadFacts {
    /// The kind of its method.
    pub method: MethodKind,
    /// Where its target stands.
    pub target: Span,
    /// The length of the body.
    pub length: usize,
    /// Whether the client waits for leave to send the body.
    pub waits: bool,
    /// Whether the reply closes the connection.
    pub closes: bool,
}

pub fn is_post(method: MethodKind) -> bool
    ensures { result ≡ methods.is_post method }
{
    match method {
        MethodKind::Post => true,
        _ => false,
    }
}

// Where the parts of the head are, if the bytes are exactly a head of at most 64 fields.
fn find_head(bytes: &[u8], headers: &mut [HeaderSpan]) -> Option<RequestSpans>
    requires { length headers.old ≡ 64 }
    ensures head { MatchOption result (HasNoHead bytes.now) (SpansHead bytes.now headers.new) }
    ensures within { IfSome result (IsRequestWithin bytes.now headers.new) }
{
    match parse_request(bytes, headers) {
        Ok(Status::Complete(head)) => {
            if head.len == bytes.len() {
                Some(head)
            } else {
                None
            }
        }
        _ => None,
    }
}

// The same, by the function that reads a head.
fn read_head(bytes: &[u8], headers: &mut [HeaderSpan]) -> Option<RequestSpans>
    requires capacity { length headers.old ≡ 64 }
    requires starts { at_end bytes.now ≡ false }
    ensures value { MatchOption result (head_of bytes.now ≡ None) (SpansSome bytes.now headers.new (head_of bytes.now)) }
    ensures within { IfSome result (IsRequestWithin bytes.now headers.new) }
{
    find_head(bytes, headers)
}

fn method_kind(method: &[u8]) -> MethodKind
    ensures { result ≡ methods.kind_of method.now }
{
    if method == Method::GET.as_str().as_bytes() {
        MethodKind::Get
    } else if method == Method::HEAD.as_str().as_bytes() {
        MethodKind::Head
    } else if method == Method::POST.as_str().as_bytes() {
        MethodKind::Post
    } else {
        MethodKind::Other
    }
}

// Judges a head by its parts.
fn judge_parts(
    bytes: &[u8],
    headers: &[HeaderSpan],
    spans: RequestSpans,
) -> Result<HeadFacts, Fixed>
    requires headers { All (IsHeaderWithin (length bytes.now)) headers.now }
    requires method { IsWithin (length bytes.now) spans.method }
    requires target { IsWithin (length bytes.now) spans.path }
    ensures { (h : RequestHead) → spec.AreParts bytes.now headers.now spans h → spec.Judges bytes.now (Some h) result }
{
    let method = method_kind(spans.method.of(bytes));
    match check(bytes, headers, spans.version, is_post(method)) {
        Err(fixed) => Err(fixed),
        Ok(length) => Ok(HeadFacts {
            method,
            target: spans.path,
            length,
            waits: is_waiting(bytes, headers, spans.version, length),
            closes: is_closing(bytes, headers, spans.version),
        }),
    }
}

/// Judges the bytes of a head: they are none, or a check refuses them, or they tell what is kept.
pub fn judge(bytes: &[u8]) -> Result<HeadFacts, Fixed>
    requires { at_end bytes.now ≡ false }
    ensures { spec.Judges bytes.now (head_of bytes.now) result }
{
    let mut headers = [EMPTY_HEADER_SPAN; 64];
    match read_head(bytes, &mut headers) {
        None => Err(Fixed::BadHead),
        Some(spans) => judge_parts(bytes, &headers[..spans.headers], spans),
    }
}
