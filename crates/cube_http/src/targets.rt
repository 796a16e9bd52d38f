// What a request asks for.
ghost use Rattle.std.specs.Prelude.{◌≡◌, IfOk, option_map, position, codes, if◌then◌else◌};
ghost use Rattle.std.specs.List.{before_first, after_first};
ghost use Rattle.cube_http.specs.Targets as spec;
ghost use Rattle.cube_http.specs.Methods as methods;
ghost use Rattle.cube_http.specs.Form.{first_named};
ghost use Rattle.cube_http.specs.Ways.{way_view, by_way};
ghost use Rattle.cube_model.specs.declared.ask.Question.TheVariants as question;
ghost use Rattle.cube_http.specs.declared.targets.Wanted.TheVariants as wanted;

use crate::form::find_value;
use crate::head::{MethodKind, is_post};
use cube_model::{Ask, Fixed, NoMemory, Question, Text, is_group_name};
use std::alloc::Global;

/// What a path leads to.
#[derive(Clone, Copy, Debug, PartialEq, Eq)]
pub enum Route {
    /// `/v1/query`
    Query,
    /// `/v1/witness`
    Witness,
    /// `/v1/shape`
    Shape,
}

/// What a request asks for, or the constant reply to it.
#[derive(Debug, Drop)]
pub enum Wanted {
    /// What it asks of the server.
    Asked(Ask),
    /// Its reply, where it asks for nothing that there is.
    Constant(Fixed),
}

// A path's way: to a group or to the server's own cube, and by which route.
#[derive(Clone, Copy)]
struct Way<'a> {
    group: Option<&'a [u8]>,
    route: Route,
}

fn find_slash(text: &[u8]) -> Option<usize>
    ensures { result ≡ position spec.is_slash text.now }
{
    text.iter().position(|byte| *byte == b'/')
}

fn find_question(text: &[u8]) -> Option<usize>
    ensures { result ≡ position spec.is_question text.now }
{
    text.iter().position(|byte| *byte == b'?')
}

fn find_end(host: &[u8]) -> Option<usize>
    ensures { result ≡ position spec.ends_host host.now }
{
    host.iter().position(|byte| *byte == b'/' || *byte == b'?')
}

// What stands before the first slash, and from there on.
fn split_slash(text: &[u8]) -> (&[u8], &[u8])
    ensures front { result.0.now ≡ before_first spec.is_slash text.now }
    ensures rest { result.1.now ≡ spec.from_slash text.now }
{
    match find_slash(text) {
        Some(at) => text.split_at(at),
        None => (text, &[]),
    }
}

// What stands before the first question mark, and behind it.
fn split_question(text: &[u8]) -> (&[u8], &[u8])
    ensures front { result.0.now ≡ before_first spec.is_question text.now }
    ensures rest { result.1.now ≡ after_first spec.is_question text.now }
{
    match find_question(text) {
        Some(at) => (&text[..at], &text[at + 1..]),
        None => (text, &[]),
    }
}

// What stands behind a host: from the first slash or question mark on.
fn behind_host(text: &[u8]) -> &[u8]
    ensures { result.now ≡ spec.behind_host text.now }
{
    match find_end(text) {
        Some(at) => &text[at..],
        None => &[],
    }
}

fn or_root(target: &[u8]) -> &[u8]
    ensures { result.now ≡ spec.or_root target.now }
{
    match target {
        [] => b"/",
        _ => target,
    }
}

// The target without a scheme and a host.
fn own_target(target: &[u8]) -> &[u8]
    ensures { result.now ≡ spec.own_target target.now }
{
    if target.len() >= 7 && target[..7].eq_ignore_ascii_case(b"http://") {
        or_root(behind_host(&target[7..]))
    } else {
        target
    }
}

fn plain_route(path: &[u8]) -> Option<Route>
    ensures { result ≡ spec.plain_route path.now }
{
    if path == b"/v1/query".as_slice() {
        Some(Route::Query)
    } else if path == b"/v1/witness".as_slice() {
        Some(Route::Witness)
    } else if path == b"/v1/shape".as_slice() {
        Some(Route::Shape)
    } else {
        None
    }
}

// Where a path behind `/g/` leads.
fn find_group_way(path: &[u8]) -> Option<Way<'_>>
    ensures { option_map way_view result ≡ spec.group_way path.now }
{
    let (name, rest) = split_slash(path);
    if !is_group_name(name) {
        return None;
    }
    match plain_route(rest) {
        Some(route) => Some(Way {
            group: Some(name),
            route,
        }),
        None => None,
    }
}

// Where a path leads.
fn find_way(path: &[u8]) -> Option<Way<'_>>
    ensures { option_map way_view result ≡ spec.found path.now }
{
    if path.starts_with(b"/g/") {
        return find_group_way(&path[3..]);
    }
    match plain_route(path) {
        Some(route) => Some(Way { group: None, route }),
        None => None,
    }
}

// The text of an ask, if there is one.
fn find_text(
    alloc: Global,
    method: MethodKind,
    query: &[u8],
    body: &[u8],
) -> Result<Option<Text>, NoMemory>
    ensures { IfOk result (λ o. o ≡ first_named (codes "q") (if methods.is_post method then body.now else query.now)) }
{
    let text = if is_post(method) { body } else { query };
    match find_value(alloc, "q", text) {
        Ok(Some(text)) => Ok(Some(Text::from_vec(text.into_bytes()))),
        Ok(None) => Ok(None),
        Err(NoMemory) => Err(NoMemory),
    }
}

fn is_read(method: MethodKind) -> bool
    ensures { result ≡ methods.is_read method }
{
    match method {
        MethodKind::Get | MethodKind::Head => true,
        _ => false,
    }
}

// An ask of a group, or of the server's own cube.
fn aim(alloc: Global, group: Option<&[u8]>, question: Question) -> Result<Wanted, NoMemory>
    ensures { IfOk result (λ w. w ≡ wanted.Asked (spec.aimed (option_map (λ g. g.now) group.entry) question)) }
{
    let group = match group {
        None => None,
        Some(name) => Some(Text::from_bytes(alloc, name)?),
    };
    Ok(Wanted::Asked(Ask { group, question }))
}

// What is asked by a query's text, if there is one.
fn ask_query(alloc: Global, group: Option<&[u8]>, text: Option<Text>) -> Result<Wanted, NoMemory>
    ensures { IfOk result (λ w. w ≡ spec.or_no_query question.Query (option_map (λ g. g.now) group.entry) text) }
{
    match text {
        Some(text) => aim(alloc, group, Question::Query(text)),
        None => Ok(Wanted::Constant(Fixed::NoQuery)),
    }
}

// What is asked by a cell's text, if there is one.
fn ask_witness(alloc: Global, group: Option<&[u8]>, text: Option<Text>) -> Result<Wanted, NoMemory>
    ensures { IfOk result (λ w. w ≡ spec.or_no_query question.Witness (option_map (λ g. g.now) group.entry) text) }
{
    match text {
        Some(text) => aim(alloc, group, Question::Witness(text)),
        None => Ok(Wanted::Constant(Fixed::NoQuery)),
    }
}

// What is asked for by a way.
fn ask_by(
    alloc: Global,
    method: MethodKind,
    query: &[u8],
    body: &[u8],
    way: Way<'_>,
) -> Result<Wanted, NoMemory>
    ensures { IfOk result (λ w. w ≡ by_way method query.now body.now (way_view way.entry)) }
{
    let takes_text = is_read(method) || is_post(method);
    match way.route {
        Route::Query if takes_text => {
            let text = find_text(alloc, method, query, body)?;
            ask_query(alloc, way.group, text)
        }
        Route::Witness if takes_text => {
            let text = find_text(alloc, method, query, body)?;
            ask_witness(alloc, way.group, text)
        }
        Route::Shape if is_read(method) => aim(alloc, way.group, Question::Shape),
        Route::Shape => Ok(Wanted::Constant(Fixed::MethodGet)),
        _ => Ok(Wanted::Constant(Fixed::MethodForm)),
    }
}

/// What a request asks for, by its method, target and body.
pub fn read_wanted(
    alloc: Global,
    method: MethodKind,
    target: &[u8],
    body: &[u8],
) -> Result<Wanted, NoMemory>
    ensures { IfOk result (λ w. w ≡ spec.wanted_by method target.now body.now (spec.found (spec.path_of target.now))) }
{
    let (path, query) = split_question(own_target(target));
    match find_way(path) {
        Some(way) => ask_by(alloc, method, query, body, way),
        None => Ok(Wanted::Constant(Fixed::NoPath)),
    }
}
