// The entries that the lines of a journal write.
ghost use Rattle.std.specs.Prelude.{◌≡◌, ◌≤◌, ◌<◌, ◌^◌, ◌∷◌, [], ◌≢◌, Ok, ◌&&◌, ◌||◌, ◌==◌, length, drop, true, false, None, Some, is_some, IfOk, IfSome, IfNone, MatchOption, option_map};
ghost use Rattle.cube_model.specs.Answers.{Answers};
ghost use Rattle.cube_model.specs.Cubes.{are_levels};
ghost use Rattle.cube_model.specs.Dims.{plains};
ghost use Rattle.cube_model.specs.Entries.{is_link};
ghost use Rattle.cube_model.specs.Protection.{is_lattice, is_parity};
ghost use Rattle.std.specs.List.{position};
ghost use Rattle.cube_journal.specs.Recovery.{is_controlled, asked_if, is_plain, number_of, numbers_of, fields, source_of, linked_if, link_of, is_request_line, entry_of};
ghost use Rattle.cube_query.specs.Faults.{request_of};
ghost use Rattle.cube_query.specs.Canonical.{is_request};

use cube_model::{Dims, Entry, Items, Levels, Link, Method, NoMemory, Policy, Request, What};
use cube_query::{RequestFault, print, read_request};
use cube_text::read_digits;
use std::alloc::Global;

fn is_controlled(policy: &Policy, what: What) -> bool
    ensures { result ≡ is_controlled policy.now what }
{
    match what {
        What::Count => false,
        What::Measure(measure) => policy.method(measure) != Method::Plain,
    }
}

/// The request that a text names, where there is one.
fn request_in(alloc: Global, dims: &Dims, text: &[u8]) -> Result<Option<Request>, NoMemory>
    ensures some { IfOk result (λ request. IfSome request (λ r. request_of dims.now text.now ≡ Ok r)) }
    ensures valid { IfOk result (λ request. IfSome request (λ r. is_request dims.now r ≡ true)) }
    ensures none { IfOk result (λ request. IfNone request ((r : Request) → request_of dims.now text.now ≢ Ok r)) }
{
    match read_request(alloc, dims, text) {
        Ok(request) => Ok(Some(request)),
        Err(RequestFault::NoMemory) => Err(NoMemory),
        Err(_) => Ok(None),
    }
}

/// The entry of a request line behind its first word.
fn read_asked(
    alloc: Global,
    dims: &Dims,
    policy: &Policy,
    text: &[u8],
) -> Result<Option<Entry>, NoMemory>
    ensures { IfOk result (λ entry. entry ≡ asked_if dims.now policy.now text.now (request_of dims.now text.now)) }
{
    let Some(request) = request_in(alloc, dims, text)? else {
        return Ok(None);
    };
    let canonical = print(alloc, dims, &request)?;
    if canonical.as_slice() == text && is_controlled(policy, request.what) {
        Ok(Some(Entry::Asked(request)))
    } else {
        Ok(None)
    }
}

/// The number that a field writes, in decimal digits without leading zeros.
fn read_number(text: &[u8]) -> Option<u32>
    ensures { result ≡ number_of text.now }
{
    let value = read_digits(text)?;
    if text.starts_with(b"0") && text.len() != 1 {
        return None;
    }
    u32::try_from(value).ok()
}

fn find_blank(text: &[u8]) -> Option<usize>
    ensures at { result ≡ position (λ b. b == 32) text.now }
    ensures within { IfSome result (λ at. at < length text.now) }
{
    text.iter().position(|byte| *byte == b' ')
}

/// The first field of a text, and what stands behind its blank.
#[tactic(auto, using(crate::proofs::Fields::fields_some, crate::proofs::Fields::fields_none))]
fn cut_field(text: &[u8]) -> (&[u8], Option<&[u8]>)
    ensures more { IfSome result.1 (λ more. fields text.now ≡ result.0.now ∷ fields more.now) }
    ensures shorter { IfSome result.1 (λ more. length more.now < length text.now) }
    ensures last { IfNone result.1 (fields text.now ≡ result.0.now ∷ []) }
{
    match find_blank(text) {
        Some(at) => (&text[..at], Some(&text[at + 1..])),
        None => (text, None),
    }
}

/// The numbers that the fields of a line write, where each writes one.
fn read_numbers(alloc: Global, text: &[u8]) -> Result<Option<Items<u32>>, NoMemory>
    ensures { IfOk result (λ numbers. numbers ≡ numbers_of (fields text.now)) }
{
    let mut numbers = Items::new(alloc);
    let mut rest = text;
    'fields: loop {
        let (field, more) = cut_field(rest);
        let Some(number) = read_number(field) else {
            return Ok(None);
        };
        numbers.push(number)?;
        let Some(more) = more else {
            return Ok(Some(numbers));
        };
        rest = more;
    }
}

/// A level for each dimension, in range.
fn are_levels(dims: &Dims, levels: &[u32]) -> bool
    ensures { result ≡ are_levels (plains dims.now) levels.now }
{
    let dimensions = dims.dimensions();
    if levels.len() != dimensions.len() {
        return false;
    }
    for (d, dimension) in dimensions.iter().enumerate() {
        if levels[d] as usize > dimension.levels().len() {
            return false;
        }
    }
    true
}

/// The source that the numbers of a line are.
fn read_source(dims: &Dims, policy: &Policy, numbers: Items<u32>) -> Option<Entry>
    ensures { result ≡ source_of dims.now policy.now (Some numbers) }
{
    let mut levels = numbers.into_vec();
    if levels.is_empty() {
        return None;
    }
    let measure = levels.remove(0);
    if policy.method(measure) == Method::Lattice && are_levels(dims, &levels) {
        let levels = Levels::from_vec(levels);
        Some(Entry::Source { measure, levels })
    } else {
        None
    }
}

/// Whether the places of a link are in range, two in a pair.
fn is_link(places: u32, link: Link) -> bool
    ensures { result ≡ is_link places link }
{
    match link {
        Link::Pair(first, second) => first < places && second < places && first != second,
        Link::Single(place) => place < places,
    }
}

fn read_linked(policy: &Policy, places: u32, measure: u32, link: Link) -> Option<Entry>
    ensures { result ≡ linked_if policy.now places measure link }
{
    if policy.method(measure) == Method::Parity && is_link(places, link) {
        Some(Entry::Linked { measure, link })
    } else {
        None
    }
}

/// The link that the numbers of a line are.
fn read_link(policy: &Policy, places: u32, numbers: &[u32]) -> Option<Entry>
    ensures { result ≡ link_of policy.now places (Some numbers.now) }
{
    match numbers {
        [measure, place] => read_linked(policy, places, *measure, Link::Single(*place)),
        [measure, first, second] => {
            read_linked(policy, places, *measure, Link::Pair(*first, *second))
        }
        _ => None,
    }
}

/// The entry that a line without its line feed writes.
#[tactic(auto, unfolding(crate::specs::Recovery::entry_of))]
pub fn read_entry(
    alloc: Global,
    dims: &Dims,
    policy: &Policy,
    places: u32,
    text: &[u8],
) -> Result<Option<Entry>, NoMemory>
    ensures { IfOk result (λ entry. entry ≡ entry_of dims.now policy.now places text.now) }
{
    if text.starts_with(b"q ") {
        return read_asked(alloc, dims, policy, &text[2..]);
    }
    let is_source = text.starts_with(b"s ");
    if !is_source && !text.starts_with(b"k ") {
        return Ok(None);
    }
    let Some(numbers) = read_numbers(alloc, &text[2..])? else {
        return Ok(None);
    };
    if is_source {
        Ok(read_source(dims, policy, numbers))
    } else {
        Ok(read_link(policy, places, numbers.as_slice()))
    }
}
