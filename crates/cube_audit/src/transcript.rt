// Transcripts, and how they are read.
ghost use Rattle.std.specs.Prelude.{◌≡◌, ◌≤◌, ◌++◌, length, map, codes, decimal, option_map, IfOk};
ghost use Rattle.serde_json.specs.View.{view};
ghost use Rattle.cube_model.specs.Answers.{Answers};
ghost use Rattle.cube_audit.specs.Transcripts.{json_of, text_in, in_range, status_in, item_of, items_of, array_said, transcript_of};
ghost use Rattle.cube_audit.specs.Words.{fault_words};
ghost use Rattle.cube_audit.specs.declared.transcript.TranscriptFault.TheVariants as fault;

use cube_model::{Items, NoMemory, Text};
use serde_json::Value;
use std::alloc::Global;

/// The most items that a transcript has.
const MOST_ITEMS: usize = 65_536;

/// A query, and the reply of some server.
#[derive(Drop)]
pub struct TranscriptItem {
    /// The text of the query.
    pub query: Text,
    /// The status of the reply, from 100 to 599.
    pub status: u16,
    /// The body of the reply.
    pub body: Text,
}

/// Queries with their replies, in the order in which they were asked.
pub type Transcript = Items<TranscriptItem>;

/// The first fault of a transcript.
#[derive(Clone, Copy, Debug, PartialEq, Eq)]
pub enum TranscriptFault {
    /// The bytes are no JSON, or nest deeper than is read.
    NotJson,
    /// The value is no array.
    NotArray,
    /// There are more items than are taken.
    Limit,
    /// This item, counted from 1, lacks a key, or has another kind of value or another range at one.
    Item {
        /// Its number.
        item: u32,
    },
    /// Memory ran out.
    NoMemory,
}

impl From<NoMemory> for TranscriptFault {
    ghost from_gives = { λ _ e. e ≡ fault.NoMemory };

    fn from(_error: NoMemory) -> TranscriptFault {
        TranscriptFault::NoMemory
    }
}

/// The words of an item.
fn item_text(alloc: Global, item: u32) -> Result<Text, NoMemory>
    ensures { IfOk result (λ text. text ≡ codes "item " ++ decimal item) }
{
    let mut text = Text::from_bytes(alloc, b"item ")?;
    text.push_number(u64::from(item))?;
    Ok(text)
}

/// The words of a fault, as `item 3`.
pub fn fault_text(alloc: Global, fault: &TranscriptFault) -> Result<Text, NoMemory>
    ensures { IfOk result (λ text. text ≡ fault_words fault.now) }
{
    match fault {
        TranscriptFault::NotJson => Text::from_bytes(alloc, b"not json"),
        TranscriptFault::NotArray => Text::from_bytes(alloc, b"not an array"),
        TranscriptFault::Limit => Text::from_bytes(alloc, b"limit items 65536"),
        TranscriptFault::Item { item } => item_text(alloc, *item),
        TranscriptFault::NoMemory => Text::from_bytes(alloc, b"no memory"),
    }
}

/// The value that the bytes are as JSON, or `None` where they are none.
fn read_json(alloc: Global, bytes: &[u8]) -> Result<Option<Value>, NoMemory>
    ensures { IfOk result (λ read. option_map view read ≡ json_of bytes.now) }
{
    match Value::from_slice(alloc, bytes) {
        Ok(value) => Ok(Some(value)),
        Err(error) => {
            if error.is_memory() {
                Err(NoMemory)
            } else {
                Ok(None)
            }
        }
    }
}

/// The text under a key.
fn text_at<'a>(value: &'a Value, key: &str) -> Option<&'a str>
    ensures { option_map (λ text. text.now) result ≡ text_in key.now (view value.now) }
{
    match value.get(key) {
        Some(found) => found.as_str(),
        None => None,
    }
}

/// A number that is a status.
fn as_status(number: u64) -> Option<u16>
    ensures { result ≡ in_range number }
{
    if 100 <= number && number <= 599 {
        Some(number as u16)
    } else {
        None
    }
}

/// The status of an item.
fn status_at(value: &Value) -> Option<u16>
    ensures { result ≡ status_in (view value.now) }
{
    match value.get("status") {
        Some(found) => match found.as_u64() {
            Some(number) => as_status(number),
            None => None,
        },
        None => None,
    }
}

/// The item of these parts.
fn make_item(
    alloc: Global,
    query: &str,
    status: u16,
    body: &str,
) -> Result<TranscriptItem, NoMemory>
    ensures { IfOk result (λ made. made ≡ record { query = query.now; status = status; body = body.now }) }
{
    Ok(TranscriptItem {
        query: Text::from_bytes(alloc, query.as_bytes())?,
        status,
        body: Text::from_bytes(alloc, body.as_bytes())?,
    })
}

/// The item that a value is, or `None` where it is none.
#[tactic(auto, unfolding(crate::specs::Transcripts::item_of))]
fn read_item(alloc: Global, value: &Value) -> Result<Option<TranscriptItem>, NoMemory>
    ensures { IfOk result (λ read. read ≡ item_of (view value.now)) }
{
    let Some(query) = text_at(value, "q") else {
        return Ok(None);
    };
    let Some(status) = status_at(value) else {
        return Ok(None);
    };
    let Some(body) = text_at(value, "body") else {
        return Ok(None);
    };
    Ok(Some(make_item(alloc, query, status, body)?))
}

/// The items that values are, at most 65,536 of them.
fn read_values(alloc: Global, values: &[Value]) -> Result<Transcript, TranscriptFault>
    ensures said { Answers fault.NoMemory result (items_of (map view values.now)) }
    ensures few { IfOk result (λ items. length items ≤ 65536) }
{
    if MOST_ITEMS < values.len() {
        return Err(TranscriptFault::Limit);
    }
    let mut items = Items::new(alloc);
    'values: for (number, value) in values.iter().enumerate() {
        match read_item(alloc, value)? {
            Some(item) => items.push(item)?,
            None => {
                return Err(TranscriptFault::Item {
                    item: number as u32 + 1,
                });
            }
        }
    }
    Ok(items)
}

/// The items that a value is, where it is an array.
fn read_array(alloc: Global, value: &Value) -> Result<Transcript, TranscriptFault>
    ensures said { Answers fault.NoMemory result (array_said (view value.now)) }
    ensures few { IfOk result (λ items. length items ≤ 65536) }
{
    match value.as_array() {
        Some(values) => read_values(alloc, values.as_slice()),
        None => Err(TranscriptFault::NotArray),
    }
}

/// Reads a transcript: the items that its bytes say, in their order, or its first fault.
///
/// It is a JSON array of at most 65,536 objects, each with the query `q` and the `body`, which are texts, and the `status`, a whole
/// number from 100 to 599 that is written without a point and without an exponent. Other keys are passed over, and of a key that
/// stands twice the last value counts. Arrays and objects nest at most 127 deep.
pub fn read_transcript(alloc: Global, bytes: &[u8]) -> Result<Transcript, TranscriptFault>
    ensures said { Answers fault.NoMemory result (transcript_of bytes.now) }
    ensures few { IfOk result (λ items. length items ≤ 65536) }
{
    let Some(value) = read_json(alloc, bytes)? else {
        return Err(TranscriptFault::NotJson);
    };
    read_array(alloc, &value)
}
