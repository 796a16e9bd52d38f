// How a run ended, and the text that says so.
ghost use Rattle.std.specs.Prelude.{◌≡◌, ◌⊎◌, ◌≤◌, ◌+◌, ◌++◌, [], length, decimal, codes, IfOk};
ghost use Rattle.cube_opening.specs.Reports.{IsReport, NoMessage};

use crate::statuses;
use cube_model::{Items, NoMemory, Outcomes, Text};
use itoa::Buffer;
use std::alloc::Global;
use std::marker::Model;

/// How a run ended: the status of the process, what became of the asks, and the text for standard error.
#[derive(Debug, Drop)]
pub struct Report {
    pub status: u8,
    pub outcomes: Outcomes,
    pub text: Text,
}

/// The report of a run that finds no memory for its text.
pub fn no_message(alloc: Global) -> Report
    ensures { NoMessage result }
{
    Report {
        status: statuses::NO_MEMORY,
        outcomes: Items::new(alloc),
        text: Text::new(alloc),
    }
}

/// A report without outcomes.
pub fn with_text(alloc: Global, status: u8, text: Text) -> Report
    ensures { IsReport status text result }
{
    Report {
        status,
        outcomes: Items::new(alloc),
        text,
    }
}

fn refused_line(alloc: Global, before: &[u8], line: &Text) -> Result<Text, NoMemory>
    ensures { IfOk result (λ text. text ≡ before.now ++ line.now) }
{
    let mut text = Text::from_bytes(alloc, before)?;
    text.extend(line.as_slice())?;
    Ok(text)
}

/// The report on what is refused by a line, behind the words that say what it is, as `cell: `.
pub fn refuse_line(alloc: Global, before: &[u8], line: &Text) -> Report
    ensures { IsReport 3 (before.now ++ line.now) result ⊎ NoMessage result }
{
    match refused_line(alloc, before, line) {
        Ok(text) => with_text(alloc, statuses::FILE_REFUSED, text),
        Err(_) => no_message(alloc),
    }
}

const MESSAGE: usize = 128;

/// The text of a report, for which 128 bytes were taken when it was made.
#[derive(Drop)]
pub struct Message {
    bytes: Vec<u8>,
}

impl Model for Message {
    ghost use Rattle.std.specs.Prelude.{ℕ, List, ◌≤◌};
    ghost use Rattle.std.specs.Vec.{vec_capacity};

    ghost Value = { List ℕ };

    ghost view = { λ r. r.bytes.items };

    ghost invariant = { λ r. 128 ≤ vec_capacity r.bytes };
}

impl Message {
    /// An empty message.
    pub fn new(alloc: Global) -> Result<Message, NoMemory>
        ensures { IfOk result (λ message. message ≡ []) }
    {
        Ok(Message {
            bytes: Vec::with_capacity(alloc, MESSAGE)?,
        })
    }

    /// The message with a text put at the end.
    pub fn with(self, text: &[u8]) -> Message
        requires { length self + length text.now ≤ 128 }
        ensures { result ≡ self ++ text.now }
    {
        let mut bytes = self.bytes;
        match bytes.extend_from_slice(text) {
            Ok(()) => Message { bytes },
            Err(_) => unreachable!(),
        }
    }

    /// The message with a number put at the end, which takes 20 bytes at most.
    pub fn with_number(self, number: u64) -> Message
        requires { length self + 20 ≤ 128 }
        ensures text { result ≡ self ++ decimal number }
        ensures few { length result ≤ length self + 20 }
    {
        self.with(Buffer::new().format(number).as_bytes())
    }

    /// The report of this text, with what became of the asks.
    pub fn close_with(self, status: u8, outcomes: Outcomes) -> Report
        ensures status { result.status ≡ status }
        ensures outcomes { result.outcomes ≡ outcomes }
        ensures text { result.text ≡ self }
    {
        Report {
            status,
            outcomes,
            text: Text::from_vec(self.bytes),
        }
    }

    /// The report of this text.
    pub fn close(self, alloc: Global, status: u8) -> Report
        ensures { IsReport status self result }
    {
        with_text(alloc, status, Text::from_vec(self.bytes))
    }
}

/// The text on a run that took as much as is taken at most.
pub fn spent_message(message: Message, requests: u64, events: u64) -> Message
    requires { message ≡ [] }
    ensures { result ≡ codes "spent: " ++ decimal requests ++ codes " requests, " ++ decimal events ++ codes " events\n" }
{
    message
        .with(b"spent: ")
        .with_number(requests)
        .with(b" requests, ")
        .with_number(events)
        .with(b" events\n")
}
