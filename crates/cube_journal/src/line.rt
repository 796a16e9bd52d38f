// The lines of a journal.
ghost use Rattle.std.specs.Prelude.{◌≡◌, ◌<◌, ◌^◌, length, true, IfOk};
ghost use Rattle.cube_query.specs.Canonical.{is_request};
ghost use Rattle.cube_journal.specs.Lines.{IsLine};
ghost use Rattle.cube_journal.specs.RequestLines.{request_line};

use cube_model::{Dims, NoMemory, Request, Text};
use cube_query::print;
use std::alloc::Global;
use std::marker::Model;

/// A line of a journal with its line feed: fewer than 2^14 bytes, and no other line feed.
#[derive(Drop)]
pub struct Line {
    text: Text,
}

impl Model for Line {
    ghost use Rattle.std.specs.Prelude.{ℕ, List, length, ◌<◌, ◌^◌};
    ghost use Rattle.cube_journal.specs.Lines.{IsLine};

    ghost Value = { List ℕ };

    ghost view = { λ l. l.text };

    ghost invariant = { λ l. IsLine l.text × (length l.text < 2 ^ 14) };
}

impl Line {
    /// The bytes of the line.
    pub fn as_slice(&self) -> &[u8]
        ensures bytes { result.now ≡ self.now }
        ensures line { IsLine self.now }
        ensures short { length self.now < 2 ^ 14 }
    {
        self.text.as_slice()
    }

    /// How many bytes it has.
    pub fn len(&self) -> usize
        ensures { result ≡ length self.now }
    {
        self.text.len()
    }
}

/// Puts the bytes of a request's line together.
fn write(alloc: Global, dims: &Dims, request: &Request) -> Result<Text, NoMemory>
    requires { is_request dims.now request.now ≡ true }
    ensures text { IfOk result (λ text. text ≡ request_line dims.now request.now) }
    ensures line { IfOk result (λ text. IsLine text) }
    ensures short { IfOk result (λ text. length text < 2 ^ 14) }
{
    let _rules = dims.dimensions();
    let canonical = print(alloc, dims, request)?;
    let mut text = Text::from_bytes(alloc, b"q ")?;
    text.extend(canonical.as_slice())?;
    text.push(b'\n')?;
    Ok(text)
}

/// The line of a valid request.
pub fn line_of(alloc: Global, dims: &Dims, request: &Request) -> Result<Line, NoMemory>
    requires { is_request dims.now request.now ≡ true }
    ensures { IfOk result (λ line. line ≡ request_line dims.now request.now) }
{
    let text = write(alloc, dims, request)?;
    Ok(Line { text })
}
