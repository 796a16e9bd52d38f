// A place in a query text, and the steps that read from it.
ghost use Rattle.std.specs.Prelude.{◌≡◌, ◌≤◌, ◌-◌, length};
ghost use Rattle.std.specs.List.{prefix_len};
ghost use Rattle.cube_text.specs.Quoting.{is_bare as bare_test};
ghost use Rattle.cube_query.specs.Grammar.{is_blank as blank_test};
ghost use Rattle.cube_query.specs.Reading.{Takes, behind_blanks, has_blank, gap_in, byte_in, word_in, sign_in, quote_in, bare_in, name_in, next_in};
ghost use Rattle.cube_query.specs.declared.query.QueryFault.TheVariants as fault;

use crate::{Name, QueryFault};
use cube_model::{NoMemory, Text};
use cube_text::{is_bare, read_quoted};
use std::alloc::Global;
use std::marker::Model;

/// What is left to read of a query text.
#[derive(Drop)]
pub struct Cursor<'a> {
    size: usize,
    rest: &'a [u8],
}

impl<'a> Model for Cursor<'a> {
    ghost use Rattle.std.specs.Prelude.{length, ◌≤◌};
    ghost use Rattle.cube_query.specs.Reading.{Place};

    ghost Value = { Place };

    ghost view = { λ c. record { size = c.size; rest = c.rest.now } };

    ghost invariant = { λ c. length c.rest.now ≤ c.size };
}

/// What comes behind an item of a list.
#[derive(Clone, Copy, Debug, PartialEq, Eq)]
pub enum Next {
    /// A comma, and another item.
    Item,
    /// Behind blanks, what may be the word `where`.
    Where,
    /// The end of the text.
    End,
}

fn count_blanks(text: &[u8]) -> usize
    ensures count { result ≡ prefix_len blank_test text.now }
    ensures within { result ≤ length text.now }
{
    text.iter()
        .take_while(|byte| **byte == b' ' || **byte == b'\t')
        .count()
}

fn count_bare(text: &[u8]) -> usize
    ensures count { result ≡ prefix_len bare_test text.now }
    ensures within { result ≤ length text.now }
{
    text.iter().take_while(|byte| is_bare(**byte)).count()
}

impl<'a> Cursor<'a> {
    pub fn new(text: &'a [u8]) -> Self
        ensures size { result.size ≡ length text.now }
        ensures rest { result.rest ≡ text.now }
    {
        Cursor {
            size: text.len(),
            rest: text,
        }
    }

    /// What is left of the text.
    pub fn rest(&self) -> &[u8]
        ensures { result.now ≡ self.now.rest }
    {
        self.rest
    }

    /// How many bytes were read.
    pub fn at(&self) -> u64
        ensures { result ≡ self.now.size - length self.now.rest }
    {
        (self.size - self.rest.len()) as u64
    }

    /// The fault of a text that has no byte of a query here.
    pub fn fault(&self) -> QueryFault
        ensures { result ≡ fault.Syntax (self.now.size - length self.now.rest) }
    {
        QueryFault::Syntax { at: self.at() }
    }

    /// Passes blanks, and says whether there was one.
    #[tactic(auto, unfolding(crate::specs::Reading::has_blank, crate::specs::Reading::behind_blanks))]
    pub fn blanks(&mut self) -> bool
        ensures some { result ≡ has_blank self.old.rest }
        ensures rest { self.new.rest ≡ behind_blanks self.old.rest }
        ensures size { self.new.size ≡ self.old.size }
    {
        let count = count_blanks(self.rest);
        self.rest = &self.rest[count..];
        count > 0
    }

    /// Passes one blank or more.
    #[tactic(auto, unfolding(crate::specs::Reading::gap_in))]
    pub fn gap(&mut self) -> Result<(), QueryFault>
        ensures size { self.new.size ≡ self.old.size }
        ensures step { Takes result self.new (gap_in self.old.size self.old.rest) }
    {
        if self.blanks() {
            Ok(())
        } else {
            Err(self.fault())
        }
    }

    /// Passes this very byte.
    fn byte(&mut self, byte: u8) -> Result<(), QueryFault>
        ensures size { self.new.size ≡ self.old.size }
        ensures step { Takes result self.new (byte_in self.old.size byte self.old.rest) }
    {
        let [first, rest @ ..] = self.rest else {
            return Err(self.fault());
        };
        if *first != byte {
            return Err(self.fault());
        }
        self.rest = rest;
        Ok(())
    }

    /// Passes these very bytes.
    pub fn word(&mut self, word: &[u8]) -> Result<(), QueryFault>
        ensures size { self.new.size ≡ self.old.size }
        ensures step { Takes result self.new (word_in self.old.size word.now self.old.rest) }
    {
        for byte in word {
            self.byte(*byte)?;
        }
        Ok(())
    }

    /// Passes these very bytes with blanks around them or not.
    #[tactic(auto, unfolding(crate::specs::Reading::sign_in))]
    pub fn sign(&mut self, word: &[u8]) -> Result<(), QueryFault>
        ensures size { self.new.size ≡ self.old.size }
        ensures step { Takes result self.new (sign_in self.old.size word.now self.old.rest) }
    {
        self.blanks();
        self.word(word)?;
        self.blanks();
        Ok(())
    }

    /// Reads a name in quotes, whose opening quote was passed.
    #[tactic(auto, unfolding(crate::specs::Reading::quote_in))]
    fn quote(&mut self, alloc: Global) -> Result<Text, QueryFault>
        ensures size { self.new.size ≡ self.old.size }
        ensures step { Takes result self.new (quote_in self.old.size self.old.rest) }
    {
        match read_quoted(alloc, self.rest) {
            Ok((name, rest)) => {
                self.rest = rest;
                name.ok_or(self.fault())
            }
            Err(NoMemory) => Err(QueryFault::NoMemory),
        }
    }

    /// Reads a name without quotes.
    #[tactic(auto, unfolding(crate::specs::Reading::bare_in))]
    fn bare(&mut self, alloc: Global) -> Result<Text, QueryFault>
        ensures size { self.new.size ≡ self.old.size }
        ensures step { Takes result self.new (bare_in self.old.size self.old.rest) }
    {
        let count = count_bare(self.rest);
        if count == 0 {
            return Err(self.fault());
        }
        let text = Text::from_bytes(alloc, &self.rest[..count])?;
        self.rest = &self.rest[count..];
        Ok(text)
    }

    /// Reads a name, in quotes or not.
    #[tactic(auto, unfolding(crate::specs::Reading::name_in))]
    pub fn name(&mut self, alloc: Global) -> Result<Name, QueryFault>
        ensures size { self.new.size ≡ self.old.size }
        ensures step { Takes result self.new (name_in self.old.size self.old.rest) }
    {
        let at = self.at();
        let text = if let [b'"', rest @ ..] = self.rest {
            self.rest = rest;
            self.quote(alloc)?
        } else {
            self.bare(alloc)?
        };
        Ok(Name { text, at })
    }

    /// Passes what stands behind an item.
    #[tactic(auto, unfolding(crate::specs::Reading::next_in))]
    pub fn next(&mut self) -> Result<Next, QueryFault>
        ensures size { self.new.size ≡ self.old.size }
        ensures step { Takes result self.new (next_in self.old.size self.old.rest) }
    {
        let blank = self.blanks();
        match self.rest {
            [] => Ok(Next::End),
            [b',', rest @ ..] => {
                self.rest = rest;
                self.blanks();
                Ok(Next::Item)
            }
            [b'w', ..] if blank => Ok(Next::Where),
            _ => Err(self.fault()),
        }
    }
}
