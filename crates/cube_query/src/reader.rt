// From a text to what it says: one pass over the bytes, with no step back.
ghost use Rattle.std.specs.Prelude.{◌≡◌, ◌-◌, []};
ghost use Rattle.cube_model.specs.Answers.{Answers};
ghost use Rattle.cube_query.specs.Grammar.{query_of};
ghost use Rattle.cube_query.specs.Reading.{Takes, level_in, last_in, pick_in, levels_in, picks_in, measure_in, cell_picks_in, cell_in, where_in, slice_in, range_in, form_in, read_in};
ghost use Rattle.cube_query.specs.declared.query.QueryFault.TheVariants as fault;

use crate::cursor::{Cursor, Next};
use crate::{LevelName, Name, PickName, Query, QueryFault};
use cube_model::{Items, Text};
use std::alloc::Global;

fn copy_name(alloc: Global, name: &Name) -> Result<Name, QueryFault>
    ensures { Takes result (record { size = 0; rest = [] }) (Ok (name.now, [])) }
{
    Ok(Name {
        text: Text::from_bytes(alloc, name.text.as_slice())?,
        at: name.at,
    })
}

impl Cursor<'_> {
    /// Reads a level: two names with a point between.
    #[tactic(auto, unfolding(crate::specs::Reading::level_in))]
    fn level(&mut self, alloc: Global) -> Result<LevelName, QueryFault>
        ensures size { self.new.size ≡ self.old.size }
        ensures step { Takes result self.new (level_in self.old.size self.old.rest) }
    {
        let dimension = self.name(alloc)?;
        self.word(b".")?;
        let level = self.name(alloc)?;
        Ok(LevelName { dimension, level })
    }

    /// Reads the last member of a pick behind its first: a name of its own in a span, else the first again.
    #[tactic(auto, unfolding(crate::specs::Reading::last_in))]
    fn last(&mut self, alloc: Global, first: &Name, is_span: bool) -> Result<Name, QueryFault>
        ensures size { self.new.size ≡ self.old.size }
        ensures step { Takes result self.new (last_in is_span self.old.size first.now self.old.rest) }
    {
        if !is_span {
            return copy_name(alloc, first);
        }
        self.sign(b"..")?;
        self.name(alloc)
    }

    /// Reads a pick: a span, or one member.
    #[tactic(auto, unfolding(crate::specs::Reading::pick_in))]
    fn pick(&mut self, alloc: Global, is_span: bool) -> Result<PickName, QueryFault>
        ensures size { self.new.size ≡ self.old.size }
        ensures step { Takes result self.new (pick_in is_span self.old.size self.old.rest) }
    {
        let level = self.level(alloc)?;
        self.sign(b"=")?;
        let first = self.name(alloc)?;
        let last = self.last(alloc, &first, is_span)?;
        Ok(PickName { level, first, last })
    }

    /// Reads levels with commas between, and says whether the word `where` has to come behind them.
    #[tactic(auto, unfolding(crate::specs::Reading::levels_in), using(crate::proofs::Items::items_more, crate::proofs::Items::items_over))]
    fn levels(&mut self, alloc: Global) -> Result<(Items<LevelName>, bool), QueryFault>
        ensures size { self.new.size ≡ self.old.size }
        ensures step { Takes result self.new (levels_in self.old.size self.old.rest) }
    {
        let mut levels = Items::new(alloc);
        // Each level takes a byte at least.
        for _turn in 0..self.rest().len() {
            let level = self.level(alloc)?;
            levels.push(level)?;
            match self.next()? {
                Next::Item => {}
                Next::Where => return Ok((levels, true)),
                Next::End => return Ok((levels, false)),
            }
        }
        Err(self.fault())
    }

    /// Reads picks with commas between, to the end of the text.
    #[tactic(auto, unfolding(crate::specs::Reading::picks_in), using(crate::proofs::Items::items_more, crate::proofs::Items::items_over))]
    fn picks(&mut self, alloc: Global, is_span: bool) -> Result<Items<PickName>, QueryFault>
        ensures size { self.new.size ≡ self.old.size }
        ensures step { Takes result self.new (picks_in is_span self.old.size self.old.rest) }
    {
        let mut picks = Items::new(alloc);
        // Each pick takes a byte at least.
        for _turn in 0..self.rest().len() {
            let pick = self.pick(alloc, is_span)?;
            picks.push(pick)?;
            match self.next()? {
                Next::Item => {}
                Next::Where => return Err(self.fault()),
                Next::End => return Ok(picks),
            }
        }
        Err(self.fault())
    }

    /// Reads the word of a form, and what is asked.
    #[tactic(auto, unfolding(crate::specs::Reading::measure_in))]
    fn measure(&mut self, alloc: Global, word: &[u8]) -> Result<Name, QueryFault>
        ensures size { self.new.size ≡ self.old.size }
        ensures step { Takes result self.new (measure_in word.now self.old.size self.old.rest) }
    {
        self.word(word)?;
        self.gap()?;
        self.name(alloc)
    }

    /// Reads the picks of a cell, where blanks and more stand behind what is asked.
    #[tactic(auto, unfolding(crate::specs::Reading::cell_picks_in))]
    fn cell_picks(&mut self, alloc: Global) -> Result<Items<PickName>, QueryFault>
        ensures size { self.new.size ≡ self.old.size }
        ensures step { Takes result self.new (cell_picks_in self.old.size self.old.rest) }
    {
        let blank = self.blanks();
        if self.rest().is_empty() {
            return Ok(Items::new(alloc));
        }
        if !blank {
            return Err(self.fault());
        }
        self.picks(alloc, false)
    }

    #[tactic(auto, unfolding(crate::specs::Reading::cell_in))]
    fn cell(&mut self, alloc: Global) -> Result<Query, QueryFault>
        ensures size { self.new.size ≡ self.old.size }
        ensures step { Takes result self.new (cell_in self.old.size self.old.rest) }
    {
        let what = self.measure(alloc, b"cell")?;
        let picks = self.cell_picks(alloc)?;
        Ok(Query {
            what,
            by: Items::new(alloc),
            picks,
        })
    }

    /// Reads the word `where` and picks, where they have to come.
    #[tactic(auto, unfolding(crate::specs::Reading::where_in))]
    fn slice_picks(&mut self, alloc: Global, has_where: bool) -> Result<Items<PickName>, QueryFault>
        ensures size { self.new.size ≡ self.old.size }
        ensures step { Takes result self.new (where_in has_where self.old.size self.old.rest) }
    {
        if !has_where {
            return Ok(Items::new(alloc));
        }
        self.word(b"where")?;
        self.gap()?;
        self.picks(alloc, false)
    }

    #[tactic(auto, unfolding(crate::specs::Reading::slice_in))]
    fn slice(&mut self, alloc: Global) -> Result<Query, QueryFault>
        ensures size { self.new.size ≡ self.old.size }
        ensures step { Takes result self.new (slice_in self.old.size self.old.rest) }
    {
        let what = self.measure(alloc, b"slice")?;
        self.gap()?;
        self.word(b"by")?;
        self.gap()?;
        let (by, has_where) = self.levels(alloc)?;
        let picks = self.slice_picks(alloc, has_where)?;
        Ok(Query { what, by, picks })
    }

    #[tactic(auto, unfolding(crate::specs::Reading::range_in))]
    fn range(&mut self, alloc: Global) -> Result<Query, QueryFault>
        ensures size { self.new.size ≡ self.old.size }
        ensures step { Takes result self.new (range_in self.old.size self.old.rest) }
    {
        let what = self.measure(alloc, b"range")?;
        self.gap()?;
        let picks = self.picks(alloc, true)?;
        Ok(Query {
            what,
            by: Items::new(alloc),
            picks,
        })
    }

    /// Reads the whole text.
    #[tactic(auto, unfolding(crate::specs::Reading::form_in))]
    fn form(&mut self, alloc: Global) -> Result<Query, QueryFault>
        ensures size { self.new.size ≡ self.old.size }
        ensures step { Takes result self.new (form_in self.old.size self.old.rest) }
    {
        match self.rest().first() {
            Some(b'c') => self.cell(alloc),
            Some(b's') => self.slice(alloc),
            Some(b'r') => self.range(alloc),
            _ => Err(self.fault()),
        }
    }
}

// Reads the whole text, step by step.
#[tactic(auto, unfolding(crate::specs::Reading::read_in))]
fn read(alloc: Global, text: &[u8]) -> Result<Query, QueryFault>
    ensures { Answers fault.NoMemory result (read_in text.now) }
{
    let mut cursor = Cursor::new(text);
    cursor.blanks();
    cursor.form(alloc)
}

/// What a query text says, or the byte at which it stops being the front of a query text. One pass over the text, with
/// no step back.
#[tactic(auto, using(crate::proofs::Wholes::reads_as_said))]
pub fn parse(alloc: Global, text: &[u8]) -> Result<Query, QueryFault>
    ensures { Answers fault.NoMemory result (query_of text.now) }
{
    read(alloc, text)
}
