// What became of the asks so far, with space for more.
ghost use Rattle.std.specs.Prelude.{◌≡◌, ◌≤◌, ◌+◌, ◌++◌, ◌∷◌, [], IfOk};

use cube_model::{Items, NoMemory, Outcome, Outcomes};
use std::alloc::Global;
use std::marker::Model;

/// The outcomes of the asks so far, and space for a number of others, which take no memory.
#[derive(Drop)]
pub struct Turns {
    outcomes: Vec<Outcome>,
    left: u64,
}

impl Model for Turns {
    ghost use Rattle.std.specs.Prelude.{◌+◌, ◌≤◌, length};
    ghost use Rattle.std.specs.Vec.{vec_capacity};
    ghost use Rattle.cube_engine.specs.Turns as said;

    ghost Value = { said.Turns };

    ghost view = { λ t. record { outcomes = t.outcomes.items; left = t.left } };

    ghost invariant = { λ t. length t.outcomes.items + t.left ≤ vec_capacity t.outcomes };
}

impl Turns {
    /// No outcome yet, and space for so many.
    pub fn new(alloc: Global, capacity: u64) -> Result<Turns, NoMemory>
        ensures { IfOk result (λ turns. turns ≡ record { outcomes = []; left = capacity }) }
    {
        Ok(Turns {
            outcomes: Vec::with_capacity(alloc, capacity as usize)?,
            left: capacity,
        })
    }

    /// Adds what became of one more ask.
    pub fn record(&mut self, outcome: Outcome)
        requires { 1 ≤ self.old.left }
        ensures outcomes { self.new.outcomes ≡ self.old.outcomes ++ outcome ∷ [] }
        ensures left { self.new.left + 1 ≡ self.old.left }
    {
        match self.outcomes.push(outcome) {
            Ok(()) => self.left -= 1,
            Err(_) => unreachable!(),
        }
    }

    /// What became of the asks, in turn.
    pub fn outcomes(&self) -> &[Outcome]
        ensures { result.now ≡ self.now.outcomes }
    {
        self.outcomes.as_slice()
    }

    /// How many more there is space for.
    pub fn left(&self) -> u64
        ensures { result ≡ self.now.left }
    {
        self.left
    }

    /// What became of the asks, for good.
    pub fn finish(self) -> Outcomes
        ensures { result ≡ self.outcomes }
    {
        Items::from_vec(self.outcomes)
    }
}
