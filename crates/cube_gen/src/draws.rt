// Numbers drawn one after another.
ghost use Rattle.std.specs.Prelude.{◌≡◌, ◌<◌, ◌≤◌};
ghost use Rattle.cube_gen.specs.Draws.{seed, drawn};

use std::marker::Model;

/// Numbers that are drawn one after another from a first number.
///
/// A contract sees the number behind the last draw.
#[derive(Drop)]
pub(crate) struct Draws {
    number: u64,
}

impl Model for Draws {
    ghost use Rattle.std.specs.Prelude.{ℕ};

    ghost Value = { ℕ };

    ghost view = { λ d. d.number };
}

impl Draws {
    /// Draws from a number on.
    pub(crate) fn new(number: u64) -> Self
        ensures { result ≡ number }
    {
        Draws { number }
    }

    /// A draw below a number: the top 32 bits of the next number, modulo it.
    pub(crate) fn below(&mut self, end: u64) -> u64
        requires { 1 ≤ end }
        ensures state { self.new ≡ seed self.old 1 }
        ensures drawn { result ≡ drawn self.old 1 end }
        ensures below { result < end }
    {
        self.number = self
            .number
            .wrapping_mul(6364136223846793005)
            .wrapping_add(1442695040888963407);
        (self.number >> 32) % end
    }
}
