// What is limited.
ghost use Rattle.std.specs.Prelude.{◌≡◌, IfOk};
ghost use Rattle.cube_model.specs.Limits.{limit_word, limit_words};

use crate::{NoMemory, Text};
use std::alloc::Global;

/// What a file has more of than is taken.
#[derive(Clone, Copy, Debug, PartialEq, Eq)]
pub enum LimitKind {
    Dimensions,
    Measures,
    Levels,
    Leaves,
    Cuboids,
    Decimals,
    Objects,
    Facts,
    Points,
    /// Bytes of a file.
    File,
}

impl LimitKind {
    /// The word for what is limited, as the texts of faults have it.
    pub fn word(self) -> &'static [u8]
        ensures { result.now ≡ limit_word self }
    {
        match self {
            LimitKind::Dimensions => b"dimensions",
            LimitKind::Measures => b"measures",
            LimitKind::Levels => b"levels",
            LimitKind::Leaves => b"leaves",
            LimitKind::Cuboids => b"cuboids",
            LimitKind::Decimals => b"decimals",
            LimitKind::Objects => b"objects",
            LimitKind::Facts => b"facts",
            LimitKind::Points => b"points",
            LimitKind::File => b"file",
        }
    }
    /// The words of a fault that names a limit, as `limit leaves 65536`.
    pub fn text(self, alloc: Global, number: u64) -> Result<Text, NoMemory>
        ensures { IfOk result (λ text. text ≡ limit_words self number) }
    {
        let mut text = Text::from_bytes(alloc, b"limit ")?;
        text.extend(self.word())?;
        text.extend(b" ")?;
        text.push_number(number)?;
        Ok(text)
    }
}
