// The word for a line of a workload.
ghost use Rattle.std.specs.Prelude.{◌≡◌};
ghost use Rattle.cube_advise.specs.Words.{word_of as word_said, word_text};

use cube_model::Verdict;

/// What is said of a line of a workload.
#[derive(Clone, Copy, Debug, PartialEq, Eq)]
pub enum Word {
    /// It is answered.
    Answer,
    /// The source of its measure would leave a protected cell uncut.
    Source,
    /// A link of two places fixes a protected place.
    Pair,
    /// A link of one place fixes a protected place.
    Single,
    /// The history holds as many requests as it can.
    Full,
    /// It has too many bytes, or its text names no request.
    Unread,
}

impl Word {
    /// The word as it is printed.
    pub fn text(self) -> &'static [u8]
        ensures { result.now ≡ word_text self }
    {
        match self {
            Word::Answer => b"answer",
            Word::Source => b"source",
            Word::Pair => b"pair",
            Word::Single => b"single",
            Word::Full => b"full",
            Word::Unread => b"unread",
        }
    }
}

/// The word for a verdict.
pub(crate) fn word_of(verdict: &Verdict) -> Word
    ensures { result ≡ word_said verdict.now }
{
    match verdict {
        Verdict::Answer { .. } => Word::Answer,
        Verdict::Full { .. } => Word::Full,
        Verdict::SourceWould { .. } => Word::Source,
        Verdict::Pair { .. } => Word::Pair,
        Verdict::Single { .. } => Word::Single,
    }
}
