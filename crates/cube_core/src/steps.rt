// A count of the reads of values.
ghost use Rattle.std.specs.Prelude.{◌≡◌, ◌+◌, ◌<◌, length, slice_index_or, pos};

use std::marker::Model;
use std::sync::ledger::{Blank, Book, Ledger, Share};

/// How many values were read. It takes no bytes, and only [`Steps::tick`] changes it.
///
/// A contract sees the number.
#[derive(Drop)]
pub struct Steps<L: Ledger> {
    book: Book<L>,
    share: Share<L>,
}

impl<L: Ledger> Model for Steps<L> {
    ghost use Rattle.std.specs.Prelude.{ℕ, ◌<◌};

    ghost Value = { ℕ };

    ghost view = { λ s. s.book.total };

    ghost invariant = { λ s. 0 < s.share.parts };
}

impl<L: Ledger> Steps<L> {
    /// No step yet, on a ledger of its own.
    pub fn new(blank: Blank) -> Self
        requires name { blank.name ≡ L.name }
        requires parts { blank.parts ≡ L.parts }
        requires some { 0 < L.parts }
        ensures { result ≡ 0 }
    {
        let (book, share) = blank.open::<L>();
        Steps { book, share }
    }

    /// One more step. Does nothing when it runs.
    pub fn tick(&mut self)
        ensures { self.new ≡ self.old + 1 }
    {
        self.book.add(&mut self.share, 1);
    }

    /// The value at a place of one measure's values. One step.
    pub(crate) fn read(&mut self, values: &[i64], place: u32) -> i64
        requires { place < length values.now }
        ensures value { result ≡ slice_index_or values.now place (pos 0) }
        ensures step { self.new ≡ self.old + 1 }
    {
        self.tick();
        values[place as usize]
    }
}
