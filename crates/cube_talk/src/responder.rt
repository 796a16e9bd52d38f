// Who answers the lines of an input.
ghost use Rattle.std.specs.Prelude.{◌≡◌, ◌<◌, ◌-◌, ◌^◌, ◌++◌, ◌∷◌, [], ℕ, min, List, Bool, true, false, length, IfOk, OnErr};
ghost use Rattle.cube_talk.specs.Replies.{said_text};

use crate::replies::Said;
use cube_io::Store;
use cube_model::NoMemory;
use std::alloc::Global;

/// The most bytes of a line that is looked into.
pub const MAX_LINE: usize = 65_536;

/// Answers lines one after another, over a store. How its state goes on with the lines is its own; the talk tells it the lines.
pub trait Responder<S: Store> {
    /// From one state to another, with that of the store, these lines were answered by this text.
    ghost says: { Self → S → List (List ℕ) → Self → S → List ℕ → Type 0 };

    /// It belongs to the store.
    ghost stands: { Self → S → Type 0 };

    /// It answers no more lines.
    ghost done: { Self → Bool };

    /// How many requests it keeps.
    ghost kept: { Self → ℕ };

    /// Whether it may find no memory for an answer.
    ghost lacks: { Bool };

    /// Answers a line, without its line feed.
    fn answer(&mut self, alloc: Global, store: &mut S, line: &[u8]) -> Result<Said, NoMemory>
        requires stands { stands self.old store.old }
        requires going { done self.old ≡ false }
        ensures ok { IfOk result (λ said. says self.old store.old (line.now ∷ []) self.new store.new (said_text said)) }
        ensures err { OnErr result ((self.new ≡ self.old) × (store.new ≡ store.old) × (lacks ≡ true)) }
        ensures stands { stands self.new store.new }
        ensures told { (S.state store.new).told ≡ (S.state store.old).told };

    /// How many requests it keeps, up to the end of the type.
    fn held(&self) -> u64
        ensures { result ≡ min (kept self.now) (2 ^ 64 - 1) };

    /// Whether it answers no more lines.
    fn is_done(&self) -> bool
        ensures { result ≡ done self.now };

    /// No lines are answered by no text.
    ghost silent: { (x : Self) (s : S) → says x s [] x s [] };

    /// Lines behind lines are answered one after another.
    ghost onward: { (x y z : Self) (s t u : S) (first more : List (List ℕ)) (text behind : List ℕ)
        → says x s first y t text → says y t more z u behind → says x s (first ++ more) z u (text ++ behind) };

    /// Lines that are too long are answered alike.
    ghost alike: { (x y : Self) (s t : S) (line other text : List ℕ)
        → 65536 < length line → 65536 < length other → says x s (line ∷ []) y t text → says x s (other ∷ []) y t text };
}
