// What a server asks: one or more rooms, each a cube with a policy and a history.
ghost use Rattle.std.specs.Prelude.{◌≡◌, ◌≢◌, ◌⊎◌, ◌↔◌, ◌≤◌, ◌+◌, ◌-◌, ◌^◌, ◌++◌, ◌∷◌, [], ℕ, min, List, IsTrue};
ghost use Rattle.cube_model.specs.Rooms.{Room};
ghost use Rattle.cube_model.specs.declared.outcome.Outcome.{Outcome};
ghost use Rattle.cube_model.specs.declared.outcome.Outcome.TheVariants as outcome;
ghost use Rattle.cube_model.specs.declared.reply.Fixed.TheVariants as constant;
ghost use Rattle.cube_model.specs.declared.reply.Reply.TheVariants as reply;
ghost use Rattle.cube_io.specs.Desks.{Manner, entries, IsConstant, Answered, most_calls, ForeignStay, GivesRooms, LeavesAll, IsOneOf};
ghost use Rattle.cube_io.specs.States.{State, Gained};

use crate::Store;
use cube_model::{Ask, Reply};
use std::alloc::Global;

/// What answers asks: a list of rooms, whose histories may be kept on a store, and the outcomes of the asks so far.
pub trait Desk<S: Store> {
    /// What it does with an ask. No call changes it.
    ghost manner: { Self → Manner };

    /// The rooms that it answers for.
    ghost rooms: { Self → List Room };

    /// What became of the asks so far, in turn.
    ghost outcomes: { Self → List Outcome };

    /// How many asks it has space for.
    ghost capacity: { Self → ℕ };

    /// The desk belongs to the store.
    ghost fits: { Self → S → Type 0 };

    /// Whatever a crash leaves of this log at this state, it recovers just the history of its room.
    ghost exact: { Self → List Room → ℕ → State → Type 0 };

    /// Whatever a crash leaves of this log at this state, it recovers the history of its room, alone or with one more request.
    /// Of a log that keeps no room's history it never holds.
    ghost within: { Self → List Room → ℕ → State → Type 0 };

    /// Answers an ask, and keeps it first where it adds to a history.
    fn answer(&mut self, alloc: Global, store: &mut S, ask: &Ask) -> Reply
        requires fits { fits self.old store.old }
        requires capacity { 1 ≤ capacity self.old }
        ensures answered { Answered (manner self.old) ask.now (rooms self.old) (rooms self.new) (outcomes self.old) (outcomes self.new) (S.state store.old).faults (S.state store.new).faults result }
        ensures manner { manner self.new ≡ manner self.old }
        ensures capacity { capacity self.new + 1 ≡ capacity self.old }
        ensures fits { fits self.new store.new }
        ensures told { (S.state store.new).told ≡ (S.state store.old).told }
        ensures names { IsTrue (S.state store.old).told → (S.state store.new).names ≡ (S.state store.old).names }

        // An ask that adds to no history leaves the store alone.
        ensures untouched { (manner self.old).next (rooms self.old) ask.now outcome.Given ≡ rooms self.old → store.new ≡ store.old }

        // Want of memory leaves it alone too.
        ensures memory { outcomes self.new ≡ outcomes self.old ++ outcome.NoMemory ∷ [] → store.new ≡ store.old }

        // The store is called twice at most, and four times behind an ask for which the journal failed.
        ensures calls { IsTrue (S.state store.old).told → (S.state store.new).calls ≤ (S.state store.old).calls + most_calls (outcomes self.old) }

        // No log is written but those that keep the rooms' histories.
        ensures others { ForeignStay (within self.old) (S.state store.old) (S.state store.new) }

        // What a crash leaves at each state that is passed, and at the end.
        ensures exact_stays { (rooms : List Room) (log : ℕ) (state : State) → exact self.new rooms log state ↔ exact self.old rooms log state }
        ensures within_stays { (rooms : List Room) (log : ℕ) (state : State) → within self.new rooms log state ↔ within self.old rooms log state }
        ensures passed { IsTrue (S.state store.old).told → (log : ℕ) → within self.old (rooms self.old) log ((S.state store.old).logs log).state
            → Gained (λ state. within self.old (rooms self.old) log state ⊎ within self.old (rooms self.new) log state) ((S.state store.old).logs log) ((S.state store.new).logs log) }
        ensures within { IsTrue (S.state store.old).told → (log : ℕ) → within self.old (rooms self.old) log ((S.state store.old).logs log).state → within self.new (rooms self.new) log ((S.state store.new).logs log).state }
        ensures exact { outcomes self.new ≢ outcomes self.old ++ outcome.JournalFault ∷ [] → IsTrue (S.state store.old).told → (log : ℕ) → exact self.old (rooms self.old) log ((S.state store.old).logs log).state
            → exact self.new (rooms self.new) log ((S.state store.new).logs log).state }

        // Beyond what a crash could leave before, it leaves a history without the request in hand or with it, and no other request.
        ensures in_hand { IsTrue (S.state store.old).told → (log : ℕ) → within self.old (rooms self.old) log ((S.state store.old).logs log).state
            → LeavesAll (GivesRooms (exact self.old) log) (IsOneOf (rooms self.old) ((manner self.old).next (rooms self.old) ask.now outcome.Given)) ((S.state store.old).logs log) ((S.state store.new).logs log) }

        // Where the journal did not fail, a log stays, or whatever a crash leaves of it recovers just the history, also behind an earlier fault.
        ensures renewed { outcomes self.new ≢ outcomes self.old ++ outcome.JournalFault ∷ [] → IsTrue (S.state store.old).told → (log : ℕ) → within self.old (rooms self.old) log ((S.state store.old).logs log).state
            → ((S.state store.new).logs log ≡ (S.state store.old).logs log) ⊎ exact self.new (rooms self.new) log ((S.state store.new).logs log).state };

    /// Replies to an ask that found no memory before it reached the desk. It takes none.
    fn miss(&mut self) -> Reply
        requires { 1 ≤ capacity self.old }
        ensures reply { result ≡ reply.Fixed constant.NoMemory }
        ensures outcomes { outcomes self.new ≡ outcomes self.old ++ outcome.NoMemory ∷ [] }
        ensures rooms { rooms self.new ≡ rooms self.old }
        ensures manner { manner self.new ≡ manner self.old }
        ensures capacity { capacity self.new + 1 ≡ capacity self.old }
        ensures fits { (store : S) → fits self.old store → fits self.new store }
        ensures exact_stays { (rooms : List Room) (log : ℕ) (state : State) → exact self.new rooms log state ↔ exact self.old rooms log state }
        ensures within_stays { (rooms : List Room) (log : ℕ) (state : State) → within self.new rooms log state ↔ within self.old rooms log state };

    /// How many more asks it has space for.
    fn left(&self) -> u64
        ensures { result ≡ capacity self.now };

    /// How many requests the histories of its rooms hold, up to the end of the type.
    fn held(&self) -> u64
        ensures { result ≡ min (entries (rooms self.now)) (2 ^ 64 - 1) };

    /// What failed gets its constant reply and leaves the rooms.
    ghost failures: { (desk : Self) → IsConstant (manner desk) };
}
