// Groups: books with names, each kept in a log of one store, and the desk over them.
ghost use Rattle.std.specs.Prelude.{◌≡◌, ◌≢◌, ◌<◌, ◌≤◌, ◌+◌, ◌-◌, ◌^◌, ◌++◌, ◌∷◌, [], min, None, Some, IsTrue, IfOk, IfErr, OnOk, OnErr, length, option_map, slice_get};
ghost use Rattle.std.specs.List.{position};
ghost use Rattle.cube_model.specs.declared.outcome.Outcome.{Outcome};
ghost use Rattle.cube_model.specs.declared.outcome.Outcome.TheVariants as outcome;
ghost use Rattle.cube_model.specs.Cubes.{Each};
ghost use Rattle.cube_model.specs.Dims.{Dims};
ghost use Rattle.cube_model.specs.Policies.{IsPolicy};
ghost use Rattle.cube_model.specs.Rooms.{aim, room_of, missed_by};
ghost use Rattle.cube_io.specs.Desks.{most_calls, entries};
ghost use Rattle.cube_io.specs.States.{Gained};
ghost use Rattle.cube_io.specs.Told.{Works, OthersStay};
ghost use Rattle.cube_journal.specs.Keeping.{IsInRecovery};
ghost use Rattle.cube_engine.specs.Constant.{manner_is_constant};
ghost use Rattle.cube_engine.specs.Kept.{history_of, IsExact, IsWithin};
ghost use Rattle.cube_engine.specs.Opening.{StartCause, IsStartFault};
ghost use Rattle.cube_engine.specs.Steps as steps;
ghost use Rattle.cube_starting.specs.NamedBooks.{rooms_of, dims_of, is_named, any_failed, IsKeptIn, AreInOrder, places_of, HoldsAt, IsTurn, IsCounted, IsAdded};
ghost use Rattle.cube_starting.specs.declared.named.NamedBook.{NamedBook};

use crate::named::NamedBook;
use cube_engine::{Book, SharedCore, StartFault, Turns};
use cube_io::{Desk, Store};
use cube_model::{Ask, Fixed, Kind, NoMemory, Outcome, Outcomes, Policy, Reply, Text};
use std::alloc::Global;
use std::marker::Model;

// The name of the room that an ask goes to.
fn aim_of(ask: &Ask) -> &[u8]
    ensures { result.now ≡ aim ask.now.group }
{
    match &ask.group {
        Some(name) => name.as_slice(),
        None => &[],
    }
}

// The place of the book with a name.
fn find_book(books: &[NamedBook], name: &[u8]) -> Option<usize>
    ensures { result ≡ position (is_named name.now) books.now }
{
    books.iter().position(|g| g.name.as_slice() == name)
}

// The reply to an ask that goes to no room.
fn miss_ask(alloc: Global, group: &Option<Text>) -> (Reply, Outcome)
    ensures reply { (s : Dims) → result.0 ≡ missed_by (steps.by_words s) result.1 group.now }
    ensures fine { result.1 ≢ outcome.JournalFault }
{
    match group {
        None => (Reply::Fixed(Fixed::NoPath), Outcome::Given),
        Some(_) => match Text::from_bytes(alloc, b"unknown group\n") {
            Ok(body) => (
                Reply::Made {
                    status: 404,
                    kind: Kind::Plain,
                    body,
                },
                Outcome::Given,
            ),
            Err(_) => (Reply::Fixed(Fixed::NoMemory), Outcome::NoMemory),
        },
    }
}

// Answers an ask by the book at a place, which has the name.
fn answer_at<S: Store>(
    books: &mut Vec<NamedBook>,
    place: usize,
    alloc: Global,
    store: &mut S,
    ask: &Ask,
) -> (Reply, Outcome)
    requires place { position (is_named (aim ask.now.group)) books.old.items ≡ Some place }
    requires order { AreInOrder books.old.items }
    requires attached { IsTrue (S.state store.old).attached }
    requires kept { IsTrue (S.state store.old).told → Each (IsKeptIn (S.state store.old).logs) books.old.items }
    ensures turn { IsTurn books.old.items books.new.items ask.now result.0 result.1 (S.state store.old) (S.state store.new) }
    ensures untouched { (steps.manner (dims_of books.old.items)).next (rooms_of books.old.items) ask.now outcome.Given ≡ rooms_of books.old.items → store.new ≡ store.old }
    ensures memory { result.1 ≡ outcome.NoMemory → store.new ≡ store.old }
{
    books[place].book.answer(alloc, store, &ask.question)
}

// Answers an ask by the book that it goes to.
fn answer_by<S: Store>(
    books: &mut Vec<NamedBook>,
    alloc: Global,
    store: &mut S,
    ask: &Ask,
) -> (Reply, Outcome)
    requires order { AreInOrder books.old.items }
    requires attached { IsTrue (S.state store.old).attached }
    requires kept { IsTrue (S.state store.old).told → Each (IsKeptIn (S.state store.old).logs) books.old.items }
    ensures turn { IsTurn books.old.items books.new.items ask.now result.0 result.1 (S.state store.old) (S.state store.new) }
    ensures untouched { (steps.manner (dims_of books.old.items)).next (rooms_of books.old.items) ask.now outcome.Given ≡ rooms_of books.old.items → store.new ≡ store.old }
    ensures memory { result.1 ≡ outcome.NoMemory → store.new ≡ store.old }
{
    match find_book(books.as_slice(), aim_of(ask)) {
        Some(place) => answer_at(books, place, alloc, store, ask),
        None => miss_ask(alloc, &ask.group),
    }
}

// Adds a book behind the others.
fn push_book(books: &mut Vec<NamedBook>, name: Text, book: Book) -> Result<(), NoMemory>
    ensures ok { OnOk result (books.new.items ≡ books.old.items ++ record { name = name; book = book } ∷ []) }
    ensures err { OnErr result (books.new.items ≡ books.old.items) }
{
    books.push(NamedBook { name, book })?;
    Ok(())
}

// The number of the log of the next book.
fn next_log(books: &Vec<NamedBook>) -> u32
    requires { length books.now.items ≤ 16 }
    ensures { result ≡ length books.now.items }
{
    books.as_slice().len() as u32
}

// Adds a book with the history that the next log of the store recovers.
fn add_book<S: Store>(
    books: &mut Vec<NamedBook>,
    alloc: Global,
    store: &mut S,
    name: Text,
    core: SharedCore,
    policy: Policy,
) -> Result<(), StartFault>
    requires order { AreInOrder books.old.items }
    requires few { length books.old.items < 16 }
    requires free { room_of name (rooms_of books.old.items) ≡ None }
    requires alike { Each (λ g. g.book.core.dims ≡ core.dims) books.old.items }
    requires policy { IsPolicy core.dims policy }
    requires attached { IsTrue (S.state store.old).attached }
    requires kept { IsTrue (S.state store.old).told → Each (IsKeptIn (S.state store.old).logs) books.old.items }
    ensures cause { StartCause (S.state store.old).faults (S.state store.new).faults result }
    ensures works { Works (S.state store.old) (S.state store.new) 6 }
    ensures others { OthersStay (length books.old.items) (S.state store.old) (S.state store.new) }
    ensures order { AreInOrder books.new.items }
    ensures ok { OnOk result (IsAdded books.old.items books.new.items name core policy (S.state store.old) (S.state store.new)) }
    ensures err { OnErr result (books.new.items ≡ books.old.items) }
    ensures quiet { any_failed books.new.items ≡ any_failed books.old.items }
    ensures fault { IsTrue (S.state store.old).told → IfErr result (IsStartFault (history_of core policy ((S.state store.old).logs (length books.old.items)).state.now) ((S.state store.old).logs (length books.old.items)).state.now) }
    ensures kept { IsTrue (S.state store.old).told → Each (IsKeptIn (S.state store.new).logs) books.new.items }
    ensures crash { IsTrue (S.state store.old).told → Gained (IsInRecovery (history_of core policy) ((S.state store.old).logs (length books.old.items)).state) ((S.state store.old).logs (length books.old.items)) ((S.state store.new).logs (length books.old.items)) }
{
    let log = next_log(books);
    let book = match Book::start(alloc, core, policy, store, log) {
        Ok(book) => book,
        Err(fault) => return Err(fault),
    };
    let _rules = book.core();
    match push_book(books, name, book) {
        Ok(()) => Ok(()),
        Err(_) => Err(StartFault::NoMemory),
    }
}

// How many requests the histories of some books hold, up to the end of the type.
fn held_by(books: &[NamedBook]) -> u64
    ensures { result ≡ min (entries (rooms_of books.now)) (2 ^ 64 - 1) }
{
    match books.split_first() {
        Some((first, others)) => first.held().saturating_add(held_by(others)),
        None => 0,
    }
}

/// Groups of users, each with a book of its own, and the outcomes of their asks. Group number k from 0 is kept in log k of
/// the store.
#[derive(Drop)]
pub struct Groups {
    books: Vec<NamedBook>,
    turns: Turns,
}

impl Model for Groups {
    ghost use Rattle.std.specs.Prelude.{◌≡◌, true};
    ghost use Rattle.cube_io.specs.Desks.{has_fault};
    ghost use Rattle.cube_starting.specs.NamedBooks as said;

    ghost Value = { said.Groups };

    ghost view = { λ g. record { books = g.books.items; outcomes = g.turns.outcomes; left = g.turns.left } };

    // The last keep of a book failed only where the journal failed for an ask.
    ghost invariant = { λ g. said.AreInOrder g.books.items × (said.any_failed g.books.items ≡ true → has_fault g.turns.outcomes ≡ true) };
}

impl Groups {
    /// No group yet, with space for so many asks.
    pub fn new(alloc: Global, capacity: u64) -> Result<Groups, NoMemory>
        ensures { IfOk result (λ groups. groups ≡ record { books = []; outcomes = []; left = capacity }) }
    {
        let turns = Turns::new(alloc, capacity)?;
        Ok(Groups {
            books: Vec::new(alloc),
            turns,
        })
    }

    /// Adds a group, with the history that the next log of the store recovers. After a refusal the groups are as before.
    pub fn add<S: Store>(
        &mut self,
        alloc: Global,
        store: &mut S,
        name: Text,
        core: SharedCore,
        policy: Policy,
    ) -> Result<(), StartFault>
        requires few { length self.old.books < 16 }
        requires free { room_of name (rooms_of self.old.books) ≡ None }
        requires alike { Each (λ g. g.book.core.dims ≡ core.dims) self.old.books }
        requires policy { IsPolicy core.dims policy }
        requires attached { IsTrue (S.state store.old).attached }
        requires kept { IsTrue (S.state store.old).told → Each (IsKeptIn (S.state store.old).logs) self.old.books }
        ensures cause { StartCause (S.state store.old).faults (S.state store.new).faults result }
        ensures works { Works (S.state store.old) (S.state store.new) 6 }
        ensures others { OthersStay (length self.old.books) (S.state store.old) (S.state store.new) }
        ensures outcomes { self.new.outcomes ≡ self.old.outcomes }
        ensures left { self.new.left ≡ self.old.left }
        ensures ok { OnOk result (IsAdded self.old.books self.new.books name core policy (S.state store.old) (S.state store.new)) }
        ensures err { OnErr result (self.new.books ≡ self.old.books) }

        // Each fault comes by the bytes of the log, or by memory or the store.
        ensures fault { IsTrue (S.state store.old).told → IfErr result (IsStartFault (history_of core policy ((S.state store.old).logs (length self.old.books)).state.now) ((S.state store.old).logs (length self.old.books)).state.now) }
        ensures kept { IsTrue (S.state store.old).told → Each (IsKeptIn (S.state store.new).logs) self.new.books }

        // At each moment of the call the log is as at entry, or each image recovers what the log recovered at entry.
        ensures crash { IsTrue (S.state store.old).told → Gained (IsInRecovery (history_of core policy) ((S.state store.old).logs (length self.old.books)).state) ((S.state store.old).logs (length self.old.books)) ((S.state store.new).logs (length self.old.books)) }
    {
        add_book(&mut self.books, alloc, store, name, core, policy)
    }

    /// How many groups there are.
    pub fn len(&self) -> usize
        ensures len { result ≡ length self.now.books }
        ensures order { AreInOrder self.now.books }
    {
        self.books.as_slice().len()
    }

    /// The book of a group: its cube, its policy, and what its history holds.
    pub fn book(&self, place: usize) -> &Book
        requires { place < length self.now.books }
        ensures { option_map (λ g. g.book) (slice_get self.now.books place) ≡ Some result.now }
    {
        &self.books[place].book
    }

    /// The book of the one group that there is.
    pub fn only(self) -> Book
        requires { length self.books ≡ 1 }
        ensures { (named : NamedBook) → self.books ≡ named ∷ [] → result ≡ named.book }
    {
        let mut books = self.books;
        books.remove(0).book
    }

    /// What became of the asks so far, in turn.
    pub fn outcomes(&self) -> &[Outcome]
        ensures { result.now ≡ self.now.outcomes }
    {
        self.turns.outcomes()
    }

    /// What became of the asks. It takes no memory.
    pub fn finish(self) -> Outcomes
        ensures { result ≡ self.outcomes }
    {
        self.turns.finish()
    }

    // Answers an ask and takes down what became of it.
    fn answer_ask<S: Store>(&mut self, alloc: Global, store: &mut S, ask: &Ask) -> Reply
        requires left { 1 ≤ self.old.left }
        requires attached { IsTrue (S.state store.old).attached }
        requires kept { IsTrue (S.state store.old).told → Each (IsKeptIn (S.state store.old).logs) self.old.books }
        ensures counted { IsCounted self.old self.new ask.now result (S.state store.old) (S.state store.new) }
        ensures works { Works (S.state store.old) (S.state store.new) (most_calls self.old.outcomes) }
        ensures untouched { (steps.manner (dims_of self.old.books)).next (rooms_of self.old.books) ask.now outcome.Given ≡ rooms_of self.old.books → store.new ≡ store.old }
        ensures memory { self.new.outcomes ≡ self.old.outcomes ++ outcome.NoMemory ∷ [] → store.new ≡ store.old }
    {
        let (reply, outcome) = answer_by(&mut self.books, alloc, store, ask);
        self.turns.record(outcome);
        reply
    }

    // Takes down an ask that found no memory.
    fn record_miss(&mut self)
        requires { 1 ≤ self.old.left }
        ensures books { self.new.books ≡ self.old.books }
        ensures outcomes { self.new.outcomes ≡ self.old.outcomes ++ outcome.NoMemory ∷ [] }
        ensures left { self.new.left + 1 ≡ self.old.left }
    {
        self.turns.record(Outcome::NoMemory);
    }

    // How many more asks there is space for.
    fn capacity(&self) -> u64
        ensures { result ≡ self.now.left }
    {
        self.turns.left()
    }

    // How many requests the histories hold, up to the end of the type.
    fn entries_held(&self) -> u64
        ensures { result ≡ min (entries (rooms_of self.now.books)) (2 ^ 64 - 1) }
    {
        held_by(self.books.as_slice())
    }
}

impl<S: Store> Desk<S> for Groups {
    ghost manner = { λ e. steps.manner (dims_of e.books) };

    ghost rooms = { λ e. rooms_of e.books };

    ghost outcomes = { λ e. e.outcomes };

    ghost capacity = { λ e. e.left };

    ghost fits = { λ e store. IsTrue (S.state store).attached × (IsTrue (S.state store).told → Each (IsKeptIn (S.state store).logs) e.books) };

    ghost exact = { λ e rooms log state. HoldsAt IsExact (places_of e.books) rooms log state };

    ghost within = { λ e rooms log state. HoldsAt IsWithin (places_of e.books) rooms log state };

    fn answer(&mut self, alloc: Global, store: &mut S, ask: &Ask) -> Reply {
        self.answer_ask(alloc, store, ask)
    }

    fn miss(&mut self) -> Reply {
        self.record_miss();
        Reply::Fixed(Fixed::NoMemory)
    }

    fn left(&self) -> u64 {
        self.capacity()
    }

    fn held(&self) -> u64 {
        self.entries_held()
    }

    ghost failures = { λ e. manner_is_constant (dims_of e.books) };
}
