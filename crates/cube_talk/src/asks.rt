// The lines of `ask`, each of which a desk answers.
ghost use Rattle.std.specs.Prelude.{◌≡◌, ◌≢◌, ◌==◌, ◌≤◌, ◌∷◌, [], IsTrue, true, false, length, IfOk};
ghost use Rattle.cube_io.specs.Desks.{entries};
ghost use Rattle.cube_io.specs.Seen.{seen};
ghost use Rattle.cube_talk.specs.Asks.{ask_of as ask_in, question_of as question_in};
ghost use Rattle.cube_talk.specs.Crashes.{AnswersDurably, TalkedOver};
ghost use Rattle.cube_talk.specs.Moments.{moment};
ghost use Rattle.cube_talk.specs.Putting.{Permits};
ghost use Rattle.cube_talk.specs.Replies.{reply_text};
ghost use Rattle.cube_talk.specs.Talk.{RoseWhere};
ghost use Rattle.cube_talk.specs.CrashLaws.{serves_none, serves_onward, serves_alike};

use crate::carry::Carry;
use crate::replies::Said;
use crate::responder::{MAX_LINE, Responder};
use crate::talk::{Ending, TalkEnd, converse};
use cube_io::{Desk, Sink, Source, Store};
use cube_model::{Ask, Fixed, NoMemory, Question, Reply, Text};
use std::alloc::Global;

/// Answers lines as asks of a desk. A line that is too long is no ask.
#[derive(Drop)]
pub struct Asks<D> {
    /// The desk.
    pub desk: D,
}

// The line that asks for the shape.
const SHAPE: &[u8] = b"shape";

// What a line that asks for changes begins with.
const WITNESS: &[u8] = b"witness ";

// The question that a line is.
fn question_of(alloc: Global, line: &[u8]) -> Result<Question, NoMemory>
    ensures { IfOk result (λ question. question ≡ question_in line.now) }
{
    if line == SHAPE {
        return Ok(Question::Shape);
    }
    if line.starts_with(WITNESS) {
        let cell = Text::from_bytes(alloc, &line[WITNESS.len()..])?;
        return Ok(Question::Witness(cell));
    }
    Ok(Question::Query(Text::from_bytes(alloc, line)?))
}

// What a line asks for.
fn ask_of(alloc: Global, line: &[u8]) -> Result<Ask, NoMemory>
    ensures { IfOk result (λ ask. ask ≡ ask_in line.now) }
{
    Ok(Ask {
        group: None,
        question: question_of(alloc, line)?,
    })
}

// Asks the desk.
fn ask<S: Store, D: Desk<S>>(alloc: Global, desk: &mut D, store: &mut S, line: &[u8]) -> Reply
    requires short { length line.now ≤ 65536 }
    requires capacity { 1 ≤ D.capacity desk.old }
    requires fits { D.fits desk.old store.old }
    ensures serves { let at = moment D.manner D.rooms D.outcomes D.capacity D.exact D.within in
        AnswersDurably (at desk.old (S.state store.old)) (at desk.new (S.state store.new)) (line.now ∷ []) (reply_text result) }
    ensures fits { D.fits desk.new store.new }
    ensures told { (S.state store.new).told ≡ (S.state store.old).told }
{
    match ask_of(alloc, line) {
        Ok(ask) => desk.answer(alloc, store, &ask),
        Err(_) => desk.miss(),
    }
}

impl<S: Store, D: Desk<S> + Drop> Responder<S> for Asks<D> {
    ghost says = { λ x s ls y t text.
        let at = moment D.manner D.rooms D.outcomes D.capacity D.exact D.within in
        AnswersDurably (at x.desk (S.state s)) (at y.desk (S.state t)) ls text };

    ghost stands = { λ x s. D.fits x.desk s };

    ghost done = { λ x. D.capacity x.desk == 0 };

    ghost kept = { λ x. entries (D.rooms x.desk) };

    ghost lacks = { false };

    ghost silent = { λ x s. serves_none (moment D.manner D.rooms D.outcomes D.capacity D.exact D.within x.desk (S.state s)) };

    ghost onward = { λ x y z s t u first more text behind.
        let at = moment D.manner D.rooms D.outcomes D.capacity D.exact D.within in
        serves_onward (at x.desk (S.state s)) (at y.desk (S.state t)) (at z.desk (S.state u)) first more text behind };

    ghost alike = { λ x y s t line other text.
        let at = moment D.manner D.rooms D.outcomes D.capacity D.exact D.within in
        serves_alike (at x.desk (S.state s)) (at y.desk (S.state t)) line other text };

    fn answer(&mut self, alloc: Global, store: &mut S, line: &[u8]) -> Result<Said, NoMemory> {
        if line.len() > MAX_LINE {
            return Ok(Said::Reply(Reply::Fixed(Fixed::TooLarge)));
        }
        let reply = ask(alloc, &mut self.desk, store, line);
        Ok(Said::Reply(reply))
    }

    fn held(&self) -> u64 {
        self.desk.held()
    }

    fn is_done(&self) -> bool {
        self.desk.left() == 0
    }
}

/// Answers the lines of the input as asks of a desk. Says how that ended, and gives the desk back.
pub fn converse_by_asks<S: Store, D: Desk<S> + Drop, I: Source, O: Sink>(
    alloc: Global,
    carry: Carry,
    desk: D,
    store: &mut S,
    input: &mut I,
    out: &mut O,
) -> (TalkEnd, D)
    requires carry { carry ≡ [] }
    requires fits { D.fits desk store.old }
    requires capacity { 1 ≤ D.capacity desk }
    requires fresh { D.outcomes desk ≡ [] }
    requires permits { let at = moment D.manner D.rooms D.outcomes D.capacity D.exact D.within in
        Permits (λ d s ls e t text. AnswersDurably (at d (S.state s)) (at e (S.state t)) ls text) (λ d. entries (D.rooms d)) S.state O.allows desk store.old (O.state out.old).written }
    ensures talked { let at = moment D.manner D.rooms D.outcomes D.capacity D.exact D.within in
        TalkedOver (at desk (S.state store.old)) (at result.1 (S.state store.new)) result.0 (seen I.state input.old input.new) (seen O.state out.old out.new) }
    ensures later { (S.state store.old).faults ≤ (S.state store.new).faults }
    ensures sight { IsTrue (S.state store.old).told → (O.state out.new).loose ≡ (O.state out.old).loose }
    ensures memory { result.0.ending ≢ Ending.NoMemory }
    ensures ended { result.0.ending ≡ Ending.Ended → (I.state input.new).ended ≡ true }
    ensures input { RoseWhere (result.0.ending ≡ Ending.InputFailed) (I.state input.old).faults (I.state input.new).faults }
    ensures output { RoseWhere (result.0.ending ≡ Ending.OutputFailed) (O.state out.old).faults (O.state out.new).faults }
{
    let mut asks = Asks { desk };
    let end = converse(alloc, carry, &mut asks, store, input, out);
    (end, asks.desk)
}
