// The answers to the lines of an input.
ghost use Rattle.std.specs.Prelude.{position, min, ◌^◌, IsTrue, ◌≡◌, ◌≢◌, ◌⊎◌, ◌<◌, ◌≤◌, ◌+◌, ◌-◌, ◌++◌, ◌∷◌, [], ℕ, List, length, take, false, true, All, IfOk, OnOk, OnErr, IfSome, IfNone, Ok, Some, None, Option};
ghost use Rattle.std.specs.Str.Lines.{strip_carriage_return};
ghost use Rattle.std.specs.Io.KnownBytes.{Appends, Consumes};
ghost use Rattle.cube_io.specs.Causes.{Rose, HasCause};
ghost use Rattle.cube_io.specs.Content.{AppendsPrefix};
ghost use Rattle.cube_io.specs.Seen.{seen};
ghost use Rattle.cube_talk.specs.Lines.{is_feed};
ghost use Rattle.cube_talk.specs.Talk.{IsKept, Spoke, Puts, RoseWhere, Conversed};
ghost use Rattle.cube_talk.specs.Putting.{Permits, MayPut, MayAnswer, InSight};
ghost use Rattle.cube_talk.specs.Replies.{said_text};
ghost use Rattle.cube_talk.specs.Piece.{PieceSays, HeardLine, HeardAll, HeardSome, PutsBy, Follows, Stops};

use crate::carry::Carry;
use crate::replies::{Replies, Said};
use crate::responder::Responder;
use cube_io::{Failed, Sink, Source, Store};
use std::alloc::Global;

/// How the talk over an input ended.
#[derive(Clone, Copy, Debug, PartialEq, Eq)]
pub enum Ending {
    /// The input came to its end.
    Ended,
    /// A read failed.
    InputFailed,
    /// A put failed.
    OutputFailed,
    /// There was no memory for an answer.
    NoMemory,
    /// As many lines or bytes were taken as are taken at most.
    Spent,
}

const MAX_INPUT: u64 = 1 << 40;

const PIECE: usize = 65_536;

fn without_return(line: &[u8]) -> &[u8]
    ensures { result.now ≡ strip_carriage_return line.now }
{
    match line.split_last() {
        Some((b'\r', front)) => front,
        _ => line,
    }
}

// What stands before the first line feed, and what behind it.
fn cut_line(bytes: &[u8]) -> Option<(&[u8], &[u8])>
    ensures some { IfSome result (λ cut. (bytes.now ≡ cut.0.now ++ 10 ∷ cut.1.now) × All (λ b. is_feed b ≡ false) cut.0.now) }
    ensures none { IfNone result (All (λ b. is_feed b ≡ false) bytes.now) }
{
    match find_feed(bytes) {
        Some(at) => Some((&bytes[..at], &bytes[at + 1..])),
        None => None,
    }
}

fn find_feed(bytes: &[u8]) -> Option<usize>
    ensures { result ≡ position is_feed bytes.now }
{
    bytes.iter().position(|byte| *byte == b'\n')
}

/// How far some lines were answered.
#[derive(Clone, Copy, Debug, PartialEq, Eq)]
enum Heard {
    All,
    Spent,
    NoMemory,
    OutputFailed,
}

// Whether a count may have changed. It stays at the end of its type, and tells nothing there.
fn is_kept(before: u64, now: u64) -> bool
    ensures { (m n : ℕ) → before ≡ min m (2 ^ 64 - 1) → now ≡ min n (2 ^ 64 - 1) → result ≡ false → n ≡ m }
{
    now != before || now == u64::MAX
}

// Says what is said to a line. Where the line was kept, all that waits is written.
#[tactic(auto, using(crate::proofs::Puttings::may_wait, crate::proofs::Puttings::spoke_written, crate::proofs::Spoken::spoke_half))]
fn say_line<S: Store, O: Sink>(
    store: &S,
    said: &Said,
    kept: bool,
    replies: &mut Replies,
    out: &mut O,
) -> Result<(), Failed>
    requires { MayPut O.allows (S.state store.now) (O.state out.old).written (replies.old ++ said_text said.now) }
    ensures ok { OnOk result (Spoke (said_text said.now) replies.old replies.new (O.state out.old).written (O.state out.new).written) }
    ensures at_once { kept ≡ true → OnOk result (replies.new ≡ []) }
    ensures err { OnErr result (AppendsPrefix (O.state out.old).written (O.state out.new).written (replies.old ++ said_text said.now)) }
    ensures cause { HasCause (O.state out.old).faults (O.state out.new).faults result }
    ensures sight { IsTrue (S.state store.now).told → (O.state out.new).loose ≡ (O.state out.old).loose }
{
    replies.say(store, out, said)?;
    if kept {
        replies.flush(store, out)?;
    }
    Ok(())
}

// Answers a line. All that waits is written, unless the count shows that nothing was kept.
fn answer_line<S: Store, R: Responder<S>, O: Sink>(
    alloc: Global,
    responder: &mut R,
    store: &mut S,
    line: &[u8],
    replies: &mut Replies,
    out: &mut O,
) -> Heard
    requires stands { R.stands responder.old store.old }
    requires going { R.done responder.old ≡ false }
    requires permits { MayAnswer R.says S.state O.allows responder.old store.old (line.now ∷ []) (O.state out.old).written replies.old }
    ensures said { result ≢ Heard.NoMemory → HeardLine R.says (PieceSays result replies.old replies.new (O.state out.old).written (O.state out.new).written) responder.old responder.new store.old store.new line.now }
    ensures settled { result ≢ Heard.OutputFailed → (R.kept responder.new ≡ R.kept responder.old) ⊎ (replies.new ≡ []) }
    ensures memory { result ≡ Heard.NoMemory → (responder.new ≡ responder.old) × (store.new ≡ store.old) × (replies.new ≡ replies.old) × (out.new ≡ out.old) × (R.lacks ≡ true) }
    ensures going { result ≡ Heard.All → R.done responder.new ≡ false }
    ensures spent { result ≡ Heard.Spent → R.done responder.new ≡ true }
    ensures faults { RoseWhere (result ≡ Heard.OutputFailed) (O.state out.old).faults (O.state out.new).faults }
    ensures sight { InSight (S.state store.old) (S.state store.new) (O.state out.old).loose (O.state out.new).loose }
    ensures stands { R.stands responder.new store.new }
{
    let before = responder.held();
    let said = match responder.answer(alloc, store, line) {
        Ok(said) => said,
        Err(_) => return Heard::NoMemory,
    };
    let kept = is_kept(before, responder.held());
    match say_line(store, &said, kept, replies, out) {
        Ok(()) => {}
        Err(_) => return Heard::OutputFailed,
    }
    if responder.is_done() {
        return Heard::Spent;
    }
    Heard::All
}

// Answers the lines that end in a piece.
fn answer_piece<S: Store, R: Responder<S>, O: Sink>(
    alloc: Global,
    responder: &mut R,
    store: &mut S,
    piece: &[u8],
    carry: &mut Carry,
    replies: &mut Replies,
    out: &mut O,
) -> Heard
    requires stands { R.stands responder.old store.old }
    requires going { R.done responder.old ≡ false }
    requires empty { replies.old ≡ [] }
    requires permits { Permits R.says R.kept S.state O.allows responder.old store.old (O.state out.old).written }
    ensures all { result ≡ Heard.All → (open_part : List ℕ) → IsKept carry.old open_part
        → HeardAll R.says (PieceSays result replies.old replies.new (O.state out.old).written (O.state out.new).written) responder.old responder.new store.old store.new open_part piece.now carry.new }
    ensures some { result ≢ Heard.All → (open_part : List ℕ) → IsKept carry.old open_part
        → HeardSome R.says (PieceSays result replies.old replies.new (O.state out.old).written (O.state out.new).written) responder.old responder.new store.old store.new open_part piece.now }
    ensures may { result ≢ Heard.OutputFailed → MayPut O.allows (S.state store.new) (O.state out.new).written replies.new }
    ensures going { result ≡ Heard.All → R.done responder.new ≡ false }
    ensures spent { result ≡ Heard.Spent → R.done responder.new ≡ true }
    ensures memory { result ≡ Heard.NoMemory → R.lacks ≡ true }
    ensures faults { RoseWhere (result ≡ Heard.OutputFailed) (O.state out.old).faults (O.state out.new).faults }
    ensures sight { InSight (S.state store.old) (S.state store.new) (O.state out.old).loose (O.state out.new).loose }
    ensures stands { R.stands responder.new store.new }
{
    let mut rest = piece;
    'lines: loop {
        let Some((line, behind)) = cut_line(rest) else {
            carry.extend(rest);
            return Heard::All;
        };
        carry.extend(line);
        let line = without_return(carry.as_slice());
        match answer_line(alloc, responder, store, line, replies, out) {
            Heard::All => {}
            heard => return heard,
        }
        carry.clear();
        rest = behind;
    }
}

// Writes what waits behind lines that were answered so far. Says how the talk ends, if it does.
#[tactic(auto, using(crate::proofs::Spoken::spoke_flushed, crate::proofs::Spoken::spoke_half))]
fn flush_heard<S: Store, O: Sink>(
    heard: Heard,
    store: &S,
    replies: &mut Replies,
    out: &mut O,
) -> Option<Ending>
    requires { heard ≢ Heard.OutputFailed → MayPut O.allows (S.state store.now) (O.state out.old).written replies.old }
    ensures puts { (start : Option (List ℕ)) (text : List ℕ) → PieceSays heard [] replies.old start (O.state out.old).written text → PutsBy result start (O.state out.new).written text }
    ensures follows { Follows heard result }
    ensures empty { result ≡ None → replies.new ≡ [] }
    ensures quiet { replies.old ≡ [] → heard ≢ Heard.OutputFailed → result ≢ Some Ending.OutputFailed }
    ensures failed { result ≡ Some Ending.OutputFailed → ((heard ≡ Heard.OutputFailed) × (out.new ≡ out.old)) ⊎ ((heard ≢ Heard.OutputFailed) × Rose (O.state out.old).faults (O.state out.new).faults) }
    ensures steady { result ≢ Some Ending.OutputFailed → (heard ≢ Heard.OutputFailed) × ((O.state out.new).faults ≡ (O.state out.old).faults) }
    ensures sight { IsTrue (S.state store.now).told → (O.state out.new).loose ≡ (O.state out.old).loose }
{
    if heard == Heard::OutputFailed {
        return Some(Ending::OutputFailed);
    }
    match replies.flush(store, out) {
        Ok(()) => {}
        Err(_) => return Some(Ending::OutputFailed),
    }
    match heard {
        Heard::Spent => Some(Ending::Spent),
        Heard::NoMemory => Some(Ending::NoMemory),
        _ => None,
    }
}

// Answers the lines that end in a piece, and writes the answers together. Says how the talk ends, if it does.
fn take_piece<S: Store, R: Responder<S>, O: Sink>(
    alloc: Global,
    responder: &mut R,
    store: &mut S,
    piece: &[u8],
    carry: &mut Carry,
    replies: &mut Replies,
    out: &mut O,
) -> Option<Ending>
    requires stands { R.stands responder.old store.old }
    requires going { R.done responder.old ≡ false }
    requires empty { replies.old ≡ [] }
    requires permits { Permits R.says R.kept S.state O.allows responder.old store.old (O.state out.old).written }
    ensures all { result ≡ None → (open_part : List ℕ) → IsKept carry.old open_part
        → HeardAll R.says (Appends (O.state out.old).written (O.state out.new).written) responder.old responder.new store.old store.new open_part piece.now carry.new }
    ensures some { IfSome result (λ ending. (open_part : List ℕ) → IsKept carry.old open_part
        → HeardSome R.says (Puts ending (O.state out.old).written (O.state out.new).written) responder.old responder.new store.old store.new open_part piece.now) }
    ensures stops { IfSome result (λ ending. Stops ending (R.done responder.new) R.lacks) }
    ensures going { result ≡ None → (R.done responder.new ≡ false) × (replies.new ≡ []) }
    ensures faults { RoseWhere (result ≡ Some Ending.OutputFailed) (O.state out.old).faults (O.state out.new).faults }
    ensures sight { InSight (S.state store.old) (S.state store.new) (O.state out.old).loose (O.state out.new).loose }
    ensures stands { R.stands responder.new store.new }
{
    let heard = answer_piece(alloc, responder, store, piece, carry, replies, out);
    flush_heard(heard, store, replies, out)
}

/// How a talk ended, and how many bytes of the input were taken.
#[derive(Clone, Copy, Debug, PartialEq, Eq)]
pub struct TalkEnd {
    pub ending: Ending,
    pub bytes: u64,
}

// Reads some bytes to the front of the buffer, at most so many: none at the end.
fn read_piece<I: Source>(input: &mut I, buf: &mut [u8], most: u64) -> Result<usize, Failed>
    requires capacity { 0 < length buf.old }
    requires some { 0 < most }
    ensures bound { IfOk result (λ n. (n ≤ length buf.new) × (n ≤ most)) }
    ensures bytes { IfOk result (λ n. Consumes (I.state input.old).left (I.state input.new).left (take n buf.new)) }
    ensures end { result ≡ Ok 0 → (I.state input.new).ended ≡ true }
    ensures err { OnErr result (Consumes (I.state input.old).left (I.state input.new).left []) }
    ensures cause { HasCause (I.state input.old).faults (I.state input.new).faults result }
{
    let capacity = if most < buf.len() as u64 {
        most as usize
    } else {
        buf.len()
    };
    input.read(&mut buf[..capacity])
}

// The end of the input: a last line without a line feed counts where it isn't empty.
fn finish<S: Store, R: Responder<S>, O: Sink>(
    alloc: Global,
    responder: &mut R,
    store: &mut S,
    carry: &Carry,
    replies: &mut Replies,
    out: &mut O,
) -> Ending
    requires stands { R.stands responder.old store.old }
    requires going { R.done responder.old ≡ false }
    requires empty { replies.old ≡ [] }
    requires permits { Permits R.says R.kept S.state O.allows responder.old store.old (O.state out.old).written }
    ensures none { carry.now ≡ [] → (result ≡ Ending.Ended) × (responder.new ≡ responder.old) × (store.new ≡ store.old) × (out.new ≡ out.old) }
    ensures said { carry.now ≢ [] → result ≢ Ending.NoMemory → HeardLine R.says (Puts result (O.state out.old).written (O.state out.new).written) responder.old responder.new store.old store.new carry.now }
    ensures memory { result ≡ Ending.NoMemory → (responder.new ≡ responder.old) × (store.new ≡ store.old) × Appends (O.state out.old).written (O.state out.new).written [] × (R.lacks ≡ true) }
    ensures ended { result ≡ Ending.Ended → R.done responder.new ≡ false }
    ensures spent { result ≡ Ending.Spent → R.done responder.new ≡ true }
    ensures others { result ≢ Ending.InputFailed }
    ensures faults { RoseWhere (result ≡ Ending.OutputFailed) (O.state out.old).faults (O.state out.new).faults }
    ensures sight { InSight (S.state store.old) (S.state store.new) (O.state out.old).loose (O.state out.new).loose }
    ensures stands { R.stands responder.new store.new }
{
    if carry.as_slice().is_empty() {
        return Ending::Ended;
    }
    let heard = answer_line(alloc, responder, store, carry.as_slice(), replies, out);
    match flush_heard(heard, store, replies, out) {
        Some(ending) => ending,
        None => Ending::Ended,
    }
}

/// Answers the lines of the input in turn. The answers to the lines that end in one piece of the input are put together, up to a line
/// that was kept: its answer is written before the next line is answered.
pub fn converse<S: Store, R: Responder<S>, I: Source, O: Sink>(
    alloc: Global,
    carry: Carry,
    responder: &mut R,
    store: &mut S,
    input: &mut I,
    out: &mut O,
) -> TalkEnd
    requires carry { carry ≡ [] }
    requires stands { R.stands responder.old store.old }
    requires going { R.done responder.old ≡ false }
    requires permits { Permits R.says R.kept S.state O.allows responder.old store.old (O.state out.old).written }
    ensures conversed { Conversed R.says responder.old responder.new store.old store.new (R.done responder.new) result (seen I.state input.old input.new) (seen O.state out.old out.new) }
    ensures ended { result.ending ≡ Ending.Ended → (I.state input.new).ended ≡ true }
    ensures memory { result.ending ≡ Ending.NoMemory → R.lacks ≡ true }
    ensures input { RoseWhere (result.ending ≡ Ending.InputFailed) (I.state input.old).faults (I.state input.new).faults }
    ensures output { RoseWhere (result.ending ≡ Ending.OutputFailed) (O.state out.old).faults (O.state out.new).faults }
    ensures sight { InSight (S.state store.old) (S.state store.new) (O.state out.old).loose (O.state out.new).loose }
    ensures stands { R.stands responder.new store.new }
{
    let mut buf = [0u8; PIECE];
    let mut carry = carry;
    let mut replies = Replies::new(alloc);
    let mut bytes = 0u64;
    'reads: while bytes < MAX_INPUT {
        let count = match read_piece(input, &mut buf, MAX_INPUT - bytes) {
            Ok(0) => {
                let ending = finish(alloc, responder, store, &carry, &mut replies, out);
                return TalkEnd { ending, bytes };
            }
            Ok(count) => count,
            Err(_) => {
                return TalkEnd {
                    ending: Ending::InputFailed,
                    bytes,
                };
            }
        };
        bytes += count as u64;
        let piece = &buf[..count];
        match take_piece(
            alloc,
            responder,
            store,
            piece,
            &mut carry,
            &mut replies,
            out,
        ) {
            None => {}
            Some(ending) => return TalkEnd { ending, bytes },
        }
    }
    TalkEnd {
        ending: Ending::Spent,
        bytes,
    }
}
