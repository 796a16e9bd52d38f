// The lines of `sum`, each of which is answered by the sum of the rows that match it.
ghost use Rattle.std.specs.Prelude.{◌≡◌, [], ℕ, List, IsTrue, ⊤, true, refl, IfOk};
ghost use Rattle.std.proofs.Common.{◌∙◌};
ghost use Rattle.cube_io.specs.Seen.{seen};
ghost use Rattle.cube_talk.specs.Sums.{AnswersSums, answer, shown, is_done, Talked};
ghost use Rattle.cube_talk.specs.Talk.{RoseWhere};
ghost use Rattle.cube_talk.specs.SumLaws.{none, onward, alike};

use crate::carry::Carry;
use crate::replies::Said;
use crate::responder::{MAX_LINE, Responder};
use crate::talk::{Ending, TalkEnd, converse};
use cube_facts::{Flat, FlatReply, sum_flat};
use cube_io::{Sink, Source, Store};
use cube_model::{NoMemory, Text};
use cube_text::write_units;
use std::alloc::Global;

const MAX_LINES: u64 = 16_777_216;

fn shown_text(alloc: Global, reply: FlatReply) -> Result<Text, NoMemory>
    ensures { IfOk result (λ text. text ≡ shown reply) }
{
    match reply {
        FlatReply::Sum(sum) => {
            let mut text = write_units(alloc, sum, 0)?;
            text.extend(b"\n")?;
            Ok(text)
        }
        FlatReply::Fields => Text::from_bytes(alloc, b"bad line: fields\n"),
        FlatReply::Quote => Text::from_bytes(alloc, b"bad line: quote\n"),
    }
}

fn answer_by_sum(alloc: Global, flat: &Flat, line: &[u8]) -> Result<Text, NoMemory>
    ensures { IfOk result (λ text. text ≡ answer flat.now line.now) }
{
    if line.len() > MAX_LINE {
        return Text::from_bytes(alloc, b"bad line: too long\n");
    }
    shown_text(alloc, sum_flat(flat, line))
}

/// Answers lines by sums over a flat fact file, at most 16,777,216 of them.
#[derive(Drop)]
pub struct Sums {
    /// The rows of the file.
    pub flat: Flat,
    /// How many lines were answered.
    pub lines: u64,
}

impl<S: Store> Responder<S> for Sums {
    ghost says = { λ x s ls y t text. AnswersSums x y ls text × (t ≡ s) };

    ghost stands = { λ x s. ⊤ };

    ghost done = { is_done };

    ghost kept = { λ x. 0 };

    ghost lacks = { true };

    ghost silent = { λ x s. (none x, refl) };

    ghost onward = { λ x y z s t u first more text behind h k. (onward x y z first more text behind h.0 k.0, k.1 ∙ h.1) };

    ghost alike = { λ x y s t line other text long longer h. (alike x y line other text long longer h.0, h.1) };

    fn answer(&mut self, alloc: Global, _store: &mut S, line: &[u8]) -> Result<Said, NoMemory> {
        let text = answer_by_sum(alloc, &self.flat, line)?;
        self.lines += 1;
        Ok(Said::Text(text))
    }

    fn held(&self) -> u64 {
        0
    }

    fn is_done(&self) -> bool {
        self.lines >= MAX_LINES
    }
}

/// Answers the lines of the input by sums over a flat fact file. Says how that ended, and how many lines were answered.
#[tactic(auto, using(crate::proofs::SumTalk::talked))]
pub fn converse_by_sums<S: Store, I: Source, O: Sink>(
    alloc: Global,
    carry: Carry,
    flat: Flat,
    store: &mut S,
    input: &mut I,
    out: &mut O,
) -> (TalkEnd, u64)
    requires carry { carry ≡ [] }
    requires permits { IsTrue (S.state store.old).told → (bytes piece : List ℕ) → O.allows (S.state store.old) bytes piece }
    ensures talked { Talked flat result.0 result.1 (seen I.state input.old input.new) (seen O.state out.old out.new) }
    ensures ended { result.0.ending ≡ Ending.Ended → (I.state input.new).ended ≡ true }
    ensures input { RoseWhere (result.0.ending ≡ Ending.InputFailed) (I.state input.old).faults (I.state input.new).faults }
    ensures output { RoseWhere (result.0.ending ≡ Ending.OutputFailed) (O.state out.old).faults (O.state out.new).faults }
    ensures sight { IsTrue (S.state store.old).told → (O.state out.new).loose ≡ (O.state out.old).loose }
    ensures store { store.new ≡ store.old }
{
    let mut sums = Sums { flat, lines: 0 };
    let end = converse(alloc, carry, &mut sums, store, input, out);
    (end, sums.lines)
}
