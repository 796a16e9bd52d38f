// What a command says: a text is put, or a line refuses what was asked.
ghost use Rattle.std.specs.Prelude.{◌≡◌, ◌≢◌, ◌⊎◌, Bool, List, ℕ, [], IfOk, codes};
ghost use Rattle.cube_io.specs.Seen.{seen};
ghost use Rattle.cube_opening.specs.Causes.{HasCauses, only_out};
ghost use Rattle.cube_opening.specs.Reports.{IsReport, Prints};
ghost use Rattle.cube_commands.specs.Saying.{IsRefusal, Puts, PutsWhether, SaysSo, status_on};

use cube_io::{NullStore, Sink};
use cube_model::{NoMemory, Text};
use cube_opening::{Message, Report, refuse_line, statuses};
use std::alloc::Global;

/// Why nothing is said.
#[derive(Drop)]
pub enum Unsaid {
    /// By this line.
    Line(Text),
    NoMemory,
}

/// Puts a text.
pub fn print<O: Sink>(alloc: Global, message: Message, text: &[u8], out: &mut O) -> Report
    requires { message ≡ [] }
    ensures prints { Prints text.now (seen O.state out.old out.new) result }
    ensures causes { HasCauses (only_out (seen O.state out.old out.new)) result }
    ensures status { (result.status ≡ 0) ⊎ (result.status ≡ 6) }
    ensures outcomes { result.outcomes ≡ [] }
{
    match out.put(&NullStore::new(), text) {
        Ok(()) => message.close(alloc, statuses::DONE),
        Err(_) => message
            .with(b"output failed\n")
            .close(alloc, statuses::OUTPUT_FAILED),
    }
}

// The report where there is no memory for what is to be said.
fn put_none(alloc: Global, message: Message) -> Report
    requires { message ≡ [] }
    ensures { IsReport 7 (codes "no memory\n") result }
{
    message
        .with(b"no memory\n")
        .close(alloc, statuses::NO_MEMORY)
}

/// Puts a text for which there was memory.
pub fn put_text<O: Sink>(
    alloc: Global,
    message: Message,
    text: Result<Text, NoMemory>,
    out: &mut O,
) -> Report
    requires { message ≡ [] }
    ensures puts { (said : List ℕ) → IfOk text (λ text. text ≡ said) → Puts said (seen O.state out.old out.new) result }
    ensures causes { HasCauses (only_out (seen O.state out.old out.new)) result }
    ensures status { (result.status ≡ 0) ⊎ (result.status ≡ 6) ⊎ (result.status ≡ 7) }
    ensures outcomes { result.outcomes ≡ [] }
{
    match text {
        Ok(text) => print(alloc, message, text.as_slice(), out),
        Err(_) => put_none(alloc, message),
    }
}

// The status of what was put as a line on whether something is so.
fn say_whether(report: Report, yes: bool) -> Report
    ensures done { report.status ≡ 0 → result.status ≡ status_on yes }
    ensures other { report.status ≢ 0 → result.status ≡ report.status }
    ensures text { result.text ≡ report.text }
    ensures outcomes { result.outcomes ≡ report.outcomes }
{
    let status = if report.status == statuses::DONE && !yes {
        statuses::NOT_SO
    } else {
        report.status
    };
    Report {
        status,
        outcomes: report.outcomes,
        text: report.text,
    }
}

/// Puts a line on whether something is so, for which there was memory, with the status that says so.
pub fn put_whether<O: Sink>(
    alloc: Global,
    message: Message,
    said: Result<(Text, bool), NoMemory>,
    out: &mut O,
) -> Report
    requires { message ≡ [] }
    ensures puts { (text : List ℕ) (so : Bool) → IfOk said (λ said. (said.0 ≡ text) × (said.1 ≡ so)) → PutsWhether so text (seen O.state out.old out.new) result }
    ensures causes { HasCauses (only_out (seen O.state out.old out.new)) result }
    ensures status { (result.status ≡ 0) ⊎ (result.status ≡ 1) ⊎ (result.status ≡ 6) ⊎ (result.status ≡ 7) }
    ensures outcomes { result.outcomes ≡ [] }
{
    match said {
        Ok(line) => say_whether(print(alloc, message, line.0.as_slice(), out), line.1),
        Err(_) => put_none(alloc, message),
    }
}

/// Puts a text, or refuses what was asked by a line, which stands behind the words that say what it is, as `cell: `.
pub fn put_said<O: Sink>(
    alloc: Global,
    message: Message,
    before: &[u8],
    said: Result<Text, Unsaid>,
    out: &mut O,
) -> Report
    requires { message ≡ [] }
    ensures says { SaysSo before.now said (seen O.state out.old out.new) result }
    ensures refused { result.status ≡ 3 → IsRefusal said }
    ensures causes { HasCauses (only_out (seen O.state out.old out.new)) result }
    ensures status { (result.status ≡ 0) ⊎ (result.status ≡ 3) ⊎ (result.status ≡ 6) ⊎ (result.status ≡ 7) }
    ensures outcomes { result.outcomes ≡ [] }
{
    match said {
        Ok(text) => print(alloc, message, text.as_slice(), out),
        Err(Unsaid::Line(line)) => refuse_line(alloc, before, &line),
        Err(Unsaid::NoMemory) => put_none(alloc, message),
    }
}
