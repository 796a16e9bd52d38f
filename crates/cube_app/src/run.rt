// The top call: all that the program does.
ghost use Rattle.std.specs.Prelude.{◌≡◌, ◌⊎◌, ℕ, List, [], IfOk, IsTrue};
ghost use Rattle.cube_io.specs.Seen.{StoreState, seen};
ghost use Rattle.cube_io.specs.Wires.{LogEntry};
ghost use Rattle.cube_words.specs.Help.{help_said};
ghost use Rattle.cube_words.specs.Words.{orders_of as orders_in, Fits};
ghost use Rattle.cube_opening.specs.Causes.{HasCauses, only_out};
ghost use Rattle.cube_opening.specs.Outside.{outside};
ghost use Rattle.cube_opening.specs.Reports.{IsReport, NoMessage, Prints};
ghost use Rattle.cube_app.specs.Runs.{Obeyed, Permits, Runs};
ghost use Rattle.cube_app.specs.Texts.{usage_text as usage_words};
ghost use Rattle.cube_app.specs.TwinFiles.{TwinFilesMakeTwins, TwinTalksAreTheSame, TwinLogsAreTheSame};

use cube_commands::{
    Telling, advise, ask, audit, carry_over, check, draft, print, say_why, show, sum, tell,
};
use cube_io::{Folder, Sink, Source, Store, Wire};
use cube_model::{NoMemory, Text};
use cube_opening::{Message, Report, World, no_message, statuses, with_text};
use cube_serving::{Endpoint, replay_cube, serve_cube};
use cube_words::{Command, Orders, Usage, help, orders_of};
use std::alloc::Global;

const VERSION: &[u8] = b"cube 0.1.0\n";

fn usage_text(alloc: Global, words: &[Text], usage: Usage) -> Result<Text, NoMemory>
    ensures { IfOk result (λ text. text ≡ usage_words words.now usage) }
{
    match usage {
        Usage::NoCommand => Text::from_bytes(alloc, b"usage: no command\n"),
        Usage::Wrong(number) => {
            let mut text = Text::from_bytes(alloc, b"usage: ")?;
            if let Some(word) = words.get(number) {
                text.extend(word.as_slice())?;
            }
            text.extend(b"\n")?;
            Ok(text)
        }
        Usage::Missing(setting) => {
            let mut text = Text::from_bytes(alloc, b"usage: missing ")?;
            text.extend(setting.word())?;
            text.extend(b"\n")?;
            Ok(text)
        }
    }
}

fn refuse_words(alloc: Global, words: &[Text], usage: Usage) -> Report
    ensures { IsReport 2 (usage_words words.now usage) result ⊎ NoMessage result }
{
    match usage_text(alloc, words, usage) {
        Ok(text) => with_text(alloc, statuses::WRONG_WORDS, text),
        Err(_) => no_message(alloc),
    }
}

// Puts the help, or its part on a command.
fn print_help<O: Sink>(alloc: Global, message: Message, on: Option<Command>, out: &mut O) -> Report
    requires { message ≡ [] }
    ensures prints { Prints (help_said on) (seen O.state out.old out.new) result }
    ensures causes { HasCauses (only_out (seen O.state out.old out.new)) result }
    ensures outcomes { result.outcomes ≡ [] }
{
    match help(alloc, on) {
        Ok(text) => print(alloc, message, text.as_slice(), out),
        Err(_) => no_message(alloc),
    }
}

// Does what is ordered.
fn obey<F: Folder, S: Store, I: Source, O: Sink, W: Wire>(
    alloc: Global,
    message: Message,
    orders: Orders,
    world: &mut World<F, S, I, O, W>,
) -> Report
    requires message { message ≡ [] }
    requires fits { Fits orders }
    requires quiet { IsTrue (W.state world.old.wire).told → (W.state world.old.wire).log ≡ [] }
    requires permits { Permits {F = F} {S = S} F.state S.state O.allows W.allows world.old.files world.old.store (O.state world.old.out) (W.state world.old.wire) orders }
    ensures { Obeyed orders (outside F.state S.state I.state O.state W.state world.old world.new) result }
{
    match orders {
        Orders::Help { on } => print_help(alloc, message, on, &mut world.out),
        Orders::Version => print(alloc, message, VERSION, &mut world.out),
        Orders::Draft { drafting } => draft(alloc, message, &drafting, world),
        Orders::Sum { facts } => sum(alloc, message, &facts, world),
        Orders::Check { files: cube } => check(alloc, message, &cube, world),
        Orders::Ask {
            files: cube,
            journal,
            stated,
        } => ask(alloc, message, &cube, &journal, stated, world),
        Orders::Witness {
            files: cube,
            journal,
            cell,
        } => tell(
            alloc,
            message,
            Telling::Changes,
            &cube,
            &journal,
            &cell,
            world,
        ),
        Orders::Twin {
            files: cube,
            journal,
            cell,
        } => tell(alloc, message, Telling::Twin, &cube, &journal, &cell, world),
        Orders::Compact {
            files: cube,
            journal,
            out: _out,
        } => {
            let no_cell = Text::new(alloc);
            tell(
                alloc,
                message,
                Telling::Compacted,
                &cube,
                &journal,
                &no_cell,
                world,
            )
        }
        Orders::Carry {
            files: cube,
            older,
            journal,
            out: _out,
        } => carry_over(alloc, message, &cube, &older, &journal, world),
        Orders::Why {
            files: cube,
            journal,
            query,
            reason,
        } => say_why(alloc, message, &cube, &journal, &query, &reason, world),
        Orders::Audit {
            files: cube,
            transcript,
        } => audit(alloc, message, &cube, &transcript, world),
        Orders::Advise {
            files: cube,
            journal,
            workload,
        } => advise(alloc, message, &cube, &journal, &workload, world),
        Orders::Serve {
            files: cube,
            journal,
            address,
            stated,
            idle,
        } => {
            let endpoint = Endpoint {
                address: &address,
                idle,
            };
            serve_cube(alloc, message, &cube, &journal, stated, &endpoint, world)
        }
        Orders::Replay {
            files: cube,
            journal,
            script,
            stated,
        } => replay_cube(alloc, message, &cube, &journal, &script, stated, world),
        Orders::Demo { making } => show(alloc, message, making, world),
    }
}

/// All that the program does. It takes the words of the command line and the objects outside, and answers how the run ended.
#[tactic(auto, using(crate::proofs::Ordered::not_begun, crate::proofs::Ordered::refused_as, crate::proofs::Ordered::run_as, crate::proofs::TwinFiles::twin_files_make_twins))]
pub fn run<F: Folder, S: Store, I: Source, O: Sink, W: Wire>(
    alloc: Global,
    words: &[Text],
    world: &mut World<F, S, I, O, W>,
) -> Report
    requires quiet { IsTrue (W.state world.old.wire).told → (W.state world.old.wire).log ≡ [] }

    // What is answered goes out over a store that has kept it: an output and a wire that allow it only there are served.
    requires permits { IfOk (orders_in words.now) (Permits {F = F} {S = S} F.state S.state O.allows W.allows world.old.files world.old.store (O.state world.old.out) (W.state world.old.wire)) }
    ensures run { Runs words.now (orders_in words.now) (outside F.state S.state I.state O.state W.state world.old world.new) result }

    // Files that are the same but for the fact file, which is that of the twin, make the cube with the changes; and over them the same is
    // written, by `ask` and by `replay`.
    ensures twins { TwinFilesMakeTwins }
    ensures talks { TwinTalksAreTheSame }
    ensures logs { TwinLogsAreTheSame }
{
    let Ok(message) = Message::new(alloc) else {
        return no_message(alloc);
    };
    match orders_of(alloc, words) {
        Err(_) => no_message(alloc),
        Ok(Err(usage)) => refuse_words(alloc, words, usage),
        Ok(Ok(orders)) => obey(alloc, message, orders, world),
    }
}

/// The same, over an output and a wire that allow everything, as those of the machine do.
pub fn run_freely<F: Folder, S: Store, I: Source, O: Sink, W: Wire>(
    alloc: Global,
    words: &[Text],
    world: &mut World<F, S, I, O, W>,
) -> Report
    requires quiet { IsTrue (W.state world.old.wire).told → (W.state world.old.wire).log ≡ [] }
    requires pieces { (store : StoreState) (bytes piece : List ℕ) → O.allows store bytes piece }
    requires looks { (store : StoreState) (log : List LogEntry) → W.allows store log }
    ensures { Runs words.now (orders_in words.now) (outside F.state S.state I.state O.state W.state world.old world.new) result }
{
    run(alloc, words, world)
}
