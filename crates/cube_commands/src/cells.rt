// What is told of an open cube: the changes that hide a cell or the fact file that they make, or the history written down as what it
// holds.
ghost use Rattle.std.specs.Prelude.{◌≡◌, ◌≢◌, ◌⊎◌, ◌≤◌, ◌+◌, ◌++◌, ℕ, List, Result, [], None, IsTrue, IfOk, IfErr, Ok, Err, codes};
ghost use Rattle.cube_io.specs.Seen.{seen};
ghost use Rattle.cube_engine.specs.Changes.{Refuses};
ghost use Rattle.cube_opening.specs.Causes.{HasCauses};
ghost use Rattle.cube_commands.specs.Ends.{AsksJournal};
ghost use Rattle.cube_opening.specs.Outside.{UsesJournal, counted, outside};
ghost use Rattle.cube_commands.specs.Cells.{IsTold, TellEnds, TellCompletes, told_text, unless_too_long as unless_long};
ghost use Rattle.cube_commands.specs.Saying.{IsUnsaidBy};
ghost use Rattle.cube_starting.specs.Grouping.{OnlyFirst};

use crate::saying::{Unsaid, put_said};
use cube_engine::{Book, NoChanges};
use cube_io::{Folder, MAX_FILE, Sink, Source, Store, Wire};
use cube_model::Text;
use cube_opening::{CubeFiles, Message, Report, World, open_guarded};
use cube_starting::open_book;
use std::alloc::Global;

/// What is told of an open cube.
#[derive(Clone, Copy, Debug, PartialEq, Eq)]
pub enum Telling {
    /// The changes that hide a cell.
    Changes,
    /// The fact file of the cube with these changes.
    Twin,
    /// The history written down as what it holds, as a journal. The cell plays no part.
    Compacted,
}

// A twin whose fact file no command reads.
fn too_long(alloc: Global) -> NoChanges
    ensures { (said : Result (List ℕ) (ℕ × List ℕ)) → said ≡ Err (413, codes "twin limit file 67108864\n") → Refuses result said }
{
    match Text::from_bytes(alloc, b"twin limit file 67108864\n") {
        Ok(line) => NoChanges::Said { status: 413, line },
        Err(_) => NoChanges::NoMemory,
    }
}

// The fact file of a twin, unless it is longer than one that is read may be.
fn unless_too_long(alloc: Global, twin: Result<Text, NoChanges>) -> Result<Text, NoChanges>
    ensures ok { IfOk result (λ text. (said : Result (List ℕ) (ℕ × List ℕ)) → IfOk twin (λ twin. said ≡ Ok twin) → unless_long said ≡ Ok text) }
    ensures err { IfErr result (λ why. (said : Result (List ℕ) (ℕ × List ℕ)) → IfOk twin (λ twin. said ≡ Ok twin) → IfErr twin (λ why. Refuses why said) → Refuses why (unless_long said)) }
{
    match twin {
        Ok(text) if text.len() > MAX_FILE => Err(too_long(alloc)),
        Ok(text) => Ok(text),
        Err(why) => Err(why),
    }
}

// What a book has of a cell.
fn found_of(alloc: Global, book: &Book, telling: Telling, cell: &Text) -> Result<Text, NoChanges>
    requires { book.now.waiting ≡ None }
    ensures ok { IfOk result (λ text. told_text telling book.now.core book.now.policy book.now.history cell.now ≡ Ok text) }
    ensures err { IfErr result (λ why. Refuses why (told_text telling book.now.core book.now.policy book.now.history cell.now)) }
{
    match telling {
        Telling::Changes => book.changes_text(alloc, cell.as_slice()),
        Telling::Twin => unless_too_long(alloc, book.twin_text(alloc, cell.as_slice())),
        Telling::Compacted => match book.compacted_text(alloc) {
            Ok(text) => Ok(text),
            Err(_) => Err(NoChanges::NoMemory),
        },
    }
}

// Why nothing is told.
fn untold(why: NoChanges) -> Unsaid
    ensures { (found : Result (List ℕ) (ℕ × List ℕ)) → Refuses why found → IsUnsaidBy (IsTold found) result }
{
    match why {
        NoChanges::Said { line, .. } => Unsaid::Line(line),
        NoChanges::NoMemory => Unsaid::NoMemory,
    }
}

// What a book tells of a cell.
fn told_of(alloc: Global, book: &Book, telling: Telling, cell: &Text) -> Result<Text, Unsaid>
    requires { book.now.waiting ≡ None }
    ensures ok { IfOk result (λ text. IsTold (told_text telling book.now.core book.now.policy book.now.history cell.now) (Ok text)) }
    ensures err { IfErr result (IsUnsaidBy (IsTold (told_text telling book.now.core book.now.policy book.now.history cell.now))) }
{
    match found_of(alloc, book, telling, cell) {
        Ok(text) => Ok(text),
        Err(why) => Err(untold(why)),
    }
}

/// Puts what is to be told, by the history that the journal holds.
pub fn tell<F: Folder, S: Store, I: Source, O: Sink, W: Wire>(
    alloc: Global,
    message: Message,
    telling: Telling,
    cube: &CubeFiles,
    journal: &Text,
    cell: &Text,
    world: &mut World<F, S, I, O, W>,
) -> Report
    requires { message ≡ [] }
    ensures answers { TellEnds telling cube.now cell.now (outside F.state S.state I.state O.state W.state world.old world.new) result }
    ensures names { AsksJournal journal.now (seen S.state world.old.store world.new.store) result }
    ensures causes { HasCauses (counted (outside F.state S.state I.state O.state W.state world.old world.new)) result }
    ensures calls { IsTrue (S.state world.old.store).told → (S.state world.new.store).calls ≤ (S.state world.old.store).calls + 12 }
    ensures others { OnlyFirst 1 (S.state world.old.store) (S.state world.new.store) }
    ensures complete { TellCompletes telling cube.now cell.now (outside F.state S.state I.state O.state W.state world.old world.new) result }
    ensures outcomes { result.outcomes ≡ [] }
    ensures leaves { UsesJournal (outside F.state S.state I.state O.state W.state world.old world.new) }
{
    let opened = match open_guarded(alloc, message, cube, &mut world.files) {
        Ok(opened) => opened,
        Err(report) => return report,
    };
    let _rules = opened.value.core.dims();
    let started = match open_book(
        alloc,
        opened.message,
        opened.value,
        journal,
        &mut world.store,
    ) {
        Ok(started) => started,
        Err(report) => return report,
    };
    let told = told_of(alloc, &started.value, telling, cell);
    put_said(alloc, started.message, b"cell: ", told, &mut world.out)
}
