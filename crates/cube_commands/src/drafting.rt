// `draft`: the dimension file or the policy file for a fact file.
ghost use Rattle.std.specs.Prelude.{◌≡◌, ◌≢◌, []};
ghost use Rattle.cube_opening.specs.Causes.{HasCauses};
ghost use Rattle.cube_opening.specs.Outside.{UsesFiles, counted, outside};
ghost use Rattle.cube_commands.specs.Drafting.{DraftRun, Undrafted, text_in};

use crate::saying::print;
use cube_draft::{Draft, DraftFault, draft_files, fault_text};
use cube_io::{Folder, Sink, Source, Store, Wire};
use cube_model::Text;
use cube_opening::{Message, Report, World, no_message, read_bytes, refuse, statuses};
use cube_words::Drafting;
use std::alloc::Global;

// The report on a fault of a draft.
fn refuse_draft(alloc: Global, message: Message, fault: DraftFault) -> Report
    requires { message ≡ [] }
    ensures { Undrafted result }
{
    match fault {
        DraftFault::NoMemory => message
            .with(b"no memory\n")
            .close(alloc, statuses::NO_MEMORY),
        other => match fault_text(alloc, &other) {
            Ok(words) => refuse(alloc, b"draft", &words),
            Err(_) => no_message(alloc),
        },
    }
}

// The text that is asked for.
fn text_of<'a>(drafting: &Drafting, draft: &'a Draft) -> &'a Text
    ensures { result.now ≡ text_in drafting.now draft.now }
{
    if drafting.policy {
        &draft.policy
    } else {
        &draft.dims
    }
}

/// Prints the dimension file or the policy file that is drafted for a fact file.
pub fn draft<F: Folder, S: Store, I: Source, O: Sink, W: Wire>(
    alloc: Global,
    message: Message,
    drafting: &Drafting,
    world: &mut World<F, S, I, O, W>,
) -> Report
    requires { message ≡ [] }
    ensures answers { DraftRun drafting.now (outside F.state S.state I.state O.state W.state world.old world.new) result }
    ensures causes { HasCauses (counted (outside F.state S.state I.state O.state W.state world.old world.new)) result }
    ensures outcomes { result.outcomes ≡ [] }
    ensures leaves { UsesFiles (outside F.state S.state I.state O.state W.state world.old world.new) }
{
    let opened = match read_bytes(alloc, message, b"facts", &drafting.facts, &mut world.files) {
        Ok(opened) => opened,
        Err(report) => return report,
    };
    match draft_files(alloc, opened.value.as_slice(), &drafting.choices) {
        Ok(drafted) => print(
            alloc,
            opened.message,
            text_of(drafting, &drafted).as_slice(),
            &mut world.out,
        ),
        Err(fault) => refuse_draft(alloc, opened.message, fault),
    }
}
