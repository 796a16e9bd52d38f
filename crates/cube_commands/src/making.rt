// `demo`: what a made cube answers.
ghost use Rattle.std.specs.Prelude.{◌≡◌, ◌≢◌, []};
ghost use Rattle.cube_words.specs.Words.{IsMade};
ghost use Rattle.cube_opening.specs.Causes.{HasCauses};
ghost use Rattle.cube_opening.specs.Outside.{UsesOutput, counted, outside};
ghost use Rattle.cube_commands.specs.Making.{DemoRun};

use cube_demo::{DemoFault, demo};
use cube_io::{Folder, Sink, Source, Store, Wire};
use cube_opening::{Message, Report, World, statuses};
use cube_words::Making;
use std::alloc::Global;

/// Says what the cube that is made of a number and a size answers to made queries.
pub fn show<F: Folder, S: Store, I: Source, O: Sink, W: Wire>(
    alloc: Global,
    message: Message,
    making: Making,
    world: &mut World<F, S, I, O, W>,
) -> Report
    requires message { message ≡ [] }
    requires fits { IsMade making }
    ensures run { DemoRun making (outside F.state S.state I.state O.state W.state world.old world.new) result }
    ensures causes { HasCauses (counted (outside F.state S.state I.state O.state W.state world.old world.new)) result }
    ensures outcomes { result.outcomes ≡ [] }
    ensures leaves { UsesOutput (outside F.state S.state I.state O.state W.state world.old world.new) }
{
    match demo(alloc, making.number, making.size, &mut world.out) {
        Ok(()) => message.close(alloc, statuses::DONE),
        Err(DemoFault::OutputFailed) => message
            .with(b"output failed\n")
            .close(alloc, statuses::OUTPUT_FAILED),
        Err(DemoFault::NoMemory) => message
            .with(b"no memory\n")
            .close(alloc, statuses::NO_MEMORY),
    }
}
