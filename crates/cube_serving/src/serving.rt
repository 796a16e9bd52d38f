// `serve`: the groups of the files are asked by the connections of a wire.
ghost use Rattle.std.specs.Prelude.{◌≡◌, ◌≢◌, ◌⊎◌, ◌≤◌, ◌+◌, ◌*◌, [], IsTrue};
ghost use Rattle.cube_io.specs.Seen.{seen};
ghost use Rattle.cube_opening.specs.Causes.{HasCauses};
ghost use Rattle.cube_opening.specs.Outside.{counted, outside, UsesWire};
ghost use Rattle.cube_opening.specs.Ruling.{most_groups};
ghost use Rattle.cube_server.specs.declared.serving.ServeFault.TheVariants as fault;
ghost use Rattle.cube_starting.specs.Grouping.{OnlyFirst};
ghost use Rattle.cube_starting.specs.Starting.{AsksStore};
ghost use Rattle.cube_serving.specs.Serving.{PermitsServing, ServeEnds, ServeCompletes, Hears, served_status, served_text};

use crate::housing::serve_groups;
use cube_io::{Folder, Sink, Source, Store, Wire};
use cube_model::{Outcomes, Text};
use cube_opening::{Message, Report, RuledFiles, World, open_ruled, spent_message, statuses};
use cube_server::{Pool, ServeFault};
use cube_starting::open_groups;
use std::alloc::Global;

/// Where connections are listened for, and after how many seconds without a word one is closed.
#[derive(Clone, Copy)]
pub struct Endpoint<'a> {
    /// The address.
    pub address: &'a Text,
    /// The seconds.
    pub idle: u32,
}

/// The most events that are taken of a wire.
pub(crate) const MAX_EVENTS: u64 = 1 << 40;

// The report on how a serving ended.
pub(crate) fn report_serving(
    message: Message,
    end: Result<(), ServeFault>,
    outcomes: Outcomes,
) -> Report
    requires { message ≡ [] }
    ensures status { result.status ≡ served_status end }
    ensures text { result.text ≡ served_text end }
    ensures outcomes { result.outcomes ≡ outcomes }
{
    match end {
        Ok(()) => message.close_with(statuses::DONE, outcomes),
        Err(ServeFault::WireFailed) => message
            .with(b"wire failed\n")
            .close_with(statuses::WIRE_FAILED, outcomes),
        Err(ServeFault::Spent { requests, events }) => {
            spent_message(message, requests, events).close_with(statuses::ALL_SPENT, outcomes)
        }
    }
}

/// Answers the asks of the connections of a wire by the groups over the cube of the files, each from the history on that its journal
/// holds.
pub fn serve_cube<F: Folder, S: Store, I: Source, O: Sink, W: Wire>(
    alloc: Global,
    message: Message,
    cube: &RuledFiles,
    journal: &Text,
    stated: u64,
    endpoint: &Endpoint,
    world: &mut World<F, S, I, O, W>,
) -> Report
    requires message { message ≡ [] }
    requires stated { 1 ≤ stated }
    requires quiet { IsTrue (W.state world.old.wire).told → (W.state world.old.wire).log ≡ [] }
    requires permits { IsTrue (W.state world.old.wire).told → PermitsServing {F = F} {S = S} cube.now stated F.state S.state W.allows world.old.files world.old.store }
    ensures answers { ServeEnds cube.now stated (outside F.state S.state I.state O.state W.state world.old world.new) result }
    ensures names { (world.new.store ≡ world.old.store) ⊎ AsksStore journal.now (seen S.state world.old.store world.new.store) result }
    ensures heard { (world.new.wire ≡ world.old.wire) ⊎ Hears endpoint.now.address.now endpoint.now.idle (seen W.state world.old.wire world.new.wire) result }
    ensures others { OnlyFirst (most_groups cube.now.rules) (S.state world.old.store) (S.state world.new.store) }
    ensures causes { HasCauses (counted (outside F.state S.state I.state O.state W.state world.old world.new)) result }
    ensures calls { result.status ≡ 9 → IsTrue (S.state world.old.store).told → (S.state world.new.store).calls ≤ (S.state world.old.store).calls + (1 + 11 * most_groups cube.now.rules) }
    ensures memory { result.status ≡ 7 → (result.outcomes ≡ []) × (IsTrue (W.state world.old.wire).told → (W.state world.new.wire).log ≡ []) }
    ensures complete { ServeCompletes cube.now (outside F.state S.state I.state O.state W.state world.old world.new) result }
    ensures leaves { UsesWire (outside F.state S.state I.state O.state W.state world.old world.new) }
{
    let opened = match open_ruled(alloc, message, cube, &mut world.files) {
        Ok(opened) => opened,
        Err(report) => return report,
    };
    let started = match open_groups(
        alloc,
        opened.message,
        opened.value,
        journal,
        stated,
        &mut world.store,
    ) {
        Ok(started) => started,
        Err(report) => return report,
    };
    let Ok(mut pool) = Pool::new(alloc) else {
        return started
            .message
            .with(b"no memory\n")
            .close(alloc, statuses::NO_MEMORY);
    };
    match world.wire.listen(endpoint.address, endpoint.idle) {
        Ok(()) => {}
        Err(_) => return started
            .message
            .with(b"wire failed\n")
            .close(alloc, statuses::WIRE_FAILED),
    }
    let mut groups = started.value;
    let end = serve_groups(
        alloc,
        &mut groups,
        &mut world.store,
        &mut world.wire,
        &mut pool,
    );
    report_serving(started.message, end, groups.finish())
}
