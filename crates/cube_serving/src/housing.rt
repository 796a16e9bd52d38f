// Groups that serve a wire, each by itself.
ghost use Rattle.std.specs.Prelude.{◌≡◌, ◌≢◌, ◌≤◌, [], length, IsTrue, Err};
ghost use Rattle.cube_io.specs.Causes.{Rose, RoseBy};
ghost use Rattle.cube_io.specs.Desks.{faults_in};
ghost use Rattle.cube_io.specs.Told.{PlaysOn};
ghost use Rattle.cube_engine.specs.Worlds.{IsRuled};
ghost use Rattle.cube_model.specs.Cores.{Core};
ghost use Rattle.cube_model.specs.Cubes.{Each};
ghost use Rattle.cube_server.specs.Pools.{IsFree};
ghost use Rattle.cube_server.specs.declared.serving.ServeFault.TheVariants as fault;
ghost use Rattle.cube_starting.specs.Grouping.{OnlyFrom};
ghost use Rattle.cube_starting.specs.NamedBooks.{IsKeptIn};
ghost use Rattle.cube_serving.specs.Serving.{ServeWire, PermitsGroups};

use crate::serving::MAX_EVENTS;
use cube_io::{Store, Wire};
use cube_server::{Pool, ServeFault, serve};
use cube_starting::Groups;
use std::alloc::Global;

/// Serves a wire by groups over one core that were asked nothing before. The replies to what reaches a group are those of its
/// room alone, and the log tells nothing of a protected cell of any group: over the world with the changes for it in the room
/// of that group the log would be the same. Each journal survives by itself.
pub fn serve_groups<S: Store, W: Wire>(
    alloc: Global,
    groups: &mut Groups,
    store: &mut S,
    wire: &mut W,
    pool: &mut Pool,
) -> Result<(), ServeFault>
    requires attached { IsTrue (S.state store.old).attached }
    requires kept { IsTrue (S.state store.old).told → Each (IsKeptIn (S.state store.old).logs) groups.old.books }
    requires some { 1 ≤ length groups.old.books }
    requires rules { Each (λ b. IsRuled b.book) groups.old.books }
    requires unasked { groups.old.outcomes ≡ [] }
    requires capacity { 1 ≤ groups.old.left }
    requires pool { IsFree pool.old }
    requires quiet { IsTrue (W.state wire.old).told → (W.state wire.old).log ≡ [] }
    requires permits { IsTrue (W.state wire.old).told → PermitsGroups {S = S} S.state W.allows groups.old store.old }
    ensures served { (core : Core) → Each (λ b. b.book.core ≡ core) groups.old.books → ServeWire S.state core groups.old groups.new result (W.state wire.old).told (W.state wire.new).log store.old store.new }
    ensures others { OnlyFrom 0 (length groups.old.books) (S.state store.old) (S.state store.new) }
    ensures asks { RoseBy (faults_in groups.new.outcomes) (S.state store.old).faults (S.state store.new).faults }
    ensures failed { result ≡ Err fault.WireFailed → Rose (W.state wire.old).faults (W.state wire.new).faults }
    ensures steady { result ≢ Err fault.WireFailed → (W.state wire.new).faults ≡ (W.state wire.old).faults }
    ensures told { (S.state store.new).told ≡ (S.state store.old).told }
    ensures stored { IsTrue (S.state store.old).told → (S.state store.new).names ≡ (S.state store.old).names }
    ensures plays { PlaysOn (W.state wire.old) (W.state wire.new) }
{
    let _order = groups.len();
    serve(alloc, groups, store, wire, pool, MAX_EVENTS)
}
