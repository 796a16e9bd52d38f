// A history that is carried over from an older cube to one that continues it.
ghost use Rattle.std.specs.Prelude.{◌≡◌, ◌≢◌, ◌⊎◌, ◌≤◌, ◌+◌, [], None, IsTrue, IfOk, IfErr};
ghost use Rattle.cube_model.specs.Entries.{requests};
ghost use Rattle.cube_model.specs.Policies.{IsPolicy};
ghost use Rattle.cube_io.specs.Seen.{seen};
ghost use Rattle.cube_carry.specs.Continues.{Continues, KeepsValues};
ghost use Rattle.cube_carry.specs.Names.{named};
ghost use Rattle.cube_carrying.specs.Comparing.{IsComparedBy};
ghost use Rattle.cube_carrying.specs.Histories.{IsCarriedBy};
ghost use Rattle.cube_carrying.specs.Places.{carried_places};
ghost use Rattle.cube_carrying.specs.declared.breach.Compared.TheVariants as compared;
ghost use Rattle.cube_carrying.specs.declared.histories.Carried.TheVariants as carried;
ghost use Rattle.cube_engine.specs.Kept.{digest_for};
ghost use Rattle.cube_journal.specs.SecondText.{journal2_text as second_text};
ghost use Rattle.cube_opening.specs.Causes.{HasCauses};
ghost use Rattle.cube_commands.specs.Ends.{AsksJournal};
ghost use Rattle.cube_opening.specs.Outside.{UsesJournal, counted, outside};
ghost use Rattle.cube_commands.specs.declared.saying.Unsaid.TheVariants as why;
ghost use Rattle.cube_commands.specs.Carrying.{Handing, Carries, IsUncarried, IsHanded, CarryEnds, CarryCompletes, carried_entries, handing_of};
ghost use Rattle.cube_starting.specs.Grouping.{OnlyFirst};

use crate::saying::{Unsaid, put_said};
use cube_carrying::{Breach, Carried, Compared, Stop, breach_text, carry, compare, stop_text};
use cube_core::Core;
use cube_engine::Book;
use cube_io::{Folder, Sink, Source, Store, Wire};
use cube_journal::{digest_of, journal2_text, public_text};
use cube_model::{Entry, History, NoMemory, Places, Policy, Text};
use cube_opening::{CubeFiles, Message, Report, World, open_guarded};
use cube_starting::open_book;
use std::alloc::Global;

// A line that was made, unless memory ran out.
fn line_or_none(line: Result<Text, NoMemory>) -> Unsaid
    ensures { (x : Handing) → IfOk line (λ text. IsUncarried x (why.Line text)) → IsUncarried x result }
{
    match line {
        Ok(line) => Unsaid::Line(line),
        Err(_) => Unsaid::NoMemory,
    }
}

// The line on what keeps a cube from continuing an older one.
fn broken(alloc: Global, older: &Book, core: &Core, policy: &Policy, breach: &Breach) -> Unsaid
    requires first { IsComparedBy (named older.now.core older.now.policy) (named core.now policy.now) older.now.core.cube core.now.cube (compared.Differs breach.now) }
    ensures { IsUncarried (handing_of older.now core.now policy.now) result }
{
    let _rules = older.policy();
    line_or_none(breach_text(alloc, older.core(), older.policy(), core, policy, breach))
}

// The line on what stops a history.
fn stopped(alloc: Global, older: &Book, core: &Core, policy: &Policy, stop: &Stop) -> Unsaid
    requires continues { Continues (named older.now.core older.now.policy) (named core.now policy.now) }
    requires values { KeepsValues (named older.now.core older.now.policy) (named core.now policy.now) older.now.core.cube core.now.cube }
    requires first { IsCarriedBy (named older.now.core older.now.policy) (named core.now policy.now) older.now.history (carried.Stopped stop.now) }
    ensures { IsUncarried (handing_of older.now core.now policy.now) result }
{
    let _older = older;
    line_or_none(stop_text(alloc, core, policy, stop))
}

// Entries as a journal of a cube.
fn journal_of(
    alloc: Global,
    core: &Core,
    policy: &Policy,
    entries: &[Entry],
) -> Result<Text, NoMemory>
    requires policy { IsPolicy core.now.dims policy.now }
    requires alone { requests entries.now ≡ [] }
    ensures { IfOk result (λ text. text ≡ second_text (digest_for core.now policy.now) entries.now) }
{
    let _rules = core.shape();
    let text = public_text(alloc, core.dims(), policy, core.shape())?;
    journal2_text(alloc, &digest_of(text.as_slice()), entries)
}

// The journal of the new cube that holds the carried entries.
fn written(
    alloc: Global,
    older: &Book,
    core: &Core,
    policy: &Policy,
    entries: &History,
) -> Result<Text, NoMemory>
    requires policy { IsPolicy core.now.dims policy.now }
    requires handed { IsHanded (handing_of older.now core.now policy.now) }
    requires entries { entries.now ≡ carried_entries (handing_of older.now core.now policy.now) }
    ensures { IfOk result (Carries (handing_of older.now core.now policy.now)) }
{
    let _rules = core.dims();
    let _older = older.core();
    journal_of(alloc, core, policy, entries.as_slice())
}

// What is carried over to a cube that continues an older one.
fn continued(
    alloc: Global,
    older: &Book,
    core: &Core,
    policy: &Policy,
    places: &Places,
) -> Result<Text, Unsaid>
    requires none { older.now.waiting ≡ None }
    requires policy { IsPolicy core.now.dims policy.now }
    requires continues { Continues (named older.now.core older.now.policy) (named core.now policy.now) }
    requires values { KeepsValues (named older.now.core older.now.policy) (named core.now policy.now) older.now.core.cube core.now.cube }
    requires places { places.now ≡ carried_places older.now.core core.now }
    ensures ok { IfOk result (Carries (handing_of older.now core.now policy.now)) }
    ensures err { IfErr result (IsUncarried (handing_of older.now core.now policy.now)) }
{
    let (old, old_policy) = (older.core(), older.policy());
    match carry(alloc, old, old_policy, older.state(), core, policy, places) {
        Err(_) => Err(Unsaid::NoMemory),
        Ok(Carried::Stopped(stop)) => Err(stopped(alloc, older, core, policy, &stop)),
        Ok(Carried::Entries(entries)) => match written(alloc, older, core, policy, &entries) {
            Ok(text) => Ok(text),
            Err(_) => Err(Unsaid::NoMemory),
        },
    }
}

// The journal of a cube that holds what the history of an older one told.
fn carried_over(alloc: Global, older: &Book, core: &Core, policy: &Policy) -> Result<Text, Unsaid>
    requires none { older.now.waiting ≡ None }
    requires policy { IsPolicy core.now.dims policy.now }
    ensures ok { IfOk result (Carries (handing_of older.now core.now policy.now)) }
    ensures err { IfErr result (IsUncarried (handing_of older.now core.now policy.now)) }
{
    let old_policy = older.policy();
    match compare(alloc, older.core(), old_policy, core, policy) {
        Err(_) => Err(Unsaid::NoMemory),
        Ok(Compared::Differs(breach)) => Err(broken(alloc, older, core, policy, &breach)),
        Ok(Compared::Continues(places)) => continued(alloc, older, core, policy, &places),
    }
}

/// Puts the journal of a cube that holds what the journal of an older one told, where the cube continues that one.
pub fn carry_over<F: Folder, S: Store, I: Source, O: Sink, W: Wire>(
    alloc: Global,
    message: Message,
    cube: &CubeFiles,
    older: &CubeFiles,
    journal: &Text,
    world: &mut World<F, S, I, O, W>,
) -> Report
    requires { message ≡ [] }
    ensures answers { CarryEnds cube.now older.now (outside F.state S.state I.state O.state W.state world.old world.new) result }
    ensures names { AsksJournal journal.now (seen S.state world.old.store world.new.store) result }
    ensures causes { HasCauses (counted (outside F.state S.state I.state O.state W.state world.old world.new)) result }
    ensures calls { IsTrue (S.state world.old.store).told → (S.state world.new.store).calls ≤ (S.state world.old.store).calls + 12 }
    ensures others { OnlyFirst 1 (S.state world.old.store) (S.state world.new.store) }
    ensures complete { CarryCompletes cube.now older.now (outside F.state S.state I.state O.state W.state world.old world.new) result }
    ensures outcomes { result.outcomes ≡ [] }
    ensures leaves { UsesJournal (outside F.state S.state I.state O.state W.state world.old world.new) }
{
    let opened = match open_guarded(alloc, message, cube, &mut world.files) {
        Ok(opened) => opened,
        Err(report) => return report,
    };
    let new = opened.value;
    let guarded = match open_guarded(alloc, opened.message, older, &mut world.files) {
        Ok(guarded) => guarded,
        Err(report) => return report,
    };
    let started = match open_book(
        alloc,
        guarded.message,
        guarded.value,
        journal,
        &mut world.store,
    ) {
        Ok(started) => started,
        Err(report) => return report,
    };
    let said = carried_over(alloc, &started.value, &new.core, &new.policy);
    put_said(alloc, started.message, b"carry: ", said, &mut world.out)
}
