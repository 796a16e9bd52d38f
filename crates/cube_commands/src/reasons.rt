// Why a query is refused, and whether a text says so.
ghost use Rattle.std.specs.Prelude.{◌≡◌, ◌≢◌, ◌⊎◌, ◌≤◌, ◌+◌, ◌↔◌, ◌++◌, ◌∷◌, [], None, true, IsTrue, IfOk, IfErr, IfSome, OnOk, Ok};
ghost use Rattle.cube_model.specs.Cores.{shown};
ghost use Rattle.cube_model.specs.Verdicts.{verdict as verdict_of};
ghost use Rattle.cube_io.specs.Seen.{seen};
ghost use Rattle.cube_query.specs.Canonical.{is_request};
ghost use Rattle.cube_query.specs.Faults.{request_of};
ghost use Rattle.cube_reason.specs.Showing.{IsWhy, Shows};
ghost use Rattle.cube_opening.specs.Causes.{HasCauses};
ghost use Rattle.cube_commands.specs.Ends.{AsksJournal};
ghost use Rattle.cube_opening.specs.Outside.{UsesJournal, counted, outside};
ghost use Rattle.cube_opening.specs.Opening.{AskedFor, EndsAt, FileSays, Reads};
ghost use Rattle.cube_commands.specs.Reasons.{Accepts, IsWhyOf, IsWhetherOf, IsUnread, IsUnsaid, WhyEnds, WhyCompletes, WhetherEnds, WhetherCompletes, ReasonRun, accepted_text, reason_said};
ghost use Rattle.cube_starting.specs.Grouping.{OnlyFirst};

use crate::saying::{Unsaid, put_said};
use cube_engine::Book;
use cube_io::{Folder, Sink, Source, Store, Wire};
use cube_model::{NoMemory, Request, Text};
use cube_opening::{
    CubeFiles, Message, Opened, Report, World, open_guarded, read_bytes, refuse_line, statuses,
};
use cube_query::{RequestFault, read_request};
use cube_reason::{accept_text, why_text};
use cube_starting::open_book;
use std::alloc::Global;

// The line on a text that is no query.
fn unread(alloc: Global, fault: RequestFault) -> Unsaid
    ensures { IsUnread fault result }
{
    match fault.body(alloc) {
        Ok(line) => Unsaid::Line(line),
        Err(_) => Unsaid::NoMemory,
    }
}

// The request that a query is.
fn request_in(alloc: Global, book: &Book, query: &Text) -> Result<Request, Unsaid>
    ensures ok { IfOk result (λ request. request_of book.now.core.dims query.now ≡ Ok request) }
    ensures valid { IfOk result (λ request. is_request book.now.core.dims request ≡ true) }
    ensures err { IfErr result (IsUnsaid book.now.core query.now) }
{
    match read_request(alloc, book.core().dims(), query.as_slice()) {
        Ok(request) => Ok(request),
        Err(RequestFault::NoMemory) => Err(Unsaid::NoMemory),
        Err(fault) => Err(unread(alloc, fault)),
    }
}

// Why a request is refused behind the history of a book.
fn why_refused(alloc: Global, book: &mut Book, request: &Request) -> Result<Text, NoMemory>
    requires none { book.old.waiting ≡ None }
    requires request { is_request book.old.core.dims request.now ≡ true }
    ensures { IfOk result (λ text. IsWhy book.old.core.dims (shown book.old.core book.old.policy) book.old.history request.now (verdict_of (shown book.old.core book.old.policy) book.old.history request.now) text) }
{
    let verdict = book.verdict(alloc, request)?;
    let core = book.core();
    let policy = book.policy();
    let history = book.state().history();
    why_text(alloc, core, policy, history, request, &verdict)
}

// Whether a text is the line of the refusal of a request and behind it the lines of a reason.
fn is_reason(
    alloc: Global,
    book: &mut Book,
    request: &Request,
    text: &Text,
) -> Result<bool, NoMemory>
    requires none { book.old.waiting ≡ None }
    requires request { is_request book.old.core.dims request.now ≡ true }
    ensures { IfOk result (λ taken. (taken ≡ true) ↔ Shows book.old.core.dims (shown book.old.core book.old.policy) book.old.history request.now (verdict_of (shown book.old.core book.old.policy) book.old.history request.now) text.now) }
{
    let verdict = book.verdict(alloc, request)?;
    let core = book.core();
    let policy = book.policy();
    let history = book.state().history();
    accept_text(
        alloc,
        core,
        policy,
        history,
        request,
        &verdict,
        text.as_slice(),
    )
}

// What is said of a query: why it is refused.
fn why_of(alloc: Global, book: Book, query: &Text) -> Result<Text, Unsaid>
    requires { book.waiting ≡ None }
    ensures ok { IfOk result (λ text. IsWhyOf book.core book.policy book.history query.now (Ok text)) }
    ensures err { IfErr result (IsUnsaid book.core query.now) }
{
    let mut book = book;
    let request = match request_in(alloc, &book, query) {
        Ok(request) => request,
        Err(unsaid) => return Err(unsaid),
    };
    match why_refused(alloc, &mut book, &request) {
        Ok(text) => Ok(text),
        Err(_) => Err(Unsaid::NoMemory),
    }
}

// The word for whether a text was taken.
fn accepted(alloc: Global, taken: bool) -> Result<Text, NoMemory>
    ensures { IfOk result (λ text. text ≡ accepted_text taken) }
{
    if taken {
        Text::from_bytes(alloc, b"accepted\n")
    } else {
        Text::from_bytes(alloc, b"not accepted\n")
    }
}

// The word for whether a text says why a request is refused.
fn whether(
    alloc: Global,
    book: &mut Book,
    request: &Request,
    reason: &Text,
) -> Result<Text, NoMemory>
    requires none { book.old.waiting ≡ None }
    requires request { is_request book.old.core.dims request.now ≡ true }
    ensures { IfOk result (λ text. Accepts book.old.core book.old.policy book.old.history request.now reason.now text) }
{
    let taken = is_reason(alloc, book, request, reason)?;
    accepted(alloc, taken)
}

// What is said of a query and a text: whether the text says why it is refused.
fn whether_of(alloc: Global, book: Book, query: &Text, reason: &Text) -> Result<Text, Unsaid>
    requires { book.waiting ≡ None }
    ensures ok { IfOk result (λ text. IsWhetherOf book.core book.policy book.history query.now reason.now (Ok text)) }
    ensures err { IfErr result (IsUnsaid book.core query.now) }
{
    let mut book = book;
    let request = match request_in(alloc, &book, query) {
        Ok(request) => request,
        Err(unsaid) => return Err(unsaid),
    };
    match whether(alloc, &mut book, &request, reason) {
        Ok(text) => Ok(text),
        Err(_) => Err(Unsaid::NoMemory),
    }
}

// Puts why a query is refused behind the history that the journal holds: the line of the refusal and behind it the lines of a
// reason, or that it is admitted.
fn why<F: Folder, S: Store, I: Source, O: Sink, W: Wire>(
    alloc: Global,
    message: Message,
    cube: &CubeFiles,
    journal: &Text,
    query: &Text,
    world: &mut World<F, S, I, O, W>,
) -> Report
    requires { message ≡ [] }
    ensures answers { WhyEnds cube.now query.now (outside F.state S.state I.state O.state W.state world.old world.new) result }
    ensures names { AsksJournal journal.now (seen S.state world.old.store world.new.store) result }
    ensures causes { HasCauses (counted (outside F.state S.state I.state O.state W.state world.old world.new)) result }
    ensures calls { IsTrue (S.state world.old.store).told → (S.state world.new.store).calls ≤ (S.state world.old.store).calls + 12 }
    ensures others { OnlyFirst 1 (S.state world.old.store) (S.state world.new.store) }
    ensures complete { WhyCompletes cube.now query.now (outside F.state S.state I.state O.state W.state world.old world.new) result }
    ensures outcomes { result.outcomes ≡ [] }
    ensures leaves { UsesJournal (outside F.state S.state I.state O.state W.state world.old world.new) }
{
    let opened = match open_guarded(alloc, message, cube, &mut world.files) {
        Ok(opened) => opened,
        Err(report) => return report,
    };
    let started = match open_book(
        alloc,
        opened.message,
        opened.value,
        journal,
        &mut world.store,
    ) {
        Ok(started) => started,
        Err(report) => return report,
    };
    let said = why_of(alloc, started.value, query);
    put_said(alloc, started.message, b"query: ", said, &mut world.out)
}

// Reads the file of a reason.
fn open_reason<F: Folder>(
    alloc: Global,
    message: Message,
    name: &Text,
    files: &mut F,
) -> Result<Opened<Text>, Report>
    requires { message ≡ [] }
    ensures ok { IfOk result (λ opened. (opened.message ≡ []) × IfSome (F.state files.old).files (λ known. FileSays reason_said name.now known (Ok opened.value))) }
    ensures err { IfErr result (EndsAt [] reason_said name.now (seen F.state files.old files.new)) }
    ensures asks { OnOk result (AskedFor (name.now ∷ []) (seen F.state files.old files.new)) }
    ensures reads { Reads (seen F.state files.old files.new) result }
{
    match read_bytes(alloc, message, b"reason", name, files) {
        Ok(opened) => Ok(opened),
        Err(report) => Err(report),
    }
}

// Puts whether the bytes of a file say why a query is refused behind the history that the journal holds.
fn check_reason<F: Folder, S: Store, I: Source, O: Sink, W: Wire>(
    alloc: Global,
    message: Message,
    cube: &CubeFiles,
    journal: &Text,
    query: &Text,
    reason: &Text,
    world: &mut World<F, S, I, O, W>,
) -> Report
    requires { message ≡ [] }
    ensures answers { WhetherEnds cube.now query.now reason.now (outside F.state S.state I.state O.state W.state world.old world.new) result }
    ensures names { AsksJournal journal.now (seen S.state world.old.store world.new.store) result }
    ensures causes { HasCauses (counted (outside F.state S.state I.state O.state W.state world.old world.new)) result }
    ensures calls { IsTrue (S.state world.old.store).told → (S.state world.new.store).calls ≤ (S.state world.old.store).calls + 12 }
    ensures others { OnlyFirst 1 (S.state world.old.store) (S.state world.new.store) }
    ensures complete { WhetherCompletes cube.now query.now reason.now (outside F.state S.state I.state O.state W.state world.old world.new) result }
    ensures outcomes { result.outcomes ≡ [] }
    ensures leaves { UsesJournal (outside F.state S.state I.state O.state W.state world.old world.new) }
{
    let opened = match open_guarded(alloc, message, cube, &mut world.files) {
        Ok(opened) => opened,
        Err(report) => return report,
    };
    let guarded = opened.value;
    let read = match open_reason(alloc, opened.message, reason, &mut world.files) {
        Ok(read) => read,
        Err(report) => return report,
    };
    let started = match open_book(alloc, read.message, guarded, journal, &mut world.store) {
        Ok(started) => started,
        Err(report) => return report,
    };
    let said = whether_of(alloc, started.value, query, &read.value);
    put_said(alloc, started.message, b"query: ", said, &mut world.out)
}

/// Puts why a query is refused behind the history that the journal holds; or, where the file of a reason is named, whether its
/// bytes say so.
pub fn say_why<F: Folder, S: Store, I: Source, O: Sink, W: Wire>(
    alloc: Global,
    message: Message,
    cube: &CubeFiles,
    journal: &Text,
    query: &Text,
    reason: &Option<Text>,
    world: &mut World<F, S, I, O, W>,
) -> Report
    requires { message ≡ [] }
    ensures run { ReasonRun cube.now journal.now query.now reason.now (outside F.state S.state I.state O.state W.state world.old world.new) result }
    ensures causes { HasCauses (counted (outside F.state S.state I.state O.state W.state world.old world.new)) result }
    ensures others { OnlyFirst 1 (S.state world.old.store) (S.state world.new.store) }
    ensures outcomes { result.outcomes ≡ [] }
    ensures leaves { UsesJournal (outside F.state S.state I.state O.state W.state world.old world.new) }
{
    match reason {
        None => why(alloc, message, cube, journal, query, world),
        Some(name) => check_reason(alloc, message, cube, journal, query, name, world),
    }
}
