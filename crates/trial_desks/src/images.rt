// What a crash may leave of a log while requests are kept in it, and what a book recovers from each such image.
ghost use Rattle.std.specs.Prelude.{IfOk, IfSome};
ghost use Rattle.cube_model.specs.Policies.{IsPolicy};
ghost use Rattle.trial_desks.specs.Fitting.{Fits};

use cube_core::Core;
use cube_engine::{Book, SharedCore};
use cube_fixtures::{Parts, all_fields, field_policy};
use cube_io::{Call, Change, Failing, MemStore, Reach, Store, Target};
use cube_model::{Fixed, NoMemory, Policy, Question, Reply, Text};
use std::alloc::Global;
use std::process::Abort;
use std::test::Fail;

/// Three queries, each of which enters the history.
const QUERIES: [&[u8]; 3] = [b"cell v col.c=c0", b"cell v col.c=c1", b"cell v col.c=c2"];

/// Their lines in a log.
const LINES: &[u8] = b"q cell v col.c=c0\nq cell v col.c=c1\nq cell v col.c=c2\n";

/// How far a call goes that fails: nowhere, so many bytes of an append or half of a cut, or all the way.
const REACHES: [Reach; 3] = [Reach::Nothing, Reach::Part(7), Reach::All];

/// The most calls of a run.
const MOST_CALLS: u64 = 40;

/// A log behind some calls: what a read gives, how much of it every crash leaves, and the longest texts that may stand there.
/// An image is the front of one of them that has at least what every crash leaves.
#[derive(Drop)]
struct Disk {
    now: Vec<u8>,
    safe: usize,
    ends: Vec<Text>,
}

impl Disk {
    fn new(alloc: Global, first: &[u8]) -> Result<Disk, Fail> {
        let mut disk = Disk {
            now: Vec::from_slice(alloc, first)?,
            safe: 0,
            ends: Vec::new(alloc),
        };
        disk.sync(alloc)?;
        Ok(disk)
    }

    /// All that a read gives stands on the disk.
    fn sync(&mut self, alloc: Global) -> Result<(), Fail> {
        self.safe = self.now.len();
        self.ends = vec![in alloc; Text::from_bytes(alloc, &self.now)?]?;
        Ok(())
    }

    fn append(&mut self, alloc: Global, piece: &[u8]) -> Result<(), Fail> {
        self.now.extend_from_slice(piece)?;
        self.ends.push(Text::from_bytes(alloc, &self.now)?)?;
        Ok(())
    }

    /// A cut to a length, which a read may not see yet.
    fn cut(&mut self, alloc: Global, len: usize, is_seen: bool) -> Result<(), Fail> {
        self.ends
            .push(Text::from_bytes(alloc, front(&self.now, len))?)?;
        self.safe = self.safe.min(len);
        if is_seen {
            self.now.truncate(len);
        }
        Ok(())
    }

    /// One call more, whose bytes stand in a buffer.
    fn pass(&mut self, alloc: Global, call: Call, bytes: &[u8]) -> Result<(), Fail> {
        match call {
            Call::Wrote(Target::End(_), start, len) => {
                self.append(alloc, front(behind(bytes, start), len))
            }
            Call::Did(Change::Cut(_, len)) => self.cut(alloc, usize::try_from(len)?, true),
            Call::Did(Change::HalfCut(_, len)) => self.cut(alloc, usize::try_from(len)?, false),
            Call::Did(Change::Sync(_)) => self.sync(alloc),
            _ => Ok(()),
        }
    }
}

/// The first bytes, at most so many.
fn front(bytes: &[u8], most: usize) -> &[u8] {
    if most < bytes.len() {
        &bytes[..most]
    } else {
        bytes
    }
}

/// What stands behind the first bytes.
fn behind(bytes: &[u8], first: usize) -> &[u8] {
    if first < bytes.len() {
        &bytes[first..]
    } else {
        &[]
    }
}

/// A store whose log begins with these bytes.
fn store_of(alloc: Global, first: &[u8], failing: Vec<Failing>) -> Result<MemStore, Fail> {
    let contents = vec![in alloc; Text::from_bytes(alloc, first)?]?;
    Ok(MemStore::with_capacity(alloc, contents, failing, 64, 2_048)?)
}

/// Six fields under the parity rule.
fn all_under(alloc: Global) -> Result<(Core, Policy), NoMemory>
    ensures { IfOk result (λ made. IsPolicy made.0.dims made.1) }
{
    let Parts { dims, shape, cube } = all_fields(alloc)?;
    let core = Core::new(alloc, dims, shape, cube)?;
    let rules = field_policy(alloc)?;
    Ok((core, rules))
}

/// A book over the log of a store, unless the store fails.
fn start(alloc: Global, store: &mut MemStore) -> Result<Option<Book>, Fail>
    ensures { IfOk result (λ started. IfSome started (λ book. Fits (⟦<MemStore as Store>⟧.state store.new) book)) }
{
    let (core, rules) = all_under(alloc)?;
    let name = Text::from_bytes(alloc, b"log")?;
    if store.attach(&name).is_err() {
        return Ok(None);
    }
    let core = SharedCore::new(alloc, core)?;
    match Book::start(alloc, core, rules, store, 0) {
        Ok(book) => Ok(Some(book)),
        Err(_) => Ok(None),
    }
}

/// The moment before an ask, or behind the last: how many calls there were, and how long the lines of what was answered.
#[derive(Clone, Copy)]
struct Moment {
    calls: usize,
    kept: usize,
}

/// What a run answered: the lines of its requests, the moments, and how often the journal failed.
#[derive(Drop)]
struct Ran {
    lines: Vec<u8>,
    moments: Vec<Moment>,
    faults: u64,
}

impl Ran {
    fn new(alloc: Global) -> Ran {
        Ran {
            lines: Vec::new(alloc),
            moments: Vec::new(alloc),
            faults: 0,
        }
    }

    fn note(&mut self, store: &MemStore) -> Result<(), Fail> {
        self.moments.push(Moment {
            calls: store.record().len(),
            kept: self.lines.len(),
        })?;
        Ok(())
    }

    /// The lines of what was answered before a call was made.
    fn kept_at(&self, call: usize) -> &[u8] {
        let mut kept = 0;
        for moment in &self.moments {
            if moment.calls <= call {
                kept = moment.kept;
            }
        }
        front(&self.lines, kept)
    }
}

/// The line of a request.
fn line_of(alloc: Global, text: &[u8]) -> Result<Vec<u8>, Fail> {
    let mut line = Vec::from_slice(alloc, b"q ")?;
    line.extend_from_slice(text)?;
    line.push(b'\n')?;
    Ok(line)
}

/// Takes down one ask: a request that is answered is one that is kept.
fn ask_one(
    alloc: Global,
    book: &mut Book,
    store: &mut MemStore,
    text: &[u8],
    ran: &mut Ran,
) -> Result<(), Fail>
    requires { Fits (⟦<MemStore as Store>⟧.state store.old) book.old }
    ensures { Fits (⟦<MemStore as Store>⟧.state store.new) book.new }
{
    let question = Question::Query(Text::from_bytes(alloc, text)?);
    ran.note(store)?;
    match book.answer(alloc, store, &question) {
        (Reply::Made { status: 200, .. }, _) => {
            let line = line_of(alloc, text)?;
            ran.lines.extend_from_slice(&line)?;
            Ok(())
        }
        (Reply::Fixed(Fixed::JournalFault), _) => {
            ran.faults = ran.faults.saturating_add(1);
            Ok(())
        }
        _ => Err(Fail::from("another reply")),
    }
}

/// Asks the queries one behind the other.
fn ask_all(alloc: Global, book: &mut Book, store: &mut MemStore) -> Result<Ran, Fail>
    requires { Fits (⟦<MemStore as Store>⟧.state store.old) book.old }
    ensures { Fits (⟦<MemStore as Store>⟧.state store.new) book.new }
{
    let mut ran = Ran::new(alloc);
    let [first, second, third] = QUERIES;
    ask_one(alloc, book, store, first, &mut ran)?;
    ask_one(alloc, book, store, second, &mut ran)?;
    ask_one(alloc, book, store, third, &mut ran)?;
    ran.note(store)?;
    Ok(ran)
}

/// What a book answers over the log of a store, if it starts.
fn run(alloc: Global, store: &mut MemStore) -> Result<Ran, Fail> {
    let Some(mut book) = start(alloc, store)? else {
        return Ok(Ran::new(alloc));
    };
    ask_all(alloc, &mut book, store)
}

/// What stands behind the first line of a log that a book recovers from an image, or nothing where it recovers none.
fn recovered(alloc: Global, image: &[u8]) -> Result<Option<Text>, Fail> {
    let mut store = store_of(alloc, image, Vec::new(alloc))?;
    let Some(_book) = start(alloc, &mut store)? else {
        return Ok(None);
    };
    match store.read_all(alloc, 0) {
        Ok(log) => Ok(Some(Text::from_bytes(alloc, behind(log.as_slice(), HEAD_LEN))?)),
        Err(_) => Ok(None),
    }
}

/// The length of the first line of a log.
const HEAD_LEN: usize = 80;

/// Whether these lines are what was answered, alone or with one more request.
fn is_allowed(alloc: Global, lines: &[u8], kept: &[u8]) -> Result<bool, Fail> {
    if !lines.starts_with(kept) {
        return Ok(false);
    }
    let more = behind(lines, kept.len());
    let mut is_one = more.is_empty();
    for text in &QUERIES {
        let line = line_of(alloc, text)?;
        is_one = is_one || more == line.as_slice();
    }
    Ok(is_one)
}

/// Images, each with the lines behind the first one of the log that a book recovers from it.
type Seen = Vec<(Text, Text)>;

/// An image recovers what was answered, alone or with one more request.
fn check_image(
    rt: &impl Abort,
    alloc: Global,
    seen: &mut Seen,
    image: &[u8],
    kept: &[u8],
) -> Result<(), Fail> {
    for (known, lines) in seen.iter() {
        if known.as_slice() == image {
            assert!(rt; is_allowed(alloc, lines.as_slice(), kept)?);
            return Ok(());
        }
    }
    let Some(lines) = recovered(alloc, image)? else {
        return Err(Fail::from("an image recovers nothing"));
    };
    assert!(rt; is_allowed(alloc, lines.as_slice(), kept)?);
    seen.push((Text::from_bytes(alloc, image)?, lines))?;
    Ok(())
}

/// The images of a log.
fn check_disk(
    rt: &impl Abort,
    alloc: Global,
    seen: &mut Seen,
    disk: &Disk,
    kept: &[u8],
) -> Result<(), Fail> {
    for end in &disk.ends {
        for len in disk.safe..=end.as_slice().len() {
            check_image(rt, alloc, seen, front(end.as_slice(), len), kept)?;
        }
    }
    Ok(())
}

/// The images of each state that the log of a run has passed.
fn check_states(
    rt: &impl Abort,
    alloc: Global,
    seen: &mut Seen,
    first: &[u8],
    store: &MemStore,
    ran: &Ran,
) -> Result<(), Fail> {
    let (calls, bytes) = store.record().parts();
    let mut disk = Disk::new(alloc, first)?;
    for (number, call) in calls.iter().enumerate() {
        check_disk(rt, alloc, seen, &disk, ran.kept_at(number))?;
        disk.pass(alloc, *call, bytes)?;
    }
    check_disk(rt, alloc, seen, &disk, ran.kept_at(calls.len()))
}

/// A run over a log that begins with these bytes, whose store fails one call. Says whether that call came.
fn check_run(
    rt: &impl Abort,
    alloc: Global,
    seen: &mut Seen,
    first: &[u8],
    failing: Failing,
) -> Result<bool, Fail> {
    let mut store = store_of(alloc, first, vec![in alloc; failing]?)?;
    let ran = run(alloc, &mut store)?;
    assert!(rt; ran.faults <= 1);
    check_states(rt, alloc, seen, first, &store, &ran)?;
    let has_failed = failing.call < store.record().len() as u64;
    if !has_failed {
        assert_eq!(rt; ran.lines.as_slice(), LINES);
    }
    Ok(has_failed)
}

/// Runs over a log that begins with these bytes: each fails another call, until none is left.
fn check_runs(
    rt: &impl Abort,
    alloc: Global,
    seen: &mut Seen,
    first: &[u8],
    reach: Reach,
) -> Result<(), Fail> {
    for call in 0..MOST_CALLS {
        if !check_run(rt, alloc, seen, first, Failing { call, reach })? {
            return Ok(());
        }
    }
    Err(Fail::from("no end of calls"))
}

/// The log that a book begins.
fn begun(alloc: Global) -> Result<Text, Fail> {
    let mut store = store_of(alloc, b"", Vec::new(alloc))?;
    let Some(_book) = start(alloc, &mut store)? else {
        return Err(Fail::from("no book"));
    };
    match store.read_all(alloc, 0) {
        Ok(log) => Ok(log),
        Err(_) => Err(Fail::from("no log")),
    }
}

#[test]
fn each_image_recovers_what_was_answered(rt: HostRuntime) -> Result<(), Fail> {
    let mut torn = begun(rt.alloc())?;
    torn.extend(b"q cell v c")?;
    let mut seen = Vec::new(rt.alloc());
    for reach in REACHES {
        check_runs(&rt, rt.alloc(), &mut seen, b"", reach)?;
        check_runs(&rt, rt.alloc(), &mut seen, b"cube-journal 1 ", reach)?;
        check_runs(&rt, rt.alloc(), &mut seen, torn.as_slice(), reach)?;
    }
    Ok(())
}
