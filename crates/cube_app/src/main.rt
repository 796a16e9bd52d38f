//! The program: it makes the real objects, runs, prints the text on standard error and ends with the status.
#![tactic(auto)]

mod hinting;
mod noting;
mod run;

ghost use Rattle.std.specs.Prelude.{◌≡◌, IfOk};
ghost use Rattle.cube_words.specs.Words.{orders_of as orders_in, out_of as out_ordered};
ghost use Rattle.cube_app.specs.Runs.{out_in};

use cube_edge::{
    EitherSink, FileFolder, FileStore, MachineDisk, MarkingSink, NoWatch, OutFile, ReaderSource,
    SocketWire, TcpSockets, TypedSource, WriterSink, hold_streams,
};
use cube_io::Failed;
use cube_model::{Dims, Items, NoMemory, Text, Texts};
use cube_opening::World;
use cube_seal::line_of;
use cube_words::{Orders, orders_of};
use hinting::HintingSource;
use noting::{dims_in, note, values_in};
use run::run_freely;
use std::alloc::{AllocError, Global};
use std::cell::Cell;
use std::env::{Env, FillError};
use std::fs::{File, Metadata, TryLockError};
use std::io::{ErrorKind, IsTerminal, Read, Write};
use std::os::unix::fs::MetadataExt;
use std::process::ExitCode;
use std::{fs, io, str};

// A word of a command line has fewer bytes than this.
const MAX_WORD: usize = 131_072;

// The first line of a journal has fewer bytes than this.
const FIRST_LINE: usize = 128;

// The words behind the program's name, of any bytes.
fn words_of(rt: &HostRuntime) -> Option<Texts> {
    let mut words = Items::new(rt.alloc());
    let mut buf = [0u8; MAX_WORD];
    for number in 1..usize::MAX {
        match rt.arg(number, &mut buf) {
            Ok(count) => {
                let word = Text::from_bytes(rt.alloc(), &buf[..count]).ok()?;
                words.push(word).ok()?;
            }
            Err(FillError::NotPresent) => return Some(words),
            Err(FillError::TooLong) => return None,
        }
    }
    None
}

// The file that the orders name for the output.
fn out_of(alloc: Global, orders: &Orders) -> Result<Option<Text>, NoMemory>
    ensures { IfOk result (λ path. path ≡ out_ordered orders.now) }
{
    match orders.out() {
        None => Ok(None),
        Some(path) => Ok(Some(path.copied(alloc)?)),
    }
}

// The file that the words name for the output.
fn out_named(alloc: Global, words: &[Text]) -> Result<Option<Text>, NoMemory>
    ensures { IfOk result (λ path. path ≡ out_in (orders_in words.now)) }
{
    let Ok(orders) = orders_of(alloc, words)? else {
        return Ok(None);
    };
    out_of(alloc, &orders)
}

// The journal whose history is to go on in another file, by its name.
fn carried_on(orders: &Orders) -> Option<&str> {
    match orders {
        Orders::Carry { journal, .. }
        | Orders::Compact {
            journal,
            out: Some(_),
            ..
        } => str::from_utf8(journal.as_slice()).ok(),
        _ => None,
    }
}

// The disk of an output. What is compacted takes the seal of its journal along, and what is carried over begins with that of the
// values of its cube; where its files are not accepted nothing is put.
fn disk_for_output<'a>(
    rt: &'a HostRuntime,
    orders: Option<&Orders>,
) -> Result<MachineDisk<'a, HostRuntime>, AllocError> {
    let disk = MachineDisk::for_outputs(rt);
    match orders {
        Some(Orders::Compact { journal, .. }) => match str::from_utf8(journal.as_slice()) {
            Ok(journal) => disk.sealed_as(journal),
            Err(_) => Ok(disk),
        },
        Some(Orders::Carry { files, .. }) => {
            match values_in(rt.alloc(), files, &mut FileFolder::new(rt, io::sink())) {
                Some(values) => Ok(disk.sealed_with(line_of(&values))),
                None => Ok(disk),
            }
        }
        _ => Ok(disk),
    }
}

// Whether a path is that of the other file.
fn is_same(rt: &HostRuntime, there: &Metadata, other: &str) -> bool {
    match fs::metadata(rt, other) {
        Ok(other) => there.dev() == other.dev() && there.ino() == other.ino(),
        Err(_) => false,
    }
}

// Whether a path leads to a seal, which no output takes the place of.
fn leads_to_seal(rt: &HostRuntime, path: &str) -> bool {
    match fs::canonicalize(rt, path) {
        Ok(real) => real.as_path().as_str().ends_with(".seal"),
        Err(_) => false,
    }
}

// Locks the file that the output takes the place of, where one is there that isn't the journal itself: no program goes on
// with what is no longer behind its name. What is refused as an output isn't locked. Fails where another program has it.
fn lock_output(rt: &HostRuntime, path: &str, journal: &str) -> Result<Option<File>, Failed> {
    let Ok(there) = fs::metadata(rt, path) else {
        return Ok(None);
    };
    if !there.is_file() || is_same(rt, &there, journal) || leads_to_seal(rt, path) {
        return Ok(None);
    }
    let Ok(file) = File::open(rt, path) else {
        return Ok(None);
    };
    match file.try_lock() {
        Ok(()) => Ok(Some(file)),
        Err(TryLockError::WouldBlock) => Err(Failed),
        Err(TryLockError::Error(_)) => Ok(None),
    }
}

// Whether a file is there and begins with a whole line, as each journal does that was begun. What is no regular file, or
// can't be looked at, is left to the run to refuse.
fn is_begun(rt: &HostRuntime, path: &str) -> bool {
    match fs::metadata(rt, path) {
        Ok(there) if there.is_file() => has_line(rt, path),
        Ok(_) => true,
        Err(error) => error.kind() != ErrorKind::NotFound,
    }
}

fn has_line(rt: &HostRuntime, path: &str) -> bool {
    let mut line = [0u8; FIRST_LINE];
    let Ok(mut file) = File::open(rt, path) else {
        return false;
    };
    match file.read(&mut line) {
        Ok(count) => line[..count.min(FIRST_LINE)].contains(&b'\n'),
        Err(_) => false,
    }
}

// Says of a journal why nothing goes on from it into another file, and gives the status.
fn refuse(rt: &HostRuntime, path: &str, why: &str) -> ExitCode {
    let _ = writeln!(rt.stderr(), "{path}: {why}\nstore failed");
    ExitCode::from(9)
}

// What is held while a history goes on in another file: the lock of what stands there. Refuses a journal that was never begun,
// since what would go on from it is an empty history, and a file that another program has.
fn hold_output(rt: &HostRuntime, orders: Option<&Orders>) -> Result<Option<File>, ExitCode> {
    let Some(orders) = orders else {
        return Ok(None);
    };
    let Some(journal) = carried_on(orders) else {
        return Ok(None);
    };
    if !is_begun(rt, journal) {
        return Err(refuse(rt, journal, "missing or empty"));
    }
    let Some(path) = orders.out() else {
        return Ok(None);
    };
    let Ok(path) = str::from_utf8(path.as_slice()) else {
        return Ok(None);
    };
    match lock_output(rt, path, journal) {
        Ok(held) => Ok(held),
        Err(Failed) => Err(refuse(rt, path, "in use by another program")),
    }
}

// The dimensions over which a person types queries, where that is ordered.
fn dims_asked(rt: &HostRuntime, orders: Option<&Orders>) -> Option<Dims> {
    match orders {
        Some(Orders::Ask { files, .. }) => {
            dims_in(
                rt.alloc(),
                &files.dims,
                &mut FileFolder::new(rt, rt.stderr()),
            )
        }
        _ => None,
    }
}

// Whether these orders are for lines to be answered as asks.
fn asks(orders: Option<&Orders>) -> bool {
    match orders {
        Some(Orders::Ask { .. }) => true,
        _ => false,
    }
}

// The journal behind whose history a command speaks without adding to it, by its name.
fn looked_into(orders: &Orders) -> Option<&str> {
    match orders {
        Orders::Witness { journal, .. }
        | Orders::Twin { journal, .. }
        | Orders::Compact { journal, .. }
        | Orders::Why { journal, .. }
        | Orders::Advise {
            journal: Some(journal),
            ..
        } => str::from_utf8(journal.as_slice()).ok(),
        _ => None,
    }
}

// The journal of these orders, by its name, where it was never begun and a person sees the notes.
fn never_begun<'a>(rt: &HostRuntime, orders: Option<&'a Orders>) -> Option<&'a str> {
    let journal = looked_into(orders?)?;
    if rt.stderr().is_terminal() && !is_begun(rt, journal) {
        Some(journal)
    } else {
        None
    }
}

// What a person may want to know behind the text of a report.
fn explained(text: &[u8]) -> &'static str {
    if text.starts_with(b"journal: digest ") {
        "the journal was begun for other dimensions, another policy or other points\n"
    } else if text.starts_with(b"journal: values ") {
        "the journal was begun over other values\n"
    } else if text.starts_with(b"journal: seal damaged") {
        "a seal that begins with `facts` is of an earlier form: move it away only where the fact file is known to be the one that was asked\n"
    } else {
        ""
    }
}

// What a person may type behind words that are wrong.
fn begun_with(text: &[u8]) -> &'static str {
    if text == b"usage: no command\n".as_slice() {
        "cube draft --facts TABLE.csv > dims.toml\n\
         cube draft --facts TABLE.csv --policy > policy.toml\n\
         cube ask --dims dims.toml --facts TABLE.csv --policy policy.toml --journal NEW.journal\n\
         cube help: all commands\n"
    } else if text.starts_with(b"usage: ") {
        "cube help: all commands; cube help COMMAND: how one is used\n"
    } else {
        ""
    }
}

fn main(rt: HostRuntime) -> ExitCode {
    if hold_streams(&rt, &rt.stdin(), &rt.stdout(), &rt.stderr()).is_err() {
        return ExitCode::from(5);
    }
    let Some(words) = words_of(&rt) else {
        return ExitCode::from(7);
    };
    let orders = match orders_of(rt.alloc(), words.as_slice()) {
        Ok(orders) => orders.ok(),
        Err(_) => return ExitCode::from(7),
    };
    let held = match hold_output(&rt, orders.as_ref()) {
        Ok(held) => held,
        Err(status) => return status,
    };
    let files = FileFolder::new(&rt, rt.stderr());
    let Ok(store) = FileStore::new(rt.alloc(), MachineDisk::new(&rt), rt.stderr()) else {
        return ExitCode::from(7);
    };
    let unbegun = never_begun(&rt, orders.as_ref());
    let is_typed = rt.stdin().is_terminal() && rt.stderr().is_terminal() && asks(orders.as_ref());
    let dims = if is_typed {
        dims_asked(&rt, orders.as_ref())
    } else {
        None
    };
    let typed = Cell::new(0usize);
    let input = TypedSource::new(ReaderSource::new(rt.reader()), &typed);
    let input = HintingSource::new(input, rt.alloc(), dims, rt.stderr(), &typed);
    let Ok(named) = out_named(rt.alloc(), words.as_slice()) else {
        return ExitCode::from(7);
    };
    let out = match named {
        None => EitherSink::First(WriterSink::new(io::writer(&rt))),
        Some(path) => {
            let Ok(disk) = disk_for_output(&rt, orders.as_ref()) else {
                return ExitCode::from(7);
            };
            match OutFile::new(rt.alloc(), disk, rt.stderr(), &path) {
                Ok(file) => EitherSink::Second(file),
                Err(_) => return ExitCode::from(7),
            }
        }
    };
    let out = MarkingSink::new(out, rt.stderr(), &typed, is_typed);
    let Ok(sockets) = TcpSockets::new(rt.alloc(), &rt, rt.stderr()) else {
        return ExitCode::from(7);
    };
    let Ok(wire) = SocketWire::new(rt.alloc(), sockets, NoWatch) else {
        return ExitCode::from(7);
    };
    let mut world = World {
        files,
        store,
        input,
        out,
        wire,
    };
    let report = run_freely(rt.alloc(), words.as_slice(), &mut world);
    world.wire.settle();
    drop(held);
    let noted = match &orders {
        Some(orders) => note(rt.alloc(), orders, &report, &mut world.files),
        None => None,
    };
    if let Some(noted) = noted {
        let _ = rt.stderr().write_all(noted.as_slice());
    }
    if let Some(journal) = unbegun {
        let _ = writeln!(rt.stderr(), "{journal}: the history is empty");
    }
    let _ = rt.stderr().write_all(report.text.as_slice());
    let _ = rt
        .stderr()
        .write_all(explained(report.text.as_slice()).as_bytes());
    if rt.stderr().is_terminal() {
        let _ = rt
            .stderr()
            .write_all(begun_with(report.text.as_slice()).as_bytes());
    }
    ExitCode::from(report.status)
}
