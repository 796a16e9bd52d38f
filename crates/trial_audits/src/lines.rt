// Lines of audits, from the bytes of transcripts.
ghost use Rattle.std.specs.Prelude.{◌≡◌, ◌<◌, IfOk};
ghost use Rattle.cube_fixtures.specs.Worked.{pay_core};
ghost use Rattle.cube_model.specs.Policies.{IsPolicy};

use cube_audit::{audit, audited_text, fault_text, read_transcript};
use cube_core::{Core, Steps};
use cube_fixtures::{Guard, Parts, pay, policy};
use cube_model::{Method, NoMemory, Policy, Text};
use std::alloc::Global;
use std::marker::Brand;
use std::process::Abort;
use std::sync::ledger::{Blank, Ledger};
use std::test::Fail;

/// The pay cube: nobody works in Nice in February, and two people in Paris in February.
fn make_pay(alloc: Global) -> Result<Core, NoMemory>
    ensures { IfOk result (λ made. made ≡ pay_core) }
{
    let Parts { dims, shape, cube } = pay(alloc)?;
    Core::new(alloc, dims, shape, cube)
}

/// Each city's month of pay is protected, and each place of hours.
fn make_policy(alloc: Global) -> Result<Policy, NoMemory>
    ensures { IfOk result (IsPolicy pay_core.dims) }
{
    let cities = Guard {
        measure: 0,
        level: 0,
        area: None,
    };
    policy(alloc, Method::Lattice, Method::Parity, &[cities])
}

/// The line of an audit of a transcript, or the words of its fault.
fn told<L: Ledger>(alloc: Global, bytes: &[u8], blank: Blank) -> Result<Text, NoMemory>
    requires name { blank.name ≡ L.name }
    requires parts { blank.parts ≡ L.parts }
    requires some { 0 < L.parts }
{
    let core = make_pay(alloc)?;
    let policy = make_policy(alloc)?;
    let items = match read_transcript(alloc, bytes) {
        Ok(items) => items,
        Err(fault) => return fault_text(alloc, &fault),
    };
    let mut steps = Steps::<L>::new(blank);
    let audited = audit(alloc, &core, &policy, &items, &mut steps)?;
    audited_text(alloc, core.dims(), &audited)
}

/// The same, on a ledger of its own.
fn line_of(alloc: Global, bytes: &[u8]) -> Result<Text, NoMemory> {
    told::<Brand>(alloc, bytes, Blank::new(1))
}

/// One case: the bytes of a transcript, and what is told.
type Case = (&'static [u8], &'static [u8]);

const AUDITS: &[Case] = &[
    (b"[]", b"yes 0\n"),
    (
        b"[{\"q\":\"slice pay by time.month\",\"status\":200,\"body\":\"time.month,pay\\nJan,80\\nFeb,70\\n\"}]",
        b"yes 1\n",
    ),
    (
        b"[{\"q\":\"slice pay by time.month\",\"status\":200,\"body\":\"time.month,pay\\nJan,80\\nFeb,70\\n\"},
          {\"q\":\"slice pay by region.area\",\"status\":200,\"body\":\"region.area,pay\\nSouth,60\\nNorth,90\\n\"}]",
        b"no: measure pay, cell (region.city=Lyon, time.month=Feb)\n",
    ),
    (
        b"[{\"q\":\"slice pay by time.month\",\"status\":200,\"body\":\"time.month,pay\\nJan,81\\nFeb,70\\n\"},
          {\"q\":\"slice pay by region.area\",\"status\":200,\"body\":\"region.area,pay\\nSouth,60\\nNorth,90\\n\"}]",
        b"no: item 1\n",
    ),
    (
        b"[{\"q\":\"slice pay by region.area\",\"status\":403,\"body\":\"no\"},
          {\"q\":\"cel pay\",\"status\":200,\"body\":\"pay\\n150\\n\"}]",
        b"no: item 2\n",
    ),
    (
        b"[{\"q\":\"slice hours by region.city\",\"status\":200,\"body\":\"region.city,hours\\nLyon,3\\nNice,3\\nParis,9\\n\"}]",
        b"no: measure hours, cell (region.city=Nice, time.month=Jan)\n",
    ),
    (
        b"[{\"q\":\"cell count\",\"status\":200,\"body\":\"count\\n6\\n\"},
          {\"q\":\"range hours region.city=Lyon..Lyon\",\"status\":200,\"body\":\"hours\\n3\\n\"},
          {\"q\":\"range hours region.city=Lyon..Lyon\",\"status\":200,\"body\":\"hours\\n3\\n\"}]",
        b"yes 3\n",
    ),
];

const FAULTS: &[Case] = &[
    (b"", b"not json"),
    (b"[", b"not json"),
    (b"[]]", b"not json"),
    (b"[\"\xff\"]", b"not json"),
    (b"{}", b"not an array"),
    (b"[[]]", b"item 1"),
    (b"[{\"q\":\"a\",\"status\":200}]", b"item 1"),
    (b"[{\"q\":1,\"status\":200,\"body\":\"\"}]", b"item 1"),
    (b"[{\"q\":\"a\",\"status\":200.0,\"body\":\"\"}]", b"item 1"),
    (b"[{\"q\":\"a\",\"status\":2e2,\"body\":\"\"}]", b"item 1"),
    (
        b"[{\"q\":\"a\",\"status\":599,\"body\":\"\"},{\"q\":\"a\",\"status\":600,\"body\":\"\"}]",
        b"item 2",
    ),
    (
        b"[{\"q\":\"a\",\"status\":100,\"body\":\"\"},{\"q\":\"a\",\"status\":99,\"body\":\"\"}]",
        b"item 2",
    ),
    (
        b"[{\"status\":600,\"q\":\"a\",\"body\":\"\",\"status\":404,\"other\":[{}]}]",
        b"yes 0\n",
    ),
];

fn check(rt: &impl Abort, alloc: Global, cases: &[Case]) -> Result<(), Fail> {
    for (bytes, text) in cases {
        let line = line_of(alloc, bytes)?;
        assert_eq!(rt; line.as_slice(), *text);
    }
    Ok(())
}

#[test]
fn audits_are_told_in_a_line(rt: HostRuntime) -> Result<(), Fail> {
    check(&rt, rt.alloc(), AUDITS)
}

#[test]
fn faults_of_transcripts_are_named(rt: HostRuntime) -> Result<(), Fail> {
    check(&rt, rt.alloc(), FAULTS)
}

/// So many bytes of one kind.
fn repeated(alloc: Global, byte: u8, many: usize) -> Result<Text, NoMemory> {
    Ok(Text::from_vec(vec![in alloc; byte; many]?))
}

#[test]
fn brackets_and_blanks_are_no_json(rt: HostRuntime) -> Result<(), Fail> {
    let alloc = rt.alloc();
    let deep = repeated(alloc, b'[', 100_000)?;
    let line = line_of(alloc, deep.as_slice())?;
    assert_eq!(rt; line.as_slice(), b"not json".as_slice());
    let blank = repeated(alloc, b' ', 1 << 20)?;
    let line = line_of(alloc, blank.as_slice())?;
    assert_eq!(rt; line.as_slice(), b"not json".as_slice());
    Ok(())
}

/// An array of so many numbers.
fn zeros(alloc: Global, many: u32) -> Result<Text, NoMemory> {
    let mut text = Text::from_bytes(alloc, b"[0")?;
    for _more in 1..many {
        text.extend(b",0")?;
    }
    text.push(b']')?;
    Ok(text)
}

#[test]
fn the_limit_is_named_before_an_item(rt: HostRuntime) -> Result<(), Fail> {
    let alloc = rt.alloc();
    let most = zeros(alloc, 65_536)?;
    let line = line_of(alloc, most.as_slice())?;
    assert_eq!(rt; line.as_slice(), b"item 1".as_slice());
    let more = zeros(alloc, 65_537)?;
    let line = line_of(alloc, more.as_slice())?;
    assert_eq!(rt; line.as_slice(), b"limit items 65536".as_slice());
    Ok(())
}
