// Connections with halves of requests, over a wire that fails one of its sends.
ghost use Rattle.std.specs.Prelude.{◌≡◌, ◌+◌, ◌≤◌, [], ⊤, true, IfOk, vec_len, vec_capacity};
ghost use Rattle.std.specs.List.{find};
ghost use Rattle.std.specs.Option.{option_copied};
ghost use Rattle.std.specs.Str.{bytes_eq};
ghost use Rattle.trial_wires.specs.Tables.{by_table, made_of, said_by, said_of, table_is_constant};

use cube_io::{Desk, Event, Failed, FailingSend, MemWire, NullStore, Play, Store, Wire};
use cube_model::{Ask, Fixed, Kind, NoMemory, Outcome, Question, Reply, Text};
use cube_server::{Pool, serve};
use std::alloc::Global;
use std::process::Abort;
use std::test::Fail;

/// The text of a query, whether it is refused, and the body of its reply.
type Row = (Text, bool, Text);

/// It answers queries by a table.
#[derive(Drop)]
struct Tabled {
    table: Vec<Row>,
    outcomes: Vec<Outcome>,
    left: u64,
    ghost capacity: { vec_len outcomes + left ≤ vec_capacity outcomes },
}

const ASKS: u64 = 9;

fn make_tabled(alloc: Global, table: Vec<Row>) -> Result<Tabled, NoMemory>
    ensures { IfOk result (λ desk. desk.left ≡ 9) }
{
    let outcomes = Vec::with_capacity(alloc, ASKS as usize)?;
    Ok(Tabled {
        table,
        outcomes,
        left: ASKS,
    })
}

// A reply with this body.
fn made(alloc: Global, refused: bool, body: &Text) -> Result<Reply, NoMemory>
    ensures { IfOk result (λ reply. reply ≡ made_of refused body.now) }
{
    let body = Text::from_bytes(alloc, body.as_slice())?;
    Ok(if refused {
        Reply::Made {
            status: 403,
            kind: Kind::Plain,
            body,
        }
    } else {
        Reply::Made {
            status: 200,
            kind: Kind::Csv,
            body,
        }
    })
}

// The row of a query.
fn row_of<'a>(table: &'a [Row], query: &[u8]) -> Option<&'a Row>
    ensures { option_copied result ≡ find (λ row. bytes_eq query.now row.0) table.now }
{
    table.iter().find(|row| query == row.0.as_slice())
}

// What the table says to a query.
fn said_to(alloc: Global, table: &[Row], query: &[u8]) -> Result<Reply, NoMemory>
    ensures { IfOk result (λ reply. reply ≡ said_of table.now query.now) }
{
    match row_of(table, query) {
        Some(row) => made(alloc, row.1, &row.2),
        None => Ok(Reply::Fixed(Fixed::NoPath)),
    }
}

// What the table says to a question.
fn said(alloc: Global, table: &[Row], question: &Question) -> Result<Reply, NoMemory>
    ensures { IfOk result (λ reply. reply ≡ said_by table.now question.now) }
{
    match question {
        Question::Query(text) => said_to(alloc, table, text.as_slice()),
        Question::Witness(_) | Question::Shape => Ok(Reply::Fixed(Fixed::NoPath)),
    }
}

impl<S: Store> Desk<S> for Tabled {
    ghost manner = { λ d. by_table d.table.items };

    ghost rooms = { λ d. [] };

    ghost outcomes = { λ d. d.outcomes.items };

    ghost capacity = { λ d. d.left };

    ghost fits = { λ d store. ⊤ };

    ghost exact = { λ d rooms log state. ⊤ };

    ghost within = { λ d rooms log state. ⊤ };

    fn answer(&mut self, alloc: Global, _store: &mut S, ask: &Ask) -> Reply {
        self.left -= 1;
        match said(alloc, &self.table, &ask.question) {
            Ok(reply) => {
                self.outcomes.push_reserved(Outcome::Given);
                reply
            }
            Err(_) => {
                self.outcomes.push_reserved(Outcome::NoMemory);
                Reply::Fixed(Fixed::NoMemory)
            }
        }
    }

    fn miss(&mut self) -> Reply {
        self.left -= 1;
        self.outcomes.push_reserved(Outcome::NoMemory);
        Reply::Fixed(Fixed::NoMemory)
    }

    fn left(&self) -> u64 {
        self.left
    }

    fn held(&self) -> u64 {
        0
    }

    ghost failures = { λ d. table_is_constant d.table.items };
}

/// A wire in memory that tells its log. What it sends and closes is written down too: `sent C N` and the N bytes, `torn C`, `shut C`.
#[derive(Drop)]
struct Noted {
    wire: MemWire,
    text: Text,
}

fn write_number(text: &mut Text, number: u64) -> Result<(), NoMemory> {
    let mut digits = itoa::Buffer::new();
    text.extend(digits.format(number).as_bytes())
}

fn write_line(text: &mut Text, word: &[u8], c: u32) -> Result<(), NoMemory> {
    text.extend(word)?;
    write_number(text, u64::from(c))?;
    text.extend(b"\n")
}

fn write_sent(text: &mut Text, c: u32, piece: &[u8]) -> Result<(), NoMemory> {
    text.extend(b"sent ")?;
    write_number(text, u64::from(c))?;
    text.extend(b" ")?;
    write_number(text, piece.len() as u64)?;
    text.extend(b"\n")?;
    text.extend(piece)?;
    text.extend(b"\n")
}

impl Wire for Noted {
    ghost state = { λ w. ⟦<MemWire as Wire>⟧.state w.wire };

    ghost allows = { λ store log. ⊤ };

    fn listen(&mut self, address: &Text, idle: u32) -> Result<(), Failed> {
        self.wire.listen(address, idle)
    }

    fn next<S: Store>(&mut self, store: &S, buf: &mut [u8]) -> Result<Event, Failed> {
        self.wire.next(store, buf)
    }

    fn send(&mut self, c: u32, piece: &[u8]) -> Result<(), Failed> {
        let sent = self.wire.send(c, piece);
        let _ = match sent {
            Ok(()) => write_sent(&mut self.text, c, piece),
            Err(_) => write_line(&mut self.text, b"torn ", c),
        };
        sent
    }

    fn close(&mut self, c: u32) {
        self.wire.close(c);
        let _ = write_line(&mut self.text, b"shut ", c);
    }
}

/// What comes on a connection.
type Came = (u32, &'static [u8]);

fn make_wire(alloc: Global, script: &[Came], failing: FailingSend) -> Result<Noted, NoMemory>
    ensures told { IfOk result (λ w. (⟦<MemWire as Wire>⟧.state w.wire).told ≡ true) }
    ensures log { IfOk result (λ w. (⟦<MemWire as Wire>⟧.state w.wire).log ≡ []) }
{
    let mut plays = vec![in alloc; Play::Opened(1), Play::Opened(2)]?;
    for (c, piece) in script {
        plays.push(Play::Piece(*c, Text::from_bytes(alloc, piece)?))?;
    }
    let failing = vec![in alloc; failing]?;
    Ok(Noted {
        wire: MemWire::with_capacity(alloc, plays, Vec::new(alloc), failing, 99, 9_999)?,
        text: Text::new(alloc),
    })
}

/// A reply of a table: the query, whether it is refused, and the body.
type Line = (&'static [u8], bool, &'static [u8]);

fn make_table(alloc: Global, lines: &[Line]) -> Result<Vec<Row>, NoMemory> {
    let mut table = Vec::new(alloc);
    for (query, refused, body) in lines {
        let query = Text::from_bytes(alloc, query)?;
        table.push((query, *refused, Text::from_bytes(alloc, body)?))?;
    }
    Ok(table)
}

// What is written down of a script where a send fails, how many asks are answered, and whether the end of the wire came.
fn served(
    alloc: Global,
    lines: &[Line],
    script: &[Came],
    failing: FailingSend,
) -> Result<(Text, u64, bool), NoMemory> {
    let mut desk = make_tabled(alloc, make_table(alloc, lines)?)?;
    let mut wire = make_wire(alloc, script, failing)?;
    let mut pool = Pool::new(alloc)?;
    let mut store = NullStore::new();
    let ended = serve(alloc, &mut desk, &mut store, &mut wire, &mut pool, 99);
    Ok((wire.text, ASKS - desk.left, ended.is_ok()))
}

// The parts of a text, one behind another.
fn joined(alloc: Global, parts: &[&[u8]]) -> Result<Text, NoMemory> {
    let mut text = Text::new(alloc);
    for part in parts {
        text.extend(part)?;
    }
    Ok(text)
}

/// What is written down where the send with the number of the row fails, and how many asks are answered. There are six sends,
/// so none fails in the last row.
type Cases = [(&'static [&'static [u8]], u64); 7];

// Plays a script whose sends fail in turn, each behind none, some and all of its bytes.
fn fail_in_turn(
    rt: &impl Abort,
    alloc: Global,
    lines: &[Line],
    script: &[Came],
    cases: &Cases,
) -> Result<(), Fail> {
    let mut send = 0u64;
    for (parts, asks) in cases {
        let text = joined(alloc, parts)?;
        for bytes in [0, 1, 7, 9_999] {
            let failing = FailingSend { send, bytes };
            let (got, asked, ended) = served(alloc, lines, script, failing)?;
            assert_eq!(rt; got.as_slice(), text.as_slice());
            assert_eq!(rt; asked, *asks);
            assert!(rt; ended);
        }
        send = send.wrapping_add(1);
    }
    Ok(())
}

const UNCUT: &[u8] =
    b"source: the cuboid (region.area, time.month) does not cut the cell (region.city=Lyon, time.month=Feb)\n";

const COUNT_HEAD: &[u8] =
    b"sent 1 77\nHTTP/1.1 200 OK\r\nContent-Type: text/csv; charset=utf-8\r\nContent-Length: 8\r\n\r\n\n";

const COUNT_BODY: &[u8] = b"sent 1 8\ncount\n5\n\n";

const TORN_1: &[u8] = b"torn 1\nshut 1\n";

const TORN_2: &[u8] = b"torn 2\nshut 2\n";

const AREAS_HEAD: &[u8] =
    b"sent 2 78\nHTTP/1.1 200 OK\r\nContent-Type: text/csv; charset=utf-8\r\nContent-Length: 34\r\n\r\n\n";

const AREAS_BODY: &[u8] = b"sent 2 34\nregion.area,pay\nSouth,60\nNorth,90\n\n";

const NO_MONTHS_HEAD: &[u8] =
    b"sent 1 88\nHTTP/1.1 403 Forbidden\r\nContent-Type: text/plain; charset=utf-8\r\nContent-Length: 102\r\n\r\n\n";

const NO_MONTHS_BODY: &[u8] =
    b"sent 1 102\nsource: the cuboid (region.area, time.month) does not cut the cell (region.city=Lyon, time.month=Feb)\n\n";

// Half a query comes on the first connection, a whole one on the second, then the rest and a whole one more on the first.
#[test]
fn each_send_fails_in_turn(rt: HostRuntime) -> Result<(), Fail> {
    let areas = b"region.area,pay\nSouth,60\nNorth,90\n".as_slice();
    let lines: [Line; 3] = [
        (b"slice pay by region.area", false, areas),
        (b"slice pay by time.month", true, UNCUT),
        (b"cell count", false, b"count\n5\n"),
    ];
    let script: [Came; 3] = [
        (1, b"GET /v1/query?q=slice%20pay%20by%20ti"),
        (
            2,
            b"GET /v1/query?q=slice%20pay%20by%20region.area HTTP/1.1\r\nHost: h\r\n\r\n",
        ),
        (
            1,
            b"me.month HTTP/1.1\r\nHost: h\r\n\r\nGET /v1/query?q=cell%20count HTTP/1.1\r\nHost: h\r\n\r\n",
        ),
    ];
    let cases: Cases = [
        (
            &[
                TORN_2,
                NO_MONTHS_HEAD,
                NO_MONTHS_BODY,
                COUNT_HEAD,
                COUNT_BODY,
            ],
            3,
        ),
        (
            &[
                AREAS_HEAD,
                TORN_2,
                NO_MONTHS_HEAD,
                NO_MONTHS_BODY,
                COUNT_HEAD,
                COUNT_BODY,
            ],
            3,
        ),
        (&[AREAS_HEAD, AREAS_BODY, TORN_1], 2),
        (&[AREAS_HEAD, AREAS_BODY, NO_MONTHS_HEAD, TORN_1], 2),
        (
            &[
                AREAS_HEAD,
                AREAS_BODY,
                NO_MONTHS_HEAD,
                NO_MONTHS_BODY,
                TORN_1,
            ],
            3,
        ),
        (
            &[
                AREAS_HEAD,
                AREAS_BODY,
                NO_MONTHS_HEAD,
                NO_MONTHS_BODY,
                COUNT_HEAD,
                TORN_1,
            ],
            3,
        ),
        (
            &[
                AREAS_HEAD,
                AREAS_BODY,
                NO_MONTHS_HEAD,
                NO_MONTHS_BODY,
                COUNT_HEAD,
                COUNT_BODY,
            ],
            3,
        ),
    ];
    fail_in_turn(&rt, rt.alloc(), &lines, &script, &cases)
}

const MONTHS_HEAD: &[u8] =
    b"sent 1 78\nHTTP/1.1 200 OK\r\nContent-Type: text/csv; charset=utf-8\r\nContent-Length: 29\r\n\r\n\n";

const MONTHS_BODY: &[u8] = b"sent 1 29\ntime.month,pay\nJan,80\nFeb,70\n\n";

const NO_AREAS_HEAD: &[u8] =
    b"sent 2 88\nHTTP/1.1 403 Forbidden\r\nContent-Type: text/plain; charset=utf-8\r\nContent-Length: 102\r\n\r\n\n";

const NO_AREAS_BODY: &[u8] =
    b"sent 2 102\nsource: the cuboid (region.area, time.month) does not cut the cell (region.city=Lyon, time.month=Feb)\n\n";

// The query on the first connection comes whole before that on the second.
#[test]
fn each_send_fails_in_turn_in_the_other_order(rt: HostRuntime) -> Result<(), Fail> {
    let months = b"time.month,pay\nJan,80\nFeb,70\n".as_slice();
    let lines: [Line; 3] = [
        (b"slice pay by time.month", false, months),
        (b"slice pay by region.area", true, UNCUT),
        (b"cell count", false, b"count\n5\n"),
    ];
    let script: [Came; 3] = [
        (
            1,
            b"GET /v1/query?q=slice%20pay%20by%20time.month HTTP/1.1\r\nHost: h\r\n\r\n",
        ),
        (
            2,
            b"GET /v1/query?q=slice%20pay%20by%20region.area HTTP/1.1\r\nHost: h\r\n\r\n",
        ),
        (
            1,
            b"GET /v1/query?q=cell%20count HTTP/1.1\r\nHost: h\r\n\r\n",
        ),
    ];
    let cases: Cases = [
        (&[TORN_1, NO_AREAS_HEAD, NO_AREAS_BODY], 2),
        (&[MONTHS_HEAD, TORN_1, NO_AREAS_HEAD, NO_AREAS_BODY], 2),
        (
            &[MONTHS_HEAD, MONTHS_BODY, TORN_2, COUNT_HEAD, COUNT_BODY],
            3,
        ),
        (
            &[
                MONTHS_HEAD,
                MONTHS_BODY,
                NO_AREAS_HEAD,
                TORN_2,
                COUNT_HEAD,
                COUNT_BODY,
            ],
            3,
        ),
        (
            &[
                MONTHS_HEAD,
                MONTHS_BODY,
                NO_AREAS_HEAD,
                NO_AREAS_BODY,
                TORN_1,
            ],
            3,
        ),
        (
            &[
                MONTHS_HEAD,
                MONTHS_BODY,
                NO_AREAS_HEAD,
                NO_AREAS_BODY,
                COUNT_HEAD,
                TORN_1,
            ],
            3,
        ),
        (
            &[
                MONTHS_HEAD,
                MONTHS_BODY,
                NO_AREAS_HEAD,
                NO_AREAS_BODY,
                COUNT_HEAD,
                COUNT_BODY,
            ],
            3,
        ),
    ];
    fail_in_turn(&rt, rt.alloc(), &lines, &script, &cases)
}
