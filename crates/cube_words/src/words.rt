// The words of the command line.
ghost use Rattle.std.specs.Prelude.{◌≡◌, ◌≤◌, not, min, length, take, drop, find, option_copied, if◌then◌else◌, [], Some, None, IfSome, IfOk, IsTrue};
ghost use Rattle.std.specs.Char.{is_ascii_digit};
ghost use Rattle.std.specs.List.{list_all};
ghost use Rattle.std.specs.Str.{bytes_eq};
ghost use Rattle.std.specs.Str.Parse.{digits_value};
ghost use Rattle.cube_words.specs.Words.{command_word, option_word, needed as needed_by, allowed as allowed_by, is_requests, is_idle, is_number, is_size, is_wrong_value as is_wrong, command_of as command_in, is_option as is_option_of, stands_in, options_in, begin_with_groups, ruled_as, first_wrong as first_wrong_behind, with_rules, behind_command, is_help as is_help_of, is_short as is_short_of, has_word as has_word_of, asks_help as asks_for_help, named_alone as alone_named, named_by as named_by_help, is_draft as is_draft_of, with_command, orders_of as orders_in, value_behind as value_in, Fits};

use crate::drafting::drafting_of;
use crate::ordered::{Orders, orders_with};
use cube_model::{NoMemory, Text};
use cube_text::read_digits;
use std::alloc::Global;

/// What the program is asked to do.
#[derive(Clone, Copy, Debug, PartialEq, Eq)]
pub enum Command {
    /// Print how it is used.
    Help,
    /// Print its version.
    Version,
    /// Draft the files of a cube for a fact file.
    Draft,
    /// Answer lines over a flat fact file.
    Sum,
    /// Say what the files of a cube hold.
    Check,
    /// Answer lines as asks of a cube.
    Ask,
    /// Write the changes that hide a cell.
    Witness,
    /// Write the fact file of the cube with these changes.
    Twin,
    /// Write the journal down as what its history holds.
    Compact,
    /// Write the journal of an older cube down for one that continues it.
    Carry,
    /// Say why a query is refused, or whether a reason that was told holds.
    Why,
    /// Check what some server replied against a cube.
    Audit,
    /// Say what can be released.
    Advise,
    /// Answer asks over the network.
    Serve,
    /// Answer the asks of groups over the network: `serve` with a groups file.
    ServeGroups,
    /// Play a script of connections.
    Replay,
    /// Play a script of connections to groups: `replay` with a groups file.
    ReplayGroups,
    /// Say what a made cube answers to made queries.
    Demo,
}

/// An option of a command.
#[derive(Clone, Copy, Debug, PartialEq, Eq)]
pub enum Setting {
    /// The dimension file.
    Dims,
    /// The fact file.
    Facts,
    /// The policy file.
    Policy,
    /// The groups file, in the place of the policy file.
    Groups,
    /// The journal.
    Journal,
    /// The cell of a measure.
    Cell,
    /// The query of which a reason is told.
    Query,
    /// The file of a reason that was told.
    Reason,
    /// The file of what some server replied.
    Transcript,
    /// The file of queries that are to be judged.
    Workload,
    /// The file that the output is put into.
    Out,
    /// The address that is listened on.
    Address,
    /// The script that is played.
    Script,
    /// The most asks that are answered.
    Requests,
    /// For how many seconds a connection may be still.
    Idle,
    /// The number that a cube is made of.
    Number,
    /// The size that it is made of.
    Size,
    /// A dimension that is drafted, and its columns.
    Levels,
    /// A column whose numbers are members.
    Members,
    /// A column that a draft leaves out.
    Skip,
    /// The dimension file of an older cube.
    FromDims,
    /// The fact file of an older cube.
    FromFacts,
    /// The policy file of an older cube.
    FromPolicy,
    /// The journal of an older cube.
    FromJournal,
}

/// What is wrong with the words.
#[derive(Clone, Copy, Debug, PartialEq, Eq)]
pub enum Usage {
    /// There is no word.
    NoCommand,
    /// The word with this number, from 0, is wrong.
    Wrong(usize),
    /// The command lacks this option.
    Missing(Setting),
}

const COMMANDS: [Command; 16] = [
    Command::Help,
    Command::Version,
    Command::Draft,
    Command::Sum,
    Command::Check,
    Command::Ask,
    Command::Witness,
    Command::Twin,
    Command::Compact,
    Command::Carry,
    Command::Why,
    Command::Audit,
    Command::Advise,
    Command::Serve,
    Command::Replay,
    Command::Demo,
];

/// The most asks that may be stated, and so many as a server takes where none are.
pub const MAX_REQUESTS: u64 = 16_777_216;

/// How many asks `ask` and `replay` take where none are stated.
pub const USUAL_REQUESTS: u64 = 1_000_000;

/// The most seconds that a connection may be still for, a day.
pub const MAX_IDLE: u64 = 86_400;

/// For so many seconds it may be where none are stated.
pub const USUAL_IDLE: u32 = 60;

// The most digits of a number that a cube is made of.
const MAX_DIGITS: usize = 20;

// The least number that is too great to make a cube of.
const OVER: u128 = 1 << 64;

// The greatest size of a made cube.
const MAX_SIZE: u64 = 20;

impl Command {
    fn word(self) -> &'static [u8]
        ensures { result.now ≡ command_word self }
    {
        match self {
            Command::Help => b"--help",
            Command::Version => b"--version",
            Command::Draft => b"draft",
            Command::Sum => b"sum",
            Command::Check => b"check",
            Command::Ask => b"ask",
            Command::Witness => b"witness",
            Command::Twin => b"twin",
            Command::Compact => b"compact",
            Command::Carry => b"carry",
            Command::Why => b"why",
            Command::Audit => b"audit",
            Command::Advise => b"advise",
            Command::Serve | Command::ServeGroups => b"serve",
            Command::Replay | Command::ReplayGroups => b"replay",
            Command::Demo => b"demo",
        }
    }

    fn needed(self) -> &'static [Setting]
        ensures { result.now ≡ needed_by self }
    {
        match self {
            Command::Help => &[],
            Command::Version => &[],
            Command::Draft | Command::Sum => &[Setting::Facts],
            Command::Check | Command::Advise => {
                &[Setting::Dims, Setting::Facts, Setting::Policy]
            }
            Command::Audit => &[
                Setting::Dims,
                Setting::Facts,
                Setting::Policy,
                Setting::Transcript,
            ],
            Command::Why => &[
                Setting::Dims,
                Setting::Facts,
                Setting::Policy,
                Setting::Journal,
                Setting::Query,
            ],
            Command::Ask | Command::Compact => &[
                Setting::Dims,
                Setting::Facts,
                Setting::Policy,
                Setting::Journal,
            ],
            Command::Carry => &[
                Setting::Dims,
                Setting::Facts,
                Setting::Policy,
                Setting::FromDims,
                Setting::FromFacts,
                Setting::FromPolicy,
                Setting::FromJournal,
            ],
            Command::Witness | Command::Twin => &[
                Setting::Dims,
                Setting::Facts,
                Setting::Policy,
                Setting::Journal,
                Setting::Cell,
            ],
            Command::Serve => &[
                Setting::Dims,
                Setting::Facts,
                Setting::Policy,
                Setting::Journal,
                Setting::Address,
            ],
            Command::ServeGroups => &[
                Setting::Dims,
                Setting::Facts,
                Setting::Groups,
                Setting::Journal,
                Setting::Address,
            ],
            Command::Replay => &[
                Setting::Dims,
                Setting::Facts,
                Setting::Policy,
                Setting::Journal,
                Setting::Script,
            ],
            Command::ReplayGroups => &[
                Setting::Dims,
                Setting::Facts,
                Setting::Groups,
                Setting::Journal,
                Setting::Script,
            ],
            Command::Demo => &[Setting::Number, Setting::Size],
        }
    }

    fn allowed(self) -> &'static [Setting]
        ensures { result.now ≡ allowed_by self }
    {
        match self {
            Command::Help => &[],
            Command::Version => &[],
            Command::Draft | Command::Sum => &[Setting::Facts],
            Command::Check => &[Setting::Dims, Setting::Facts, Setting::Policy],
            Command::Ask => &[
                Setting::Dims,
                Setting::Facts,
                Setting::Policy,
                Setting::Journal,
                Setting::Requests,
            ],
            Command::Witness | Command::Twin => &[
                Setting::Dims,
                Setting::Facts,
                Setting::Policy,
                Setting::Journal,
                Setting::Cell,
            ],
            Command::Compact => &[
                Setting::Dims,
                Setting::Facts,
                Setting::Policy,
                Setting::Journal,
                Setting::Out,
            ],
            Command::Carry => &[
                Setting::Dims,
                Setting::Facts,
                Setting::Policy,
                Setting::FromDims,
                Setting::FromFacts,
                Setting::FromPolicy,
                Setting::FromJournal,
                Setting::Out,
            ],
            Command::Why => &[
                Setting::Dims,
                Setting::Facts,
                Setting::Policy,
                Setting::Journal,
                Setting::Query,
                Setting::Reason,
            ],
            Command::Audit => &[
                Setting::Dims,
                Setting::Facts,
                Setting::Policy,
                Setting::Transcript,
            ],
            Command::Advise => &[
                Setting::Dims,
                Setting::Facts,
                Setting::Policy,
                Setting::Journal,
                Setting::Workload,
            ],
            Command::Serve => &[
                Setting::Dims,
                Setting::Facts,
                Setting::Policy,
                Setting::Journal,
                Setting::Address,
                Setting::Requests,
                Setting::Idle,
            ],
            Command::ServeGroups => &[
                Setting::Dims,
                Setting::Facts,
                Setting::Groups,
                Setting::Journal,
                Setting::Address,
                Setting::Requests,
                Setting::Idle,
            ],
            Command::Replay => &[
                Setting::Dims,
                Setting::Facts,
                Setting::Policy,
                Setting::Journal,
                Setting::Script,
                Setting::Requests,
            ],
            Command::ReplayGroups => &[
                Setting::Dims,
                Setting::Facts,
                Setting::Groups,
                Setting::Journal,
                Setting::Script,
                Setting::Requests,
            ],
            Command::Demo => &[Setting::Number, Setting::Size],
        }
    }
}

impl Setting {
    /// The word of the option.
    pub fn word(self) -> &'static [u8]
        ensures { result.now ≡ option_word self }
    {
        match self {
            Setting::Dims => b"--dims",
            Setting::Facts => b"--facts",
            Setting::Policy => b"--policy",
            Setting::Groups => b"--groups",
            Setting::Journal => b"--journal",
            Setting::Cell => b"--cell",
            Setting::Query => b"--query",
            Setting::Reason => b"--reason",
            Setting::Transcript => b"--transcript",
            Setting::Workload => b"--workload",
            Setting::Out => b"--out",
            Setting::Address => b"--address",
            Setting::Script => b"--script",
            Setting::Requests => b"--requests",
            Setting::Idle => b"--idle",
            Setting::Number => b"--number",
            Setting::Size => b"--size",
            Setting::Levels => b"--levels",
            Setting::Members => b"--members",
            Setting::Skip => b"--skip",
            Setting::FromDims => b"--from-dims",
            Setting::FromFacts => b"--from-facts",
            Setting::FromPolicy => b"--from-policy",
            Setting::FromJournal => b"--from-journal",
        }
    }
}

fn is_help(command: Command) -> bool
    ensures { result ≡ is_help_of command }
{
    matches!(command, Command::Help)
}

// Whether a word is short for `--help`.
fn is_short(word: &[u8]) -> bool
    ensures { result ≡ is_short_of word.now }
{
    word == b"-h".as_slice() || word == b"help".as_slice()
}

fn has_word(command: Command, word: &[u8]) -> bool
    ensures { result ≡ has_word_of command word.now }
{
    word == command.word() || (is_help(command) && is_short(word))
}

fn command_of(word: &[u8]) -> Option<Command>
    ensures { result ≡ command_in word.now }
{
    COMMANDS
        .iter()
        .copied()
        .find(|command| has_word(*command, word))
}

// Whether a groups file is named before any policy file, among words behind a command.
fn names_groups(words: &[Text]) -> bool
    ensures { result ≡ begin_with_groups (options_in words.now) }
{
    match words {
        [] => false,
        [option] => option.as_slice() == Setting::Groups.word(),
        [option, _, more @ ..] => {
            let word = option.as_slice();
            word != Setting::Policy.word() && (word == Setting::Groups.word() || names_groups(more))
        }
    }
}

// What a command is with these words behind it.
fn with_groups(command: Command, words: &[Text]) -> Command
    ensures { result ≡ ruled_as command (begin_with_groups (options_in words.now)) }
{
    match command {
        Command::Serve if names_groups(words) => Command::ServeGroups,
        Command::Replay if names_groups(words) => Command::ReplayGroups,
        other => other,
    }
}

fn is_option(command: Command, word: &[u8]) -> bool
    ensures { result ≡ is_option_of command word.now }
{
    command
        .allowed()
        .iter()
        .any(|setting| word == setting.word())
}

// Whether the word stands in an option's place among words behind a command.
fn is_given(word: &[u8], words: &[Text]) -> bool
    ensures { result ≡ stands_in word.now (options_in words.now) }
{
    match words {
        [] => false,
        [option] => option.as_slice() == word,
        [option, _, more @ ..] => option.as_slice() == word || is_given(word, more),
    }
}

/// The number of asks that a text states.
pub fn requests_in(text: &[u8]) -> Option<u64>
    ensures number { result ≡ (if is_requests text.now then Some (digits_value 10 text.now) else None) }
    ensures some { IfSome result (λ number. 1 ≤ number) }
{
    match read_digits(text) {
        Some(number) if number >= 1 && number <= MAX_REQUESTS => Some(number),
        _ => None,
    }
}

/// The number of seconds that a text states.
pub fn idle_in(text: &[u8]) -> Option<u32>
    ensures { result ≡ (if is_idle text.now then Some (digits_value 10 text.now) else None) }
{
    match read_digits(text) {
        Some(seconds) if seconds <= MAX_IDLE => Some(seconds as u32),
        _ => None,
    }
}

// The number that digits write, or `OVER` where it is larger.
fn capped_value(digits: &[u8]) -> u128
    requires { IsTrue (list_all is_ascii_digit digits.now) }
    ensures { result ≡ min OVER (digits_value 10 digits.now) }
{
    let mut value = 0u128;
    for digit in digits {
        value = (value * 10 + u128::from(*digit - b'0')).min(OVER);
    }
    value
}

/// The number that a text states, in at most 20 digits.
pub fn number_in(text: &[u8]) -> Option<u64>
    ensures { result ≡ (if is_number text.now then Some (digits_value 10 text.now) else None) }
{
    if text.len() > MAX_DIGITS || read_digits(text).is_none() {
        return None;
    }
    let value = capped_value(text);
    if value == OVER {
        return None;
    }
    Some(value as u64)
}

/// The size that a text states.
pub fn size_in(text: &[u8]) -> Option<u32>
    ensures number { result ≡ (if is_size text.now then Some (digits_value 10 text.now) else None) }
    ensures some { IfSome result (λ size. (1 ≤ size) × (size ≤ MAX_SIZE)) }
{
    match read_digits(text) {
        Some(size) if size >= 1 && size <= MAX_SIZE => Some(size as u32),
        _ => None,
    }
}

fn is_wrong_value(option: &[u8], value: &[u8]) -> bool
    ensures { result ≡ is_wrong option.now value.now }
{
    (option == Setting::Requests.word() && requests_in(value).is_none())
        || (option == Setting::Number.word() && number_in(value).is_none())
        || (option == Setting::Size.word() && size_in(value).is_none())
        || (option == Setting::Idle.word() && idle_in(value).is_none())
}

// The first wrong word from a place on, before which there are pairs.
fn first_wrong(command: Command, words: &[Text], at: usize) -> Option<usize>
    requires { at ≤ length words.now }
    ensures { result ≡ first_wrong_behind command (take at words.now) (drop at words.now) }
{
    match &words[at..] {
        [] => None,
        [_] => Some(at + 1),
        [option, value, ..] => {
            let word = option.as_slice();
            if !is_option(command, word) || is_given(word, &words[..at]) {
                return Some(at + 1);
            }
            if is_wrong_value(word, value.as_slice()) {
                return Some(at + 2);
            }
            first_wrong(command, words, at + 2)
        }
    }
}

fn is_lacking(setting: Setting, words: &[Text]) -> bool
    ensures { result ≡ not (stands_in (option_word setting) (options_in words.now)) }
{
    !is_given(setting.word(), words)
}

fn first_lacking(settings: &[Setting], words: &[Text]) -> Option<Setting>
    ensures { result ≡ find (λ s. not (stands_in (option_word s) (options_in words.now))) settings.now }
{
    settings
        .iter()
        .copied()
        .find(|setting| is_lacking(*setting, words))
}

// Whether the words behind a command are read by the rules of `draft`.
fn is_draft(command: Command) -> bool
    ensures { result ≡ is_draft_of command }
{
    matches!(command, Command::Draft)
}

// Whether the first of the words behind a command asks how it is used.
fn asks_help(words: &[Text]) -> bool
    ensures { result ≡ asks_for_help words.now }
{
    match words {
        [] => false,
        [word, ..] => has_word(Command::Help, word.as_slice()),
    }
}

// The command that a single word names.
fn named_alone(words: &[Text]) -> Option<Command>
    ensures { result ≡ alone_named words.now }
{
    match words {
        [word] => command_of(word.as_slice()),
        _ => None,
    }
}

// The command that stands alone behind a word for the help.
fn named_by(command: Command, words: &[Text]) -> Option<Command>
    ensures { result ≡ named_by_help command words.now }
{
    if is_help(command) {
        named_alone(words)
    } else {
        None
    }
}

// What a command orders with these words behind it, or what is wrong with them.
fn orders_as(
    alloc: Global,
    command: Command,
    words: &[Text],
) -> Result<Result<Orders, Usage>, NoMemory>
    ensures orders { IfOk result (λ given. given ≡ with_rules words.now command) }
    ensures fits { IfOk result (λ given. IfOk given Fits) }
{
    if let Some(number) = first_wrong(command, words, 0) {
        return Ok(Err(Usage::Wrong(number)));
    }
    match first_lacking(command.needed(), words) {
        None => Ok(Ok(orders_with(alloc, command, words)?)),
        Some(setting) => Ok(Err(Usage::Missing(setting))),
    }
}

// What the words behind a command say.
fn orders_said(
    alloc: Global,
    command: Command,
    words: &[Text],
) -> Result<Result<Orders, Usage>, NoMemory>
    ensures orders { IfOk result (λ given. given ≡ behind_command words.now command) }
    ensures fits { IfOk result (λ given. IfOk given Fits) }
{
    if is_draft(command) {
        return drafting_of(alloc, words);
    }
    orders_as(alloc, with_groups(command, words), words)
}

// What a command that was named orders: its help, that of a command that it names, or what the words behind it say.
fn orders_behind(
    alloc: Global,
    command: Command,
    words: &[Text],
) -> Result<Result<Orders, Usage>, NoMemory>
    ensures orders { IfOk result (λ given. given ≡ with_command words.now (Some command)) }
    ensures fits { IfOk result (λ given. IfOk given Fits) }
{
    if asks_help(words) {
        return Ok(Ok(Orders::Help { on: Some(command) }));
    }
    match named_by(command, words) {
        Some(named) => Ok(Ok(Orders::Help { on: Some(named) })),
        None => orders_said(alloc, command, words),
    }
}

/// What the words order, or what is wrong with them.
pub fn orders_of(alloc: Global, words: &[Text]) -> Result<Result<Orders, Usage>, NoMemory>
    ensures orders { IfOk result (λ given. given ≡ orders_in words.now) }
    ensures fits { IfOk result (λ given. IfOk given Fits) }
{
    let [word, more @ ..] = words else {
        return Ok(Err(Usage::NoCommand));
    };
    match command_of(word.as_slice()) {
        None => Ok(Err(Usage::Wrong(0))),
        Some(command) => orders_behind(alloc, command, more),
    }
}

/// The value behind an option among the words behind the command.
pub fn value_behind<'a>(word: &[u8], words: &'a [Text]) -> Option<&'a Text>
    ensures { option_copied result ≡ value_in word.now words.now }
{
    match words {
        [option, value, more @ ..] => {
            if option.as_slice() == word {
                Some(value)
            } else {
                value_behind(word, more)
            }
        }
        _ => None,
    }
}
