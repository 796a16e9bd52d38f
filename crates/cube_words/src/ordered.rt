// The orders that the words of a command give, once nothing is wrong with them.
ghost use Rattle.std.specs.Prelude.{◌≡◌, ◌≤◌, IfOk, option_copied};
ghost use Rattle.std.specs.Str.Parse.{digits_value};
ghost use Rattle.cube_model.specs.Cubes.{IsIn};
ghost use Rattle.cube_words.specs.declared.words.Command.TheVariants as command;
ghost use Rattle.cube_words.specs.declared.words.Setting.TheVariants as setting;
ghost use Rattle.cube_words.specs.declared.words.TheConstants.{MAX_REQUESTS, MAX_SIZE};
ghost use Rattle.cube_words.specs.Words.{option_word, needed as needed_by, value_behind as value_in, value_of, files_of as files_in, older_files_of as older_files_in, ruled_files_of as ruled_files_in, one_policy as one_policy_in, own_policies as own_policies_in, stated as stated_in, idle as idle_in_words, making_of as making_in, plain_drafting as plain_drafting_in, served, replayed, orders_with as orders_behind, out_of, cube_of, IsRight, IsMade, Fits};

use crate::drafting::Drafting;
use crate::words::{
    Command, MAX_REQUESTS, Setting, USUAL_IDLE, USUAL_REQUESTS, idle_in, number_in, requests_in,
    size_in, value_behind,
};
use cube_draft::Choices;
use cube_model::{Items, NoMemory, Text};
use cube_opening::{CubeFiles, RuledFiles, Rules};
use std::alloc::Global;

/// What a cube is made of.
#[derive(Clone, Copy, Debug, PartialEq, Eq)]
pub struct Making {
    /// The number that all its texts follow from.
    pub number: u64,
    /// Its size, from 1 to 20.
    pub size: u32,
}

/// What the program is asked to do, with the values of its options.
#[derive(Debug, Drop)]
pub enum Orders {
    /// Print how it is used, or how one of its commands is.
    Help {
        on: Option<Command>,
    },
    /// Print its version.
    Version,
    /// Draft the dimension file or the policy file for a fact file.
    Draft {
        drafting: Drafting,
    },
    /// Answer lines over a flat fact file.
    Sum {
        facts: Text,
    },
    /// Say what the files of a cube hold.
    Check {
        files: CubeFiles,
    },
    /// Answer lines as asks of a cube, at most as many as are stated.
    Ask {
        files: CubeFiles,
        journal: Text,
        stated: u64,
    },
    /// Write the changes that hide a cell.
    Witness {
        files: CubeFiles,
        journal: Text,
        cell: Text,
    },
    /// Write the fact file of the cube with these changes.
    Twin {
        files: CubeFiles,
        journal: Text,
        cell: Text,
    },
    /// Write the journal down as what its history holds, into a file where one is named.
    Compact {
        files: CubeFiles,
        journal: Text,
        out: Option<Text>,
    },
    /// Write the journal of an older cube down for one that continues it, into a file where one is named.
    Carry {
        files: CubeFiles,
        older: CubeFiles,
        journal: Text,
        out: Option<Text>,
    },
    /// Say why a query is refused behind the history of the journal; or, where the file of a reason is named, whether that
    /// is one.
    Why {
        files: CubeFiles,
        journal: Text,
        query: Text,
        reason: Option<Text>,
    },
    /// Check what some server replied against a cube.
    Audit {
        files: CubeFiles,
        transcript: Text,
    },
    /// Say what can be released, behind the history of a journal where one is named, and the word for each line of a workload
    /// where one is.
    Advise {
        files: CubeFiles,
        journal: Option<Text>,
        workload: Option<Text>,
    },
    /// Answer asks over the network, at most as many as are stated. A connection may be still for so many seconds.
    Serve {
        files: RuledFiles,
        journal: Text,
        address: Text,
        stated: u64,
        idle: u32,
    },
    /// Play a script of connections, and answer at most as many asks as are stated.
    Replay {
        files: RuledFiles,
        journal: Text,
        script: Text,
        stated: u64,
    },
    /// Say what a made cube answers to made queries.
    Demo {
        making: Making,
    },
}

impl Orders {
    /// The name of the file that the output is put into, where one is given.
    pub fn out(&self) -> Option<&Text>
        ensures { option_copied result ≡ out_of self.now }
    {
        match self {
            Orders::Compact { out, .. } | Orders::Carry { out, .. } => out.as_ref(),
            _ => None,
        }
    }

    /// The names of the cube's files, of a command for one policy.
    pub fn cube(&self) -> Option<&CubeFiles>
        ensures { option_copied result ≡ cube_of self.now }
    {
        match self {
            Orders::Check { files }
            | Orders::Ask { files, .. }
            | Orders::Witness { files, .. }
            | Orders::Twin { files, .. }
            | Orders::Compact { files, .. }
            | Orders::Carry { files, .. }
            | Orders::Why { files, .. }
            | Orders::Audit { files, .. }
            | Orders::Advise { files, .. } => Some(files),
            _ => None,
        }
    }
}

fn value_given(words: &[Text], setting: Setting) -> Option<&Text>
    ensures { option_copied result ≡ value_in (option_word setting) words.now }
{
    value_behind(setting.word(), words)
}

// The value of an option that the command needs.
fn needed_value(words: &[Text], command: Command, setting: Setting) -> &Text
    requires right { IsRight command words.now }
    requires needed { IsIn setting (needed_by command) }
    ensures { result.now ≡ value_of setting words.now }
{
    let _command = command;
    match value_given(words, setting) {
        Some(value) => value,
        None => unreachable!(),
    }
}

fn needed_text(
    alloc: Global,
    words: &[Text],
    command: Command,
    setting: Setting,
) -> Result<Text, NoMemory>
    requires right { IsRight command words.now }
    requires needed { IsIn setting (needed_by command) }
    ensures { IfOk result (λ text. text ≡ value_of setting words.now) }
{
    Text::from_bytes(alloc, needed_value(words, command, setting).as_slice())
}

fn files_of(alloc: Global, words: &[Text], command: Command) -> Result<CubeFiles, NoMemory>
    requires right { IsRight command words.now }
    requires dims { IsIn setting.Dims (needed_by command) }
    requires facts { IsIn setting.Facts (needed_by command) }
    requires policy { IsIn setting.Policy (needed_by command) }
    ensures { IfOk result (λ files. files ≡ files_in words.now) }
{
    Ok(CubeFiles {
        dims: needed_text(alloc, words, command, Setting::Dims)?,
        facts: needed_text(alloc, words, command, Setting::Facts)?,
        policy: needed_text(alloc, words, command, Setting::Policy)?,
    })
}

// The files of an older cube.
fn older_files_of(alloc: Global, words: &[Text], command: Command) -> Result<CubeFiles, NoMemory>
    requires right { IsRight command words.now }
    requires dims { IsIn setting.FromDims (needed_by command) }
    requires facts { IsIn setting.FromFacts (needed_by command) }
    requires policy { IsIn setting.FromPolicy (needed_by command) }
    ensures { IfOk result (λ files. files ≡ older_files_in words.now) }
{
    Ok(CubeFiles {
        dims: needed_text(alloc, words, command, Setting::FromDims)?,
        facts: needed_text(alloc, words, command, Setting::FromFacts)?,
        policy: needed_text(alloc, words, command, Setting::FromPolicy)?,
    })
}

// The files of a cube whose users are ruled so.
fn ruled_files_of(
    alloc: Global,
    words: &[Text],
    command: Command,
    rules: Rules,
) -> Result<RuledFiles, NoMemory>
    requires right { IsRight command words.now }
    requires dims { IsIn setting.Dims (needed_by command) }
    requires facts { IsIn setting.Facts (needed_by command) }
    ensures { IfOk result (λ files. files ≡ ruled_files_in rules words.now) }
{
    Ok(RuledFiles {
        dims: needed_text(alloc, words, command, Setting::Dims)?,
        facts: needed_text(alloc, words, command, Setting::Facts)?,
        rules,
    })
}

// One policy for all users.
fn one_policy(alloc: Global, words: &[Text], command: Command) -> Result<Rules, NoMemory>
    requires right { IsRight command words.now }
    requires policy { IsIn setting.Policy (needed_by command) }
    ensures { IfOk result (λ rules. rules ≡ one_policy_in words.now) }
{
    Ok(Rules::One(needed_text(alloc, words, command, Setting::Policy)?))
}

// A policy of its own for each group.
fn own_policies(alloc: Global, words: &[Text], command: Command) -> Result<Rules, NoMemory>
    requires right { IsRight command words.now }
    requires groups { IsIn setting.Groups (needed_by command) }
    ensures { IfOk result (λ rules. rules ≡ own_policies_in words.now) }
{
    Ok(Rules::Groups(needed_text(alloc, words, command, Setting::Groups)?))
}

// The stated number of asks, or the usual one.
fn stated(words: &[Text], command: Command, usual: u64) -> u64
    requires right { IsRight command words.now }
    requires some { 1 ≤ usual }
    ensures number { result ≡ stated_in usual words.now }
    ensures some { 1 ≤ result }
{
    let _command = command;
    match value_given(words, Setting::Requests) {
        None => usual,
        Some(text) => match requests_in(text.as_slice()) {
            Some(number) => number,
            None => unreachable!(),
        },
    }
}

// The stated number of asks of a server, or the most.
fn stated_to_serve(words: &[Text], command: Command) -> u64
    requires { IsRight command words.now }
    ensures number { result ≡ stated_in MAX_REQUESTS words.now }
    ensures some { 1 ≤ result }
{
    stated(words, command, MAX_REQUESTS)
}

// For how many seconds a connection may be still.
fn idle_of(words: &[Text], command: Command) -> u32
    requires { IsRight command words.now }
    ensures { result ≡ idle_in_words words.now }
{
    let _command = command;
    match value_given(words, Setting::Idle) {
        None => USUAL_IDLE,
        Some(text) => match idle_in(text.as_slice()) {
            Some(seconds) => seconds,
            None => unreachable!(),
        },
    }
}

// The number that a cube is made of.
fn number_of(words: &[Text]) -> u64
    requires { IsRight command.Demo words.now }
    ensures { result ≡ digits_value 10 (value_of setting.Number words.now) }
{
    match number_in(needed_value(words, Command::Demo, Setting::Number).as_slice()) {
        Some(number) => number,
        None => unreachable!(),
    }
}

// The size that it is made of.
fn size_of(words: &[Text]) -> u32
    requires { IsRight command.Demo words.now }
    ensures size { result ≡ digits_value 10 (value_of setting.Size words.now) }
    ensures some { 1 ≤ result }
    ensures few { result ≤ MAX_SIZE }
{
    match size_in(needed_value(words, Command::Demo, Setting::Size).as_slice()) {
        Some(size) => size,
        None => unreachable!(),
    }
}

// What a cube is made of.
fn making_of(words: &[Text]) -> Making
    requires { IsRight command.Demo words.now }
    ensures making { result ≡ making_in words.now }
    ensures fits { IsMade result }
{
    Making {
        number: number_of(words),
        size: size_of(words),
    }
}

fn ask_with(alloc: Global, words: &[Text]) -> Result<Orders, NoMemory>
    requires { IsRight command.Ask words.now }
    ensures orders { IfOk result (λ orders. orders ≡ orders_behind command.Ask words.now) }
    ensures fits { IfOk result Fits }
{
    let command = Command::Ask;
    Ok(Orders::Ask {
        files: files_of(alloc, words, command)?,
        journal: needed_text(alloc, words, command, Setting::Journal)?,
        stated: stated(words, command, USUAL_REQUESTS),
    })
}

fn witness_with(alloc: Global, words: &[Text]) -> Result<Orders, NoMemory>
    requires { IsRight command.Witness words.now }
    ensures orders { IfOk result (λ orders. orders ≡ orders_behind command.Witness words.now) }
    ensures fits { IfOk result Fits }
{
    let command = Command::Witness;
    Ok(Orders::Witness {
        files: files_of(alloc, words, command)?,
        journal: needed_text(alloc, words, command, Setting::Journal)?,
        cell: needed_text(alloc, words, command, Setting::Cell)?,
    })
}

fn twin_with(alloc: Global, words: &[Text]) -> Result<Orders, NoMemory>
    requires { IsRight command.Twin words.now }
    ensures orders { IfOk result (λ orders. orders ≡ orders_behind command.Twin words.now) }
    ensures fits { IfOk result Fits }
{
    let command = Command::Twin;
    Ok(Orders::Twin {
        files: files_of(alloc, words, command)?,
        journal: needed_text(alloc, words, command, Setting::Journal)?,
        cell: needed_text(alloc, words, command, Setting::Cell)?,
    })
}

// The value of an option that the command may have.
fn given_text(alloc: Global, words: &[Text], setting: Setting) -> Result<Option<Text>, NoMemory>
    ensures { IfOk result (λ text. text ≡ value_in (option_word setting) words.now) }
{
    match value_given(words, setting) {
        None => Ok(None),
        Some(value) => Ok(Some(Text::from_bytes(alloc, value.as_slice())?)),
    }
}

fn compact_with(alloc: Global, words: &[Text]) -> Result<Orders, NoMemory>
    requires { IsRight command.Compact words.now }
    ensures orders { IfOk result (λ orders. orders ≡ orders_behind command.Compact words.now) }
    ensures fits { IfOk result Fits }
{
    let command = Command::Compact;
    Ok(Orders::Compact {
        files: files_of(alloc, words, command)?,
        journal: needed_text(alloc, words, command, Setting::Journal)?,
        out: given_text(alloc, words, Setting::Out)?,
    })
}

fn carry_with(alloc: Global, words: &[Text]) -> Result<Orders, NoMemory>
    requires { IsRight command.Carry words.now }
    ensures orders { IfOk result (λ orders. orders ≡ orders_behind command.Carry words.now) }
    ensures fits { IfOk result Fits }
{
    let command = Command::Carry;
    Ok(Orders::Carry {
        files: files_of(alloc, words, command)?,
        older: older_files_of(alloc, words, command)?,
        journal: needed_text(alloc, words, command, Setting::FromJournal)?,
        out: given_text(alloc, words, Setting::Out)?,
    })
}

fn why_with(alloc: Global, words: &[Text]) -> Result<Orders, NoMemory>
    requires { IsRight command.Why words.now }
    ensures orders { IfOk result (λ orders. orders ≡ orders_behind command.Why words.now) }
    ensures fits { IfOk result Fits }
{
    let command = Command::Why;
    Ok(Orders::Why {
        files: files_of(alloc, words, command)?,
        journal: needed_text(alloc, words, command, Setting::Journal)?,
        query: needed_text(alloc, words, command, Setting::Query)?,
        reason: given_text(alloc, words, Setting::Reason)?,
    })
}

fn audit_with(alloc: Global, words: &[Text]) -> Result<Orders, NoMemory>
    requires { IsRight command.Audit words.now }
    ensures orders { IfOk result (λ orders. orders ≡ orders_behind command.Audit words.now) }
    ensures fits { IfOk result Fits }
{
    let command = Command::Audit;
    Ok(Orders::Audit {
        files: files_of(alloc, words, command)?,
        transcript: needed_text(alloc, words, command, Setting::Transcript)?,
    })
}

fn advise_with(alloc: Global, words: &[Text]) -> Result<Orders, NoMemory>
    requires { IsRight command.Advise words.now }
    ensures orders { IfOk result (λ orders. orders ≡ orders_behind command.Advise words.now) }
    ensures fits { IfOk result Fits }
{
    let command = Command::Advise;
    Ok(Orders::Advise {
        files: files_of(alloc, words, command)?,
        journal: given_text(alloc, words, Setting::Journal)?,
        workload: given_text(alloc, words, Setting::Workload)?,
    })
}

// The orders of a server whose users are ruled so.
fn serve_with(
    alloc: Global,
    words: &[Text],
    command: Command,
    rules: Rules,
) -> Result<Orders, NoMemory>
    requires right { IsRight command words.now }
    requires dims { IsIn setting.Dims (needed_by command) }
    requires facts { IsIn setting.Facts (needed_by command) }
    requires journal { IsIn setting.Journal (needed_by command) }
    requires address { IsIn setting.Address (needed_by command) }
    ensures orders { IfOk result (λ orders. orders ≡ served rules words.now) }
    ensures fits { IfOk result Fits }
{
    Ok(Orders::Serve {
        files: ruled_files_of(alloc, words, command, rules)?,
        journal: needed_text(alloc, words, command, Setting::Journal)?,
        address: needed_text(alloc, words, command, Setting::Address)?,
        stated: stated_to_serve(words, command),
        idle: idle_of(words, command),
    })
}

// The orders to play a script to users who are ruled so.
fn replay_with(
    alloc: Global,
    words: &[Text],
    command: Command,
    rules: Rules,
) -> Result<Orders, NoMemory>
    requires right { IsRight command words.now }
    requires dims { IsIn setting.Dims (needed_by command) }
    requires facts { IsIn setting.Facts (needed_by command) }
    requires journal { IsIn setting.Journal (needed_by command) }
    requires script { IsIn setting.Script (needed_by command) }
    ensures orders { IfOk result (λ orders. orders ≡ replayed rules words.now) }
    ensures fits { IfOk result Fits }
{
    Ok(Orders::Replay {
        files: ruled_files_of(alloc, words, command, rules)?,
        journal: needed_text(alloc, words, command, Setting::Journal)?,
        script: needed_text(alloc, words, command, Setting::Script)?,
        stated: stated(words, command, USUAL_REQUESTS),
    })
}

// The draft of a fact file of whose columns nothing is stated.
fn plain_drafting(alloc: Global, words: &[Text]) -> Result<Drafting, NoMemory>
    requires { IsRight command.Draft words.now }
    ensures { IfOk result (λ drafting. drafting ≡ plain_drafting_in words.now) }
{
    Ok(Drafting {
        facts: needed_text(alloc, words, Command::Draft, Setting::Facts)?,
        policy: false,
        choices: Choices {
            dimensions: Items::new(alloc),
            members: Items::new(alloc),
            skipped: Items::new(alloc),
        },
    })
}

/// The orders of a command by the words behind it, with which nothing is wrong.
pub fn orders_with(alloc: Global, command: Command, words: &[Text]) -> Result<Orders, NoMemory>
    requires { IsRight command words.now }
    ensures orders { IfOk result (λ orders. orders ≡ orders_behind command words.now) }
    ensures fits { IfOk result Fits }
{
    match command {
        Command::Help => Ok(Orders::Help { on: None }),
        Command::Version => Ok(Orders::Version),
        Command::Draft => Ok(Orders::Draft {
            drafting: plain_drafting(alloc, words)?,
        }),
        Command::Sum => Ok(Orders::Sum {
            facts: needed_text(alloc, words, command, Setting::Facts)?,
        }),
        Command::Check => Ok(Orders::Check {
            files: files_of(alloc, words, command)?,
        }),
        Command::Ask => ask_with(alloc, words),
        Command::Witness => witness_with(alloc, words),
        Command::Twin => twin_with(alloc, words),
        Command::Compact => compact_with(alloc, words),
        Command::Carry => carry_with(alloc, words),
        Command::Why => why_with(alloc, words),
        Command::Audit => audit_with(alloc, words),
        Command::Advise => advise_with(alloc, words),
        Command::Serve => serve_with(alloc, words, command, one_policy(alloc, words, command)?),
        Command::ServeGroups => serve_with(
            alloc,
            words,
            command,
            own_policies(alloc, words, command)?,
        ),
        Command::Replay => replay_with(alloc, words, command, one_policy(alloc, words, command)?),
        Command::ReplayGroups => replay_with(
            alloc,
            words,
            command,
            own_policies(alloc, words, command)?,
        ),
        Command::Demo => Ok(Orders::Demo {
            making: making_of(words),
        }),
    }
}
