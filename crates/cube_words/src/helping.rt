// The help: how the commands are used, by what a person is doing.
ghost use Rattle.std.specs.Prelude.{◌≡◌, ◌++◌, flat_map, IfOk, OnOk};
ghost use Rattle.cube_words.specs.Help.{usage_of, note_of, noted as noted_of, group_text, help_text, help_on, help_said};

use crate::words::{Command, Setting};
use cube_model::{NoMemory, Text};
use std::alloc::Global;

// The options of which something is said.
const NOTED: [Setting; 6] = [
    Setting::Groups,
    Setting::Requests,
    Setting::Idle,
    Setting::Levels,
    Setting::Members,
    Setting::Skip,
];

// How a command is used, and what it does.
fn usage(command: Command) -> &'static [u8]
    ensures { result.now ≡ usage_of command }
{
    match command {
        Command::Help =>
            b"cube --help, cube COMMAND --help, cube help COMMAND\n    prints this text, or the part of it on a command; `-h` and `help` stand for `--help`\n",
        Command::Version => b"cube --version\n    prints the version\n",
        Command::Draft =>
            b"cube draft --facts FILE [--policy] [--levels NAME=COLUMN,COLUMN].. [--members COLUMN].. [--skip COLUMN]..\n    prints a dimension file for a fact file; with --policy a policy file for it, which protects every nonempty cell\n",
        Command::Sum =>
            b"cube sum --facts FILE\n    answers each line of the input by a sum over the file\n",
        Command::Check =>
            b"cube check --dims FILE --facts FILE --policy FILE\n    says what the files hold\n",
        Command::Ask =>
            b"cube ask --dims FILE --facts FILE --policy FILE --journal FILE [--requests N]\n    answers each line of the input as a query, or as `shape` or `witness CELL`\n",
        Command::Witness =>
            b"cube witness --dims FILE --facts FILE --policy FILE --journal FILE --cell CELL\n    prints the changes that hide a cell\n",
        Command::Twin =>
            b"cube twin --dims FILE --facts FILE --policy FILE --journal FILE --cell CELL\n    prints the fact file of the cube with these changes\n",
        Command::Compact =>
            b"cube compact --dims FILE --facts FILE --policy FILE --journal FILE [--out FILE]\n    prints the journal written down as what it holds, or puts it into a file, whole\n",
        Command::Carry =>
            b"cube carry --dims FILE --facts FILE --policy FILE --from-dims FILE --from-facts FILE --from-policy FILE --from-journal FILE [--out FILE]\n    prints the journal of an older cube written down for one that continues it, with a month more for instance, or puts it into a file,\n    whole\n",
        Command::Why =>
            b"cube why --dims FILE --facts FILE --policy FILE --journal FILE --query QUERY [--reason FILE]\n    prints why a query is refused, for anybody to check, or says whether a file is such a reason\n",
        Command::Audit =>
            b"cube audit --dims FILE --facts FILE --policy FILE --transcript FILE\n    says whether what some server replied is exact and keeps each protected cell hidden\n",
        Command::Advise =>
            b"cube advise --dims FILE --facts FILE --policy FILE [--journal FILE] [--workload FILE]\n    prints what can be released, and what becomes of each query of a file\n",
        Command::Serve | Command::ServeGroups =>
            b"cube serve --dims FILE --facts FILE (--policy FILE | --groups FILE) --journal FILE --address ADDRESS [--requests N] [--idle SECONDS]\n    answers asks over HTTP, until it is stopped; closes a connection that is still for so long\n",
        Command::Replay | Command::ReplayGroups =>
            b"cube replay --dims FILE --facts FILE (--policy FILE | --groups FILE) --journal FILE --script FILE [--requests N]\n    plays a script of connections and writes what was sent\n",
        Command::Demo =>
            b"cube demo --number N --size S\n    makes a cube of 20,000 S facts and says how 200 S queries on it are judged\n",
    }
}

// What is said of an option beside its commands.
fn note(setting: Setting) -> &'static [u8]
    ensures { result.now ≡ note_of setting }
{
    match setting {
        Setting::Groups =>
            b"--groups FILE: in the place of one policy groups of users, each with a policy and a journal of its own,\n    asked under /g/NAME/. Group k from 0 is kept in the file JOURNAL.k, the first in JOURNAL\n",
        Setting::Requests =>
            b"--requests N: answers at most N asks, refused ones too, and ends behind them with status 10\n    1 to 16777216; without it 1000000, under serve 16777216. What was answered is in the journal\n",
        Setting::Idle => b"--idle SECONDS: 0 to 86400, where 0 is for ever; without it 60\n",
        Setting::Levels =>
            b"--levels NAME=COLUMN,COLUMN: these columns are the levels of one dimension of that name, the finest first;\n    without it a column that another one determines is a level above it\n",
        Setting::Members =>
            b"--members COLUMN: the numbers in this column, as ages or years, are members and no measure\n",
        Setting::Skip => b"--skip COLUMN: this column is left out: facts are added up over it\n",
        _ => b"",
    }
}

// The options of a command of which something is said.
fn noted(command: Command) -> &'static [Setting]
    ensures { result.now ≡ noted_of command }
{
    match command {
        Command::Draft => &[Setting::Levels, Setting::Members, Setting::Skip],
        Command::Ask => &[Setting::Requests],
        Command::Serve | Command::ServeGroups => &[
            Setting::Groups,
            Setting::Requests,
            Setting::Idle,
        ],
        Command::Replay | Command::ReplayGroups => &[Setting::Groups, Setting::Requests],
        _ => &[],
    }
}

fn push_usages(text: &mut Text, commands: &[Command]) -> Result<(), NoMemory>
    ensures { OnOk result (text.new ≡ text.old ++ flat_map usage_of commands.now) }
{
    for command in commands {
        text.extend(usage(*command))?;
    }
    Ok(())
}

fn push_notes(text: &mut Text, settings: &[Setting]) -> Result<(), NoMemory>
    ensures { OnOk result (text.new ≡ text.old ++ flat_map note_of settings.now) }
{
    for setting in settings {
        text.extend(note(*setting))?;
    }
    Ok(())
}

// What a person is doing, and the commands for it.
fn push_group(text: &mut Text, heading: &[u8], commands: &[Command]) -> Result<(), NoMemory>
    ensures { OnOk result (text.new ≡ text.old ++ group_text heading.now commands.now) }
{
    text.extend(heading)?;
    push_usages(text, commands)
}

// The whole help.
fn whole(alloc: Global) -> Result<Text, NoMemory>
    ensures { IfOk result (λ text. text ≡ help_text) }
{
    let mut text = Text::new(alloc);
    push_group(
        &mut text,
        b"Load and check:\n",
        &[Command::Draft, Command::Check, Command::Sum],
    )?;
    push_group(
        &mut text,
        b"Ask and serve:\n",
        &[Command::Ask, Command::Serve, Command::Replay],
    )?;
    push_group(
        &mut text,
        b"Look behind:\n",
        &[
            Command::Advise,
            Command::Why,
            Command::Witness,
            Command::Twin,
            Command::Audit,
        ],
    )?;
    push_group(&mut text, b"Keep:\n", &[Command::Compact, Command::Carry])?;
    push_group(
        &mut text,
        b"Else:\n",
        &[Command::Demo, Command::Help, Command::Version],
    )?;
    push_notes(&mut text, &NOTED)?;
    Ok(text)
}

// Its part on a command.
fn part(alloc: Global, command: Command) -> Result<Text, NoMemory>
    ensures { IfOk result (λ text. text ≡ help_on command) }
{
    let mut text = Text::from_bytes(alloc, usage(command))?;
    push_notes(&mut text, noted(command))?;
    Ok(text)
}

/// The help, or its part on a command.
pub fn help(alloc: Global, on: Option<Command>) -> Result<Text, NoMemory>
    ensures { IfOk result (λ text. text ≡ help_said on) }
{
    match on {
        None => whole(alloc),
        Some(command) => part(alloc, command),
    }
}
