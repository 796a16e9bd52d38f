// The words behind `draft`, which has an option without a value and three that may stand again.
ghost use Rattle.std.specs.Prelude.{◌≡◌, map, IfOk};
ghost use Rattle.std.specs.List.{position, before_first, after_first, slice_split};
ghost use Rattle.cube_words.specs.Words.{Fits};
ghost use Rattle.cube_words.specs.Drafting.{nothing, is_flag as is_flag_in, is_free as is_free_in, is_sign, is_comma, is_wrong_value as is_wrong_in, stated_in, added, said_from, drafted};

use crate::ordered::Orders;
use crate::words::{Setting, Usage};
use cube_draft::{Choices, Stated};
use cube_model::{Items, NoMemory, Text, Texts};
use std::alloc::Global;

/// What is drafted: of which fact file, with what is stated of its columns; the dimension file, or the policy file.
#[derive(Debug, Drop)]
pub struct Drafting {
    /// The fact file.
    pub facts: Text,
    /// Whether it is the policy file.
    pub policy: bool,
    /// What is stated of the columns.
    pub choices: Choices,
}

/// What the words so far say.
#[derive(Debug, Drop)]
pub struct Begun {
    facts: Option<Text>,
    policy: bool,
    choices: Choices,
}

fn begin(alloc: Global) -> Begun
    ensures { result ≡ nothing }
{
    Begun {
        facts: None,
        policy: false,
        choices: Choices {
            dimensions: Items::new(alloc),
            members: Items::new(alloc),
            skipped: Items::new(alloc),
        },
    }
}

fn is_flag(begun: &Begun, word: &[u8]) -> bool
    ensures { result ≡ is_flag_in begun.now word.now }
{
    word == Setting::Policy.word() && !begun.policy
}

fn is_free(begun: &Begun, word: &[u8]) -> bool
    ensures { result ≡ is_free_in begun.now word.now }
{
    word == Setting::Levels.word()
        || word == Setting::Members.word()
        || word == Setting::Skip.word()
        || (word == Setting::Facts.word() && begun.facts.is_none())
}

fn find_sign(value: &[u8]) -> Option<usize>
    ensures { result ≡ position is_sign value.now }
{
    value.iter().position(|byte| *byte == b'=')
}

fn before_sign(value: &[u8]) -> &[u8]
    ensures { result.now ≡ before_first is_sign value.now }
{
    match find_sign(value) {
        Some(at) => &value[..at],
        None => value,
    }
}

fn behind_sign(value: &[u8]) -> &[u8]
    ensures { result.now ≡ after_first is_sign value.now }
{
    match find_sign(value) {
        Some(at) => &value[at + 1..],
        None => &[],
    }
}

fn is_wrong_value(word: &[u8], value: &[u8]) -> bool
    ensures { result ≡ is_wrong_in word.now value.now }
{
    word == Setting::Levels.word() && !value.contains(&b'=')
}

// The parts of a text between commas.
fn parts_of<'a>(alloc: Global, text: &'a [u8]) -> Result<Vec<&'a [u8]>, NoMemory>
    ensures { IfOk result (λ parts. map (λ x. x.now) parts.items ≡ slice_split is_comma text.now) }
{
    Ok(text.split(|byte| *byte == b',').collect(alloc)?)
}

fn copies_of(alloc: Global, parts: &[&[u8]]) -> Result<Texts, NoMemory>
    ensures { IfOk result (λ texts. texts ≡ map (λ x. x.now) parts.now) }
{
    let mut texts = Items::new(alloc);
    for part in parts {
        texts.push(Text::from_bytes(alloc, part)?)?;
    }
    Ok(texts)
}

fn columns_of(alloc: Global, text: &[u8]) -> Result<Texts, NoMemory>
    ensures { IfOk result (λ columns. columns ≡ slice_split is_comma text.now) }
{
    let parts = parts_of(alloc, text)?;
    copies_of(alloc, parts.as_slice())
}

// The dimension that a value states.
fn stated_of(alloc: Global, value: &[u8]) -> Result<Stated, NoMemory>
    ensures { IfOk result (λ stated. stated ≡ stated_in value.now) }
{
    Ok(Stated {
        name: Text::from_bytes(alloc, before_sign(value))?,
        columns: columns_of(alloc, behind_sign(value))?,
    })
}

// What is said with an option and its value more, which may stand here.
fn add(alloc: Global, begun: Begun, word: &[u8], value: &[u8]) -> Result<Begun, NoMemory>
    ensures { IfOk result (λ b. b ≡ added begun word.now value.now) }
{
    let Begun {
        facts,
        policy,
        choices,
    } = begun;
    let Choices {
        mut dimensions,
        mut members,
        mut skipped,
    } = choices;
    let mut file = facts;
    if word == Setting::Levels.word() {
        dimensions.push(stated_of(alloc, value)?)?;
    } else if word == Setting::Members.word() {
        members.push(Text::from_bytes(alloc, value)?)?;
    } else if word == Setting::Skip.word() {
        skipped.push(Text::from_bytes(alloc, value)?)?;
    } else {
        file = Some(Text::from_bytes(alloc, value)?);
    }
    Ok(Begun {
        facts: file,
        policy,
        choices: Choices {
            dimensions,
            members,
            skipped,
        },
    })
}

// What the words from a place on say, behind what was said before; or the number of the first wrong one, the command being word 0.
fn read_words(alloc: Global, words: &[Text]) -> Result<Result<Begun, usize>, NoMemory>
    ensures { IfOk result (λ said. said ≡ said_from nothing 1 words.now) }
{
    let mut begun = begin(alloc);
    let mut at = 0;
    'words: while at < words.len() {
        let word = words[at].as_slice();
        if is_flag(&begun, word) {
            begun.policy = true;
            at += 1;
        } else if !is_free(&begun, word) {
            return Ok(Err(at + 1));
        } else if at + 1 == words.len() {
            return Ok(Err(at + 1));
        } else {
            let value = words[at + 1].as_slice();
            if is_wrong_value(word, value) {
                return Ok(Err(at + 2));
            }
            begun = add(alloc, begun, word, value)?;
            at += 2;
        }
    }
    Ok(Ok(begun))
}

/// What the words behind `draft` order, or what is wrong with them.
pub fn drafting_of(alloc: Global, words: &[Text]) -> Result<Result<Orders, Usage>, NoMemory>
    ensures orders { IfOk result (λ given. given ≡ drafted words.now) }
    ensures fits { IfOk result (λ given. IfOk given Fits) }
{
    let begun = match read_words(alloc, words)? {
        Err(number) => return Ok(Err(Usage::Wrong(number))),
        Ok(begun) => begun,
    };
    let Begun {
        facts,
        policy,
        choices,
    } = begun;
    match facts {
        None => Ok(Err(Usage::Missing(Setting::Facts))),
        Some(facts) => Ok(Ok(Orders::Draft {
            drafting: Drafting {
                facts,
                policy,
                choices,
            },
        })),
    }
}
