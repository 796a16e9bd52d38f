// The methods of the measures.
ghost use Rattle.std.specs.Prelude.{◌≡◌, [], map, find, codes, option_copied, unwrap_or};
ghost use Rattle.std.specs.List.{list_any};
ghost use Rattle.std.specs.Str.{bytes_eq};
ghost use Rattle.toml.specs.View.{table_view};
ghost use Rattle.cube_model.specs.Answers.{Answers};
ghost use Rattle.cube_model.specs.Checks.{in_turn, unless};
ghost use Rattle.cube_model.specs.declared.policy.Method.TheVariants as method;
ghost use Rattle.cube_policy.specs.PolicyFile.{method_of, declared_of, stated, methods_of, measure_named, measure_faults_at, measure_faults, unnamed};
ghost use Rattle.cube_policy.specs.declared.fault.PolicyFault.TheVariants as fault;

use crate::fault::PolicyFault;
use crate::keys::{Kind, check_keys};
use cube_dims::find_measure;
use cube_model::{Dims, Items, Measure, Method, Methods, Text};
use cube_tables::{entry_text, key_text, read_text};
use std::alloc::Global;
use toml::Table;

/// What the table of a measure says.
#[derive(Drop)]
pub(crate) struct Declared {
    /// The name of the measure.
    pub(crate) name: Text,
    /// How the measure is controlled.
    pub(crate) method: Method,
}

/// The method of a word.
fn method_of(word: &[u8]) -> Option<Method>
    ensures { result ≡ method_of word.now }
{
    if word == b"open".as_slice() {
        Some(Method::Plain)
    } else if word == b"lattice".as_slice() {
        Some(Method::Lattice)
    } else if word == b"parity".as_slice() {
        Some(Method::Parity)
    } else {
        None
    }
}

/// Whether the measure with a name is declared.
fn is_declared(declared: &[Declared], name: &[u8]) -> bool
    ensures { result ≡ list_any (λ d. bytes_eq name.now d.name) declared.now }
{
    declared.iter().any(|d| name == d.name.as_slice())
}

/// What is declared of the measure with a name.
fn declared_as<'a>(declared: &'a [Declared], name: &[u8]) -> Option<&'a Declared>
    ensures { option_copied result ≡ find (λ d. bytes_eq name.now d.name) declared.now }
{
    declared.iter().find(|d| name == d.name.as_slice())
}

/// The method that is declared of the measure with a name.
fn stated(declared: &[Declared], name: &[u8]) -> Option<Method>
    ensures { result ≡ stated declared.now name.now }
{
    match declared_as(declared, name) {
        Some(found) => Some(found.method),
        None => None,
    }
}

/// The method of a measure that is known and not declared before.
fn check_named(
    alloc: Global,
    dims: &Dims,
    entry: &Text,
    earlier: &[Declared],
    name: &Text,
    word: &Text,
) -> Result<Method, PolicyFault>
    ensures { Answers fault.NoMemory result (unless (measure_named dims.now entry.now earlier.now name.now word.now) (unwrap_or (method_of word.now) method.Plain)) }
{
    if find_measure(dims, name.as_slice()).is_none() {
        return Err(PolicyFault::Unknown {
            key: key_text(alloc, entry, b"name")?,
        });
    }
    let Some(method) = method_of(word.as_slice()) else {
        return Err(PolicyFault::Unknown {
            key: key_text(alloc, entry, b"method")?,
        });
    };
    if is_declared(earlier, name.as_slice()) {
        return Err(PolicyFault::MeasureTwice {
            key: key_text(alloc, entry, b"name")?,
        });
    }
    Ok(method)
}

/// What the table of a measure with a key says, behind these.
fn read_declared_at(
    alloc: Global,
    dims: &Dims,
    entry: &Text,
    table: &Table,
    earlier: &[Declared],
) -> Result<Declared, PolicyFault>
    ensures { Answers fault.NoMemory result (unless (measure_faults_at dims.now entry.now earlier.now (table_view table.now)) (declared_of (table_view table.now))) }
{
    check_keys(alloc, entry, Kind::Measure, table)?;
    let name = read_text::<PolicyFault>(alloc, table, entry, "name")?;
    let word = read_text::<PolicyFault>(alloc, table, entry, "method")?;
    let method = check_named(alloc, dims, entry, earlier, &name, &word)?;
    Ok(Declared { name, method })
}

/// What the table of a measure says, behind these.
pub(crate) fn read_declared(
    alloc: Global,
    dims: &Dims,
    table: &Table,
    earlier: &[Declared],
) -> Result<Declared, PolicyFault>
    ensures { Answers fault.NoMemory result (unless (measure_faults dims.now earlier.now (table_view table.now)) (declared_of (table_view table.now))) }
{
    let entry = entry_text(alloc, b"measure", earlier.len() as u64 + 1)?;
    read_declared_at(alloc, dims, &entry, table, earlier)
}

/// The method of each measure.
pub(crate) fn read_methods(
    alloc: Global,
    declared: &[Declared],
    measures: &[Measure],
) -> Result<Methods, PolicyFault>
    ensures { Answers fault.NoMemory result (unless (in_turn (unnamed declared.now) [] (map (λ m. m.name) measures.now)) (methods_of declared.now (map (λ m. m.name) measures.now))) }
{
    let mut methods = Items::new(alloc);
    for measure in measures {
        match stated(declared, measure.name()) {
            Some(method) => methods.push(method)?,
            None => {
                return Err(PolicyFault::Missing {
                    key: Text::from_bytes(alloc, measure.name())?,
                });
            }
        }
    }
    Ok(methods)
}
