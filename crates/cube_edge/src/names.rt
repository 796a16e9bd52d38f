// A name of files as it was given, and what it really is.
ghost use Rattle.std.specs.Prelude.{◌≡◌, ◌++◌, drop, length, string_bytes, OnOk};

use crate::disk::Trouble;
use crate::store::MAX_PATH;
use std::alloc::{AllocError, Global};

/// The longest ending that a path has behind its name: a point and a number of 32 bits.
const MAX_ENDING: usize = 11;

/// A name that the paths of files begin with, and what it really is: no symbolic link is in that.
#[derive(Drop)]
pub(crate) struct Names {
    given: String,
    // Empty as long as it isn't known.
    real: String,
    real_path: String,
}

/// Writes down the path that really stands for one that begins with a given name: it has the same ending.
fn write_real(real_path: &mut String, given: &str, real: &str, path: &str) -> Result<(), Trouble>
    ensures { OnOk result (string_bytes real_path.new ≡ real.now ++ drop (length given.now) path.now) }
{
    real_path.clear();
    real_path.push_str(real)?;
    match path.strip_prefix(given) {
        Some(ending) => Ok(real_path.push_str(ending)?),
        None => Err(Trouble::NoFile),
    }
}

impl Names {
    /// A name of which it isn't known what it really is, with room for that.
    pub(crate) fn new(alloc: Global, given: &str) -> Result<Names, AllocError> {
        Ok(Names {
            given: String::from_str(alloc, given)?,
            real: String::with_capacity(alloc, MAX_PATH)?,
            real_path: String::with_capacity(alloc, MAX_PATH + MAX_ENDING)?,
        })
    }

    /// The name as it was given.
    pub(crate) fn given(&self) -> &str
        ensures { result.now ≡ string_bytes self.now.given }
    {
        self.given.as_str()
    }

    /// What it really is; empty where that isn't known.
    pub(crate) fn real(&self) -> &str
        ensures { result.now ≡ string_bytes self.now.real }
    {
        self.real.as_str()
    }

    /// Whether it is known what it really is.
    pub(crate) fn are_found(&self) -> bool {
        !self.real.is_empty()
    }

    /// Takes down what it really is.
    pub(crate) fn set_real(&mut self, real: &str) -> Result<(), Trouble>
        ensures given { self.new.given ≡ self.old.given }
        ensures real { OnOk result (string_bytes self.new.real ≡ real.now) }
    {
        self.real.clear();
        Ok(self.real.push_str(real)?)
    }

    /// Takes down that it is what it was given as.
    pub(crate) fn set_real_as_given(&mut self) -> Result<(), Trouble>
        ensures given { self.new.given ≡ self.old.given }
        ensures real { OnOk result (string_bytes self.new.real ≡ string_bytes self.old.given) }
    {
        self.real.clear();
        Ok(self.real.push_str(self.given.as_str())?)
    }

    /// Writes down the path that really stands for one that begins with the given name.
    pub(crate) fn turn_to(&mut self, path: &str) -> Result<(), Trouble>
        ensures given { self.new.given ≡ self.old.given }
        ensures real { self.new.real ≡ self.old.real }
        ensures path { OnOk result (string_bytes self.new.real_path ≡ string_bytes self.old.real ++ drop (length (string_bytes self.old.given)) path.now) }
    {
        write_real(
            &mut self.real_path,
            self.given.as_str(),
            self.real.as_str(),
            path,
        )
    }

    /// The path that was written down last.
    pub(crate) fn real_path(&self) -> &str
        ensures { result.now ≡ string_bytes self.now.real_path }
    {
        self.real_path.as_str()
    }
}
