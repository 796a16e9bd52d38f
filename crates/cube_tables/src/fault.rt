// The faults that reading a table needs of the faults of a file.
ghost use Rattle.std.specs.Prelude.{◌≡◌, ℕ, List, Ok, MatchResult};

use cube_model::{NoMemory, Text};

/// A fault of a file that is read as a table. A key says where the fault is, as `measure 2 name`.
pub trait TableFault {
    /// The fault of a key that has to be there and is not, or whose array is empty.
    ghost missing: { List ℕ → Self };

    /// The fault of a value of another kind.
    ghost wrong_kind: { List ℕ → Self };

    /// That memory ran out.
    ghost no_memory: { Self };

    /// A key has to be there and is not, or its array is empty.
    fn is_missing(key: Text) -> Self
        ensures { result ≡ missing key };

    /// A value is of another kind.
    fn is_wrong_kind(key: Text) -> Self
        ensures { result ≡ wrong_kind key };

    /// Memory ran out.
    fn out_of_memory() -> Self
        ensures { result ≡ no_memory };
}

/// An answer with want of memory as a fault of the file.
pub(crate) fn with_memory<T, F: TableFault>(answer: Result<T, NoMemory>) -> Result<T, F>
    ensures { MatchResult result (λ x. answer ≡ Ok x) (λ e. e ≡ F.no_memory) }
{
    match answer {
        Ok(value) => Ok(value),
        Err(_) => Err(F::out_of_memory()),
    }
}
