// The made queries, asked of a book whose store keeps nothing.
ghost use Rattle.std.specs.Prelude.{◌≡◌, None, IfOk, OnOk, IsTrue};
ghost use Rattle.cube_model.specs.Policies.{IsPolicy};

use cube_core::Core;
use cube_engine::{Book, SharedCore};
use cube_io::{NullStore, Store};
use cube_model::{NoMemory, Outcome, Policy, Question, Text};
use std::alloc::Global;

/// A store that keeps nothing, under some name.
fn null_store(alloc: Global) -> Result<NullStore, NoMemory>
    ensures { IfOk result (λ store. IsTrue (⟦<NullStore as Store>⟧.state store).attached) }
{
    let name = Text::from_bytes(alloc, b"demo")?;
    let mut store = NullStore::new();
    match store.attach(&name) {
        Ok(()) => Ok(store),
        Err(_) => unreachable!(),
    }
}

/// Asks a query. Want of memory for the reply is an error here, any other reply is passed over.
fn ask(alloc: Global, book: &mut Book, store: &mut NullStore, query: &Text) -> Result<(), NoMemory>
    requires none { book.old.waiting ≡ None }
    requires attached { IsTrue (⟦<NullStore as Store>⟧.state store.old).attached }
    ensures none { OnOk result (book.new.waiting ≡ None) }
    ensures attached { OnOk result (IsTrue (⟦<NullStore as Store>⟧.state store.new).attached) }
{
    let asked = Question::Query(query.copied(alloc)?);
    match book.answer(alloc, store, &asked) {
        (_, Outcome::NoMemory) => Err(NoMemory),
        _ => Ok(()),
    }
}

/// Asks queries in turn.
pub(crate) fn ask_all(
    alloc: Global,
    core: Core,
    policy: Policy,
    queries: &[Text],
) -> Result<(), NoMemory>
    requires { IsPolicy core.dims policy }
{
    let mut store = null_store(alloc)?;
    let core = SharedCore::new(alloc, core)?;
    let Ok(mut book) = Book::start(alloc, core, policy, &mut store, 0) else {
        return Err(NoMemory);
    };
    'queries: for query in queries {
        ask(alloc, &mut book, &mut store, query)?;
    }
    Ok(())
}
