// A store whose calls fail half way, and one whose space is used up.
ghost use Rattle.std.specs.Prelude.{IsTrue, IfOk};

use cube_io::{Failing, MemStore, Reach, Store};
use cube_model::Text;
use std::alloc::Global;
use std::test::Fail;

// A store with these logs, of which some calls fail, and with room for so many bytes.
fn make_store(
    alloc: Global,
    contents: Vec<Text>,
    failing: Vec<Failing>,
    room: usize,
) -> Result<MemStore, Fail>
    ensures { IfOk result (λ store. IsTrue (⟦<MemStore as Store>⟧.state store).attached) }
{
    let mut store = MemStore::with_capacity(alloc, contents, failing, 8, room)?;
    store.attach(&Text::from_bytes(alloc, b"log")?)?;
    Ok(store)
}

// A store whose log 1 holds `kept`. Behind `attach` its first call puts two bytes and fails, and its third does nothing and
// fails.
fn make_failing(alloc: Global) -> Result<MemStore, Fail>
    ensures { IfOk result (λ store. IsTrue (⟦<MemStore as Store>⟧.state store).attached) }
{
    let contents = vec![in alloc; Text::new(alloc), Text::from_bytes(alloc, b"kept")?]?;
    let failing = vec![in alloc;
        Failing {
            call: 1,
            reach: Reach::Part(2)
        },
        Failing {
            call: 3,
            reach: Reach::Nothing
        },
    ]?;
    make_store(alloc, contents, failing, 16)
}

#[test]
fn calls_fail_half_way(rt: HostRuntime) -> Result<(), Fail> {
    let mut store = make_failing(rt.alloc())?;
    assert!(rt; store.append(1, b"lines").is_err());
    assert!(rt; store.append(1, b"").is_ok());
    let torn = store.read_all(rt.alloc(), 1)?;
    assert_eq!(rt; torn.as_slice(), b"keptli".as_slice());
    assert!(rt; store.sync(1).is_err());
    Ok(())
}

#[test]
fn room_is_used_up(rt: HostRuntime) -> Result<(), Fail> {
    let alloc = rt.alloc();
    let mut store = make_store(alloc, Vec::new(alloc), Vec::new(alloc), 5)?;
    assert!(rt; store.append(0, b"ab").is_ok());
    assert!(rt; store.append(0, b"c").is_err());
    let kept = store.read_all(alloc, 0)?;
    assert_eq!(rt; kept.as_slice(), b"ab".as_slice());
    Ok(())
}
