// Seals of values over a store in memory.
ghost use Rattle.std.specs.Prelude.{IsTrue, IfOk};

use cube_io::{Failing, MemStore, Reach, SEAL_LOG, Store};
use cube_journal::digest_of;
use cube_model::Text;
use cube_seal::{SealFault, compare_seal, hold_seal};
use std::alloc::Global;
use std::test::Fail;

/// The seal of values whose digest is that of `abc`, an example of the standard of SHA-256.
const SEALED: &[u8] = b"values ba7816bf8f01cfea414140de5dae2223b00361a396177a9cb410ff61f20015ad\n";

/// The seal of no values.
const OTHER: &[u8] = b"values e3b0c44298fc1c149afbf4c8996fb92427ae41e4649b934ca495991b7852b855\n";

/// A seal of an earlier form, which was of the bytes of a fact file.
const EARLIER: &[u8] = b"facts ba7816bf8f01cfea414140de5dae2223b00361a396177a9cb410ff61f20015ad\n";

/// A store whose log of the seal has these bytes.
fn store_of(alloc: Global, bytes: &[u8], failing: Vec<Failing>) -> Result<MemStore, Fail>
    ensures { IfOk result (λ store. IsTrue (⟦<MemStore as Store>⟧.state store).attached) }
{
    let mut store = MemStore::with_capacity(alloc, Vec::new(alloc), failing, 16, 512)?;
    match store.attach(&Text::from_bytes(alloc, b"log")?) {
        Ok(()) => {}
        Err(_) => return Err(Fail::from("no store")),
    }
    match store.append(SEAL_LOG, bytes) {
        Ok(()) => Ok(store),
        Err(_) => Err(Fail::from("no bytes")),
    }
}

#[test]
fn seals_are_written_and_compared(rt: HostRuntime) -> Result<(), Fail> {
    let alloc = rt.alloc();
    let other = SealFault::OtherValues {
        kept: digest_of(b""),
    };
    let long = [b'v'; 73];
    // What the log has before, how the values are held, and what it has then.
    let cases: [(&[u8], Result<(), SealFault>, &[u8]); 7] = [
        (b"", Ok(()), SEALED),
        (SEALED, Ok(()), SEALED),
        (b"values ba7816bf", Ok(()), SEALED),
        (OTHER, Err(other), OTHER),
        (
            b"values ba7816bf\n",
            Err(SealFault::Damaged),
            b"values ba7816bf\n",
        ),
        (EARLIER, Err(SealFault::Damaged), EARLIER),
        (&long, Err(SealFault::Damaged), &long),
    ];
    for (before, held, after) in &cases {
        let mut store = store_of(alloc, before, Vec::new(alloc))?;
        assert_eq!(rt;
            compare_seal(alloc, &mut store, 0, &digest_of(b"abc")),
            *held
        );
        assert_eq!(rt; hold_seal(alloc, &mut store, 0, &digest_of(b"abc")), *held);
        let bytes = store.read_all(alloc, SEAL_LOG)?;
        assert_eq!(rt; bytes.as_slice(), *after);
    }
    Ok(())
}

type Held = Result<(), SealFault>;

// Holds the seal of values whose digest is that of `abc` twice, where the call of the store with this number fails, and tells what the log
// has then.
fn hold_twice(alloc: Global, call: u64) -> Result<((Held, Held), Text), Fail> {
    let reach = Reach::Part(7);
    let mut store = store_of(
        alloc,
        b"values ba",
        vec![in alloc; Failing { call, reach }]?,
    )?;
    let values = digest_of(b"abc");
    let first = hold_seal(alloc, &mut store, 0, &values);
    let next = hold_seal(alloc, &mut store, 0, &values);
    Ok(((first, next), store.read_all(alloc, SEAL_LOG)?))
}

#[test]
fn a_call_that_fails_is_made_up_for(rt: HostRuntime) -> Result<(), Fail> {
    // The store takes two calls before, and the seal four: a read, a cut, an append and a sync.
    for call in 2..6 {
        let (held, bytes) = hold_twice(rt.alloc(), call)?;
        assert_eq!(rt; held, (Err(SealFault::Failed), Ok(())));
        assert_eq!(rt; bytes.as_slice(), SEALED);
    }
    Ok(())
}
