// What is said to the lines of an input.
ghost use Rattle.std.specs.Prelude.{◌≡◌, ◌≤◌, ◌<◌, ◌+◌, ◌++◌, [], length, take, IsTrue, IsOk, OnOk, OnErr};
ghost use Rattle.std.specs.Io.KnownBytes.{Appends};
ghost use Rattle.cube_io.specs.Causes.{HasCause};
ghost use Rattle.cube_io.specs.Content.{AppendsPrefix};
ghost use Rattle.cube_talk.specs.Putting.{MayPut};
ghost use Rattle.cube_talk.specs.Replies.{head_text, reply_text, said_text};
ghost use Rattle.cube_talk.specs.Talk.{Spoke};

use cube_http::{body_of, status_of};
use cube_io::{Failed, Sink, Store};
use cube_model::{Reply, Text};
use cube_text::{LINE, write_at};
use itoa::Buffer;
use std::alloc::Global;
use std::marker::Model;

/// What is said to one line.
#[derive(Debug, Drop)]
pub enum Said {
    /// A text.
    Text(Text),
    /// A reply, with its status and its length in a line before it.
    Reply(Reply),
}

// Writes the status and the length of a reply.
fn write_prefix(buf: &mut [u8; LINE], status: u16, len: usize) -> usize
    ensures written { take result buf.new ≡ head_text status len }
    ensures short { result ≤ 64 }
{
    let mut number = Buffer::new();
    let at = write_at(buf, 0, number.format(status).as_bytes());
    let at = write_at(buf, at, b" ");
    let at = write_at(buf, at, number.format(len).as_bytes());
    write_at(buf, at, b"\n")
}

/// What waits to be written, so that the answers to the lines of one piece are put together. Where there is no memory for that, it
/// is written at once.
#[derive(Drop)]
pub struct Replies {
    waiting: Vec<u8>,
}

impl Model for Replies {
    ghost use Rattle.std.specs.Prelude.{ℕ, List};

    ghost Value = { List ℕ };

    ghost view = { λ r. r.waiting.items };
}

impl Replies {
    /// Nothing waits.
    pub fn new(alloc: Global) -> Self
        ensures { result ≡ [] }
    {
        Replies {
            waiting: Vec::new(alloc),
        }
    }

    /// Writes all that waits.
    pub fn flush<S: Store, O: Sink>(&mut self, store: &S, out: &mut O) -> Result<(), Failed>
        requires { MayPut O.allows (S.state store.now) (O.state out.old).written self.old }
        ensures ok { OnOk result ((self.new ≡ []) × Appends (O.state out.old).written (O.state out.new).written self.old) }
        ensures err { OnErr result (AppendsPrefix (O.state out.old).written (O.state out.new).written self.old) }
        ensures empty { self.old ≡ [] → IsOk result }
        ensures cause { HasCause (O.state out.old).faults (O.state out.new).faults result }
        ensures sight { IsTrue (S.state store.now).told → (O.state out.new).loose ≡ (O.state out.old).loose }
    {
        out.put(store, self.waiting.as_slice())?;
        self.waiting.clear();
        Ok(())
    }

    // Says some bytes.
    #[tactic(auto, using(crate::proofs::Spoken::spoke_kept, crate::proofs::Spoken::spoke_put, crate::proofs::Spoken::broken_before, crate::proofs::Spoken::broken_behind, crate::proofs::Puttings::may_front))]
    fn put<S: Store, O: Sink>(&mut self, store: &S, out: &mut O, bytes: &[u8]) -> Result<(), Failed>
        requires { MayPut O.allows (S.state store.now) (O.state out.old).written (self.old ++ bytes.now) }
        ensures ok { OnOk result (Spoke bytes.now self.old self.new (O.state out.old).written (O.state out.new).written) }
        ensures err { OnErr result (AppendsPrefix (O.state out.old).written (O.state out.new).written (self.old ++ bytes.now)) }
        ensures cause { HasCause (O.state out.old).faults (O.state out.new).faults result }
        ensures sight { IsTrue (S.state store.now).told → (O.state out.new).loose ≡ (O.state out.old).loose }
    {
        if self.waiting.extend_from_slice(bytes).is_ok() {
            return Ok(());
        }
        self.flush(store, out)?;
        out.put(store, bytes)
    }

    fn put_reply<S: Store, O: Sink>(
        &mut self,
        store: &S,
        out: &mut O,
        reply: &Reply,
    ) -> Result<(), Failed>
        requires { MayPut O.allows (S.state store.now) (O.state out.old).written (self.old ++ reply_text reply.now) }
        ensures ok { OnOk result (Spoke (reply_text reply.now) self.old self.new (O.state out.old).written (O.state out.new).written) }
        ensures err { OnErr result (AppendsPrefix (O.state out.old).written (O.state out.new).written (self.old ++ reply_text reply.now)) }
        ensures cause { HasCause (O.state out.old).faults (O.state out.new).faults result }
        ensures sight { IsTrue (S.state store.now).told → (O.state out.new).loose ≡ (O.state out.old).loose }
    {
        let body = body_of(reply);
        let mut head = [0u8; LINE];
        let end = write_prefix(&mut head, status_of(reply), body.len());
        self.put(store, out, &head[..end])?;
        self.put(store, out, body)?;
        Ok(())
    }

    /// Says what is said to a line.
    pub fn say<S: Store, O: Sink>(
        &mut self,
        store: &S,
        out: &mut O,
        said: &Said,
    ) -> Result<(), Failed>
        requires { MayPut O.allows (S.state store.now) (O.state out.old).written (self.old ++ said_text said.now) }
        ensures ok { OnOk result (Spoke (said_text said.now) self.old self.new (O.state out.old).written (O.state out.new).written) }
        ensures err { OnErr result (AppendsPrefix (O.state out.old).written (O.state out.new).written (self.old ++ said_text said.now)) }
        ensures cause { HasCause (O.state out.old).faults (O.state out.new).faults result }
        ensures sight { IsTrue (S.state store.now).told → (O.state out.new).loose ≡ (O.state out.old).loose }
    {
        match said {
            Said::Text(text) => self.put(store, out, text.as_slice()),
            Said::Reply(reply) => self.put_reply(store, out, reply),
        }
    }
}
