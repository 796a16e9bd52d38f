// Sends on one connection.
ghost use Rattle.std.specs.Prelude.{◌≡◌, IsTrue, true, false};
ghost use Rattle.cube_io.specs.Wires.{IsSound};
ghost use Rattle.cube_http.specs.Responses.{has_phrase, status_of};
ghost use Rattle.cube_server.specs.Logs.{spoken, spoken_all, shut_if, replied};
ghost use Rattle.cube_server.specs.Seen.{OnlySends};
ghost use Rattle.cube_server.specs.Steps.{Speaks, body_sends};

use cube_http::{body_of, write_head};
use cube_io::Wire;
use cube_model::Reply;

// As many bytes as the head of a response may have.
const MAX_RESPONSE_HEAD: usize = 256;

/// Sends a piece. Where that fails the connection is closed. Tells whether it is open.
pub fn send_piece<W: Wire>(wire: &mut W, c: u32, piece: &[u8]) -> bool
    requires { IsTrue (W.state wire.old).told → IsSound c (W.state wire.old).log }
    ensures says { IsTrue (W.state wire.old).told → Speaks c (spoken c piece.now) (W.state wire.old).log (W.state wire.new).log result }
    ensures sending { OnlySends (W.state wire.old) (W.state wire.new) }
{
    match wire.send(c, piece) {
        Ok(()) => true,
        Err(_) => {
            wire.close(c);
            false
        }
    }
}

// Sends a body, unless it is left out or empty. Tells whether the connection is open.
fn send_body<W: Wire>(wire: &mut W, c: u32, body: &[u8], head_only: bool) -> bool
    requires { IsTrue (W.state wire.old).told → IsSound c (W.state wire.old).log }
    ensures says { IsTrue (W.state wire.old).told → Speaks c (spoken_all c (body_sends head_only body.now)) (W.state wire.old).log (W.state wire.new).log result }
    ensures sending { OnlySends (W.state wire.old) (W.state wire.new) }
{
    if head_only || body.is_empty() {
        return true;
    }
    send_piece(wire, c, body)
}

// Closes a connection that is open, where it is to be closed. Tells whether it is open.
fn end_reply<W: Wire>(wire: &mut W, c: u32, close: bool) -> bool
    requires { IsTrue (W.state wire.old).told → IsSound c (W.state wire.old).log }
    ensures says { IsTrue (W.state wire.old).told → Speaks c (shut_if close c) (W.state wire.old).log (W.state wire.new).log result }
    ensures sending { OnlySends (W.state wire.old) (W.state wire.new) }
    ensures closed { close ≡ true → result ≡ false }
{
    if close {
        wire.close(c);
        return false;
    }
    true
}

/// Sends a reply and closes the connection behind it, where it is to be closed. Tells whether it is open.
pub fn send_reply<W: Wire>(
    wire: &mut W,
    c: u32,
    reply: &Reply,
    close: bool,
    head_only: bool,
) -> bool
    requires live { IsTrue (W.state wire.old).told → IsSound c (W.state wire.old).log }
    requires phrase { IsTrue (has_phrase (status_of reply.now)) }
    ensures says { IsTrue (W.state wire.old).told → Speaks c (replied c reply.now close head_only) (W.state wire.old).log (W.state wire.new).log result }
    ensures sending { OnlySends (W.state wire.old) (W.state wire.new) }
    ensures closed { close ≡ true → result ≡ false }
{
    let mut buf = [0u8; MAX_RESPONSE_HEAD];
    let len = write_head(reply, close, &mut buf);
    if !send_piece(wire, c, &buf[..len]) {
        return false;
    }
    if !send_body(wire, c, body_of(reply), head_only) {
        return false;
    }
    end_reply(wire, c, close)
}
