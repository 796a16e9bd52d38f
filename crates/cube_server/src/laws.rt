//! The worked examples and the laws of the log. The functions do nothing: each clause is a law.
ghost use Rattle.std.specs.Prelude.{◌≡◌, [], ◌∷◌, ◌++◌, true, Some, None, codes};
ghost use Rattle.cube_model.specs.declared.outcome.Outcome.TheVariants.{Given, NoMemory};
ghost use Rattle.cube_model.specs.declared.reply.Fixed.TheVariants as fixed;
ghost use Rattle.cube_model.specs.Rooms.{Room};
ghost use Rattle.cube_io.specs.Desks.{LeavesAll};
ghost use Rattle.cube_io.specs.Wires.Arrival.{Opened, Came, End};
ghost use Rattle.cube_io.specs.Wires.LogEntry.{Sent, Torn, Shut};
ghost use Rattle.cube_server.specs.Alike.{LogsAreAlike};
ghost use Rattle.cube_server.specs.Closings.{FailsLast};
ghost use Rattle.cube_server.specs.Crashes.{IsInHand};
ghost use Rattle.cube_server.specs.Failing.{Gives, enters, failed_first, kept, log_before, log_behind};
ghost use Rattle.cube_server.specs.Rows.{played, texts, get, ok_head, ample, mixed_events, refused_events, anew_events, refused_with};

/// What goes out, and what is asked.
pub fn worked_logs()
    // Two connections, the first in two halves and with a second request behind: each reply goes to its own.
    ensures mixed { played mixed_events (ample (Given ∷ Given ∷ Given ∷ []) [] [])
        ≡ Sent 2 (ok_head 49) ∷ Sent 2 (codes "b") ∷ Sent 1 (ok_head 49) ∷ Sent 1 (codes "a") ∷ Sent 1 (ok_head 49) ∷ Sent 1 (codes "c") ∷ [] }
    ensures asked { texts mixed_events (ample (Given ∷ Given ∷ Given ∷ []) [] [])
        ≡ codes "b" ∷ codes "a" ∷ codes "c" ∷ [] }
    // The send of a body fails after no byte: the connection is closed, and its later pieces are dropped.
    ensures torn { played (Opened 1 ∷ Came 1 (get (codes "a")) ∷ Came 1 (get (codes "b")) ∷ End ∷ []) (ample (Given ∷ []) (None ∷ Some 0 ∷ []) [])
        ≡ Sent 1 (ok_head 49) ∷ Torn 1 [] 1 ∷ Shut 1 ∷ [] }
    // The stated number of asks is used up.
    ensures spent { played (Opened 1 ∷ Came 1 (get (codes "a") ++ get (codes "b")) ∷ End ∷ []) (record { asks = 1; events = 99; outcomes = Given ∷ Given ∷ []; sends = []; starved = [] })
        ≡ Sent 1 (ok_head 49) ∷ Sent 1 (codes "a") ∷ [] }
    // A bad head is answered and closed; a constant reply without memory takes an outcome.
    ensures refused { played refused_events (ample (NoMemory ∷ []) [] (true ∷ []))
        ≡ refused_with 1 fixed.BadHead (codes "bad request") ++ refused_with 2 fixed.NoMemory (codes "no memory") }
    // A connection that is closed and opened again begins anew.
    ensures anew { played anew_events (ample (Given ∷ []) [] [])
        ≡ Sent 1 (ok_head 49) ∷ Sent 1 (codes "b") ∷ [] }
{}

/// Where each reply is the same over other rooms, the log is the same, and so are the asks.
pub fn logs_are_alike()
    ensures { LogsAreAlike }
{}

/// Behind a send that failed its connection is closed, and nothing more goes out before an event comes.
pub fn failed_sends_are_closed()
    ensures { FailsLast }
{}

/// What a crash may leave while two asks are answered, of which the journal fails for the first: nothing yet, or the request of the first
/// alone, which was in hand, or that of the second alone; but not both. The log of such a run leaves just that, and were the request
/// of the ask that failed left out of what is in hand, it would leave more.
pub fn worked_fault()
    ensures nothing { (r : Room) → IsInHand (enters r) [] failed_first [] }
    ensures first { (r : Room) → IsInHand (enters r) [] failed_first (r ∷ []) }
    ensures second { (r : Room) → IsInHand (enters r) [] failed_first (r ∷ r ∷ []) }
    ensures both { (r : Room) → ¬ IsInHand (enters r) [] failed_first (r ∷ r ∷ r ∷ []) }
    ensures leaves { (r : Room) → LeavesAll (Gives r) (IsInHand (enters r) [] failed_first) log_before log_behind }
    ensures without { (r : Room) → ¬ LeavesAll (Gives r) (IsInHand (enters r) [] (kept ∷ [])) log_before log_behind }
{}
