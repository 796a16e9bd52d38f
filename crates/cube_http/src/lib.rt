//! HTTP/1.0 and 1.1 as far as the server speaks it: what the bytes of a connection say, however
//! they are cut into pieces, what a request asks for, and the bytes of a response.
#![tactic(auto)]

mod connection;
mod fields;
mod form;
mod head;
pub mod laws;
mod responses;
mod targets;

pub use connection::{
    BodyConn, Conn, DeadConn, DoneConn, Fed, HeadConn, Heard, MAX_BODY, MAX_HEAD,
};
pub use responses::{body_of, status_of, write_head};
pub use targets::{Route, Wanted};
