// What a server replies.
use crate::Text;

/// The kind of a reply's body.
#[derive(Clone, Copy, Debug, PartialEq, Eq)]
pub enum Kind {
    /// Comma-separated values.
    Csv,
    /// JSON.
    Json,
    /// Plain text.
    Plain,
}

/// The replies whose bytes are always the same. They need no memory.
#[derive(Clone, Copy, Debug, PartialEq, Eq)]
pub enum Fixed {
    /// The head of a request is none, or says too much or too little of its host or its length.
    BadHead,
    /// There is no parameter `q`.
    NoQuery,
    /// Nothing has this path.
    NoPath,
    /// A query or a witness is asked for by GET, HEAD and POST alone.
    MethodForm,
    /// The shape is asked for by GET and HEAD alone.
    MethodGet,
    /// The length of the body has to be stated.
    LengthRequired,
    /// The body is too large.
    TooLarge,
    /// The head is too large.
    HeadTooLarge,
    /// The journal could not keep the request.
    JournalFault,
    /// There was no memory.
    NoMemory,
    /// Too many connections are open.
    Busy,
}

/// A reply: one that was made for an ask, or a constant one.
#[derive(Debug, Drop)]
pub enum Reply {
    /// A reply that was made.
    Made {
        /// The status of HTTP.
        status: u16,
        /// The kind of its body.
        kind: Kind,
        /// Its body.
        body: Text,
    },
    /// A constant reply.
    Fixed(Fixed),
}
