// The request that a text names, and the reply where it names none.
ghost use Rattle.std.specs.Prelude.{◌≡◌, true, IfOk};
ghost use Rattle.cube_query.specs.Canonical.{is_request};
ghost use Rattle.cube_model.specs.Answers.{Answers};
ghost use Rattle.cube_query.specs.Faults.{of_query, of_resolve, request_of, fault_status, fault_body, at_byte};
ghost use Rattle.cube_query.specs.declared.fault.RequestFault.TheVariants as fault;

use crate::{QueryFault, ResolveFault, parse, resolve};
use cube_model::{Dims, NoMemory, Request, Text};
use std::alloc::Global;

/// Why a text names no request, with the byte of the text that is at fault.
#[derive(Clone, Copy, Debug, PartialEq, Eq)]
pub enum RequestFault {
    /// The text stops being the front of a query here.
    Syntax { at: u64 },
    /// No measure has the name.
    UnknownMeasure { at: u64 },
    /// No dimension has the name.
    UnknownDimension { at: u64 },
    /// An earlier item of the same list names the dimension.
    DimensionTwice { at: u64 },
    /// No named level of the dimension has the name.
    UnknownLevel { at: u64 },
    /// No member of the level has the name.
    UnknownMember { at: u64 },
    /// The last member of a span stands before its first, which is the one at this byte.
    Backwards { at: u64 },
    NoMemory,
}

impl From<QueryFault> for RequestFault {
    ghost from_gives = { λ q e. e ≡ of_query q };

    fn from(fault: QueryFault) -> RequestFault {
        match fault {
            QueryFault::Syntax { at } => RequestFault::Syntax { at },
            QueryFault::NoMemory => RequestFault::NoMemory,
        }
    }
}

impl From<ResolveFault> for RequestFault {
    ghost from_gives = { λ r e. e ≡ of_resolve r };

    fn from(fault: ResolveFault) -> RequestFault {
        match fault {
            ResolveFault::UnknownMeasure { at } => RequestFault::UnknownMeasure { at },
            ResolveFault::UnknownDimension { at } => RequestFault::UnknownDimension { at },
            ResolveFault::DimensionTwice { at } => RequestFault::DimensionTwice { at },
            ResolveFault::UnknownLevel { at } => RequestFault::UnknownLevel { at },
            ResolveFault::UnknownMember { at } => RequestFault::UnknownMember { at },
            ResolveFault::Backwards { at } => RequestFault::Backwards { at },
            ResolveFault::NoMemory => RequestFault::NoMemory,
        }
    }
}

// The request that a text names.
#[tactic(auto, unfolding(crate::specs::Faults::request_of))]
fn read(alloc: Global, dims: &Dims, text: &[u8]) -> Result<Request, RequestFault>
    ensures { Answers fault.NoMemory result (request_of dims.now text.now) }
{
    let query = parse(alloc, text)?;
    let request = resolve(alloc, dims, &query)?;
    Ok(request)
}

/// The request that a text names, or why it names none: its grammar is looked at first, and then its names. A request
/// that is read is valid.
pub fn read_request(alloc: Global, dims: &Dims, text: &[u8]) -> Result<Request, RequestFault>
    ensures request { Answers fault.NoMemory result (request_of dims.now text.now) }
    ensures valid { IfOk result (λ request. is_request dims.now request ≡ true) }
{
    let _rules = dims.dimensions();
    let request = read(alloc, dims, text)?;
    Ok(request)
}

// What is wrong, and where.
fn at_byte(alloc: Global, what: &[u8], at: u64) -> Result<Text, NoMemory>
    ensures { IfOk result (λ text. text ≡ at_byte what.now at) }
{
    let mut text = Text::from_bytes(alloc, what)?;
    text.extend(b" at byte ")?;
    text.push_number(at)?;
    text.push(b'\n')?;
    Ok(text)
}

impl RequestFault {
    /// The status of the reply.
    pub fn status(&self) -> u16
        ensures { result ≡ fault_status self.now }
    {
        match self {
            RequestFault::Syntax { .. }
            | RequestFault::DimensionTwice { .. }
            | RequestFault::Backwards { .. } => 400,
            RequestFault::UnknownMeasure { .. }
            | RequestFault::UnknownDimension { .. }
            | RequestFault::UnknownLevel { .. }
            | RequestFault::UnknownMember { .. } => 404,
            RequestFault::NoMemory => 500,
        }
    }

    /// The body of the reply, a line of text.
    pub fn body(&self, alloc: Global) -> Result<Text, NoMemory>
        ensures { IfOk result (λ text. text ≡ fault_body self.now) }
    {
        match self {
            RequestFault::Syntax { at } => at_byte(alloc, b"syntax", *at),
            RequestFault::UnknownMeasure { at } => at_byte(alloc, b"unknown measure", *at),
            RequestFault::UnknownDimension { at } => at_byte(alloc, b"unknown dimension", *at),
            RequestFault::DimensionTwice { at } => at_byte(alloc, b"dimension twice", *at),
            RequestFault::UnknownLevel { at } => at_byte(alloc, b"unknown level", *at),
            RequestFault::UnknownMember { at } => at_byte(alloc, b"unknown member", *at),
            RequestFault::Backwards { at } => at_byte(alloc, b"backwards", *at),
            RequestFault::NoMemory => Text::from_bytes(alloc, b"no memory\n"),
        }
    }
}
