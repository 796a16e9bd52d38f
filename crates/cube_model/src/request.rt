// What a user asks for.
ghost use Rattle.std.specs.Prelude.{◌≡◌, IfOk, None, map};
ghost use Rattle.cube_model.specs.Requests.{asks, whole};

use crate::{Items, Levels, NoMemory};
use std::alloc::Global;

/// What is summed.
#[derive(Clone, Copy, Debug, PartialEq, Eq)]
pub enum What {
    /// The number of facts.
    Count,
    /// A measure, by its number from 0.
    Measure(u32),
}

/// Members of one level of a dimension, from the first to the last, both included. The level is a
/// named one.
#[derive(Clone, Copy, Debug, PartialEq, Eq)]
pub struct Pick {
    /// The level, counted from 0, the finest.
    pub level: u32,
    /// The number of the first member.
    pub first: u32,
    /// The number of the last member.
    pub last: u32,
}

/// For each dimension perhaps a pick.
pub type Picks = Items<Option<Pick>>;

/// A request: sums by groups of the points that are picked.
#[derive(Drop)]
pub struct Request {
    /// What is summed.
    pub what: What,
    /// The grouping level of each dimension, `all` where the request does not group by it.
    pub group: Levels,
    /// The pick of each dimension, where it has one.
    pub picks: Picks,
}

/// For each level no pick.
fn no_picks(alloc: Global, levels: &[u32]) -> Result<Picks, NoMemory>
    ensures { IfOk result (λ picks. picks ≡ map (λ level. None) levels.now) }
{
    let mut picks = Picks::new(alloc);
    'levels: for _level in levels {
        picks.push(None)?;
    }
    Ok(picks)
}

impl Request {
    /// The request of all places by their keys at some levels.
    pub fn whole(alloc: Global, what: What, levels: &Levels) -> Result<Request, NoMemory>
        ensures { IfOk result (λ request. request ≡ whole what levels.now) }
    {
        Ok(Request {
            what,
            group: levels.copied(alloc)?,
            picks: no_picks(alloc, levels.as_slice())?,
        })
    }

    /// The same request again.
    pub fn copied(&self, alloc: Global) -> Result<Request, NoMemory>
        ensures { IfOk result (λ copy. copy ≡ self.now) }
    {
        Ok(Request {
            what: self.what,
            group: self.group.copied(alloc)?,
            picks: self.picks.copied(alloc)?,
        })
    }

    /// Whether the request asks for the measure.
    pub fn asks_for(&self, measure: u32) -> bool
        ensures { result ≡ asks measure self.now }
    {
        match self.what {
            What::Count => false,
            What::Measure(number) => number == measure,
        }
    }
}
