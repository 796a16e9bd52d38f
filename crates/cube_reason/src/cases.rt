// A request behind a history.
use cube_core::Core;
use cube_model::{Entry, Policy, Request};

/// A request behind a history, over a core under a policy. A reason is found, told and checked for one.
#[derive(Drop)]
pub(crate) struct Case<'a> {
    /// The core.
    pub core: &'a Core,
    /// The policy.
    pub policy: &'a Policy,
    /// The history.
    pub history: &'a [Entry],
    /// The request.
    pub request: &'a Request,
}
