// From an old cube to a new one.
use cube_core::Core;
use cube_model::Policy;

/// From an old core under its policy to a new core under its own, on one measure of the new one.
#[derive(Drop)]
pub(crate) struct Crossing<'a> {
    /// The old core.
    pub old: &'a Core,
    /// Its policy.
    pub old_policy: &'a Policy,
    /// The new core.
    pub new: &'a Core,
    /// Its policy.
    pub new_policy: &'a Policy,
    /// For each place of the old core its place in the new one.
    pub places: &'a [u32],
    /// The number of the measure in the new core.
    pub measure: u32,
}
