// What is said of a policy that may guard less than its author thinks.
use cube_draft::has_object;
use cube_model::{Dims, Method, NoMemory, Policy, Text};
use std::alloc::Global;

/// The note on a policy: a line for each measure under the source rule of which no object protects a cell. A measure under the rule of
/// links that no object names is protected at each place.
pub fn note_on_policy(alloc: Global, dims: &Dims, policy: &Policy) -> Result<Text, NoMemory> {
    let mut text = Text::new(alloc);
    let mut number = 0u32;
    for measure in dims.measures() {
        if policy.method(number) == Method::Lattice
            && !has_object(policy.objects.as_slice(), number as usize)
        {
            text.extend(measure.name())?;
            text.extend(b": nothing is protected\n")?;
        }
        number = number.saturating_add(1);
    }
    Ok(text)
}
