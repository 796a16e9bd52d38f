// A step of a colouring.
use crate::forest::Saved;
use cube_model::Link;

/// A link that is kept, with what it changed.
#[derive(Clone, Copy)]
pub struct Step {
    pub link: Link,
    pub saved: Saved,
}
