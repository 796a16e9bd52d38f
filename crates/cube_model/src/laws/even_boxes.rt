// Even boxes on a full core.
ghost use Rattle.cube_model.specs.EvenBoxes.{EvenBoxesLeaveFree, EvenBoxesAreAnswered};

/// On a full core each place is free from the links of even boxes.
pub fn even_boxes_leave_free()
    ensures { EvenBoxesLeaveFree }
{}

/// On a full core, whatever even boxes were asked, each further one is answered, unless the history
/// is full.
pub fn even_boxes_are_answered()
    ensures { EvenBoxesAreAnswered }
{}
