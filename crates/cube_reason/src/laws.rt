// What reasons depend on, and what is said of an answer.
ghost use Rattle.cube_reason.specs.Showing.{AnswersAloneAreAdmitted, ReasonsAreOfTheShape};

/// No reason depends on a value: over another cube with the same dimensions and the same shape the same texts are said why.
pub fn reasons_are_of_the_shape()
    ensures { ReasonsAreOfTheShape }
{}

/// Of what is said why, `admitted` stands exactly for an answer.
pub fn answers_alone_are_admitted()
    ensures { AnswersAloneAreAdmitted }
{}
