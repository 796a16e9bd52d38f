// Laws of seals, each the contract of a function that does nothing.
ghost use Rattle.cube_seal.specs.Laws.{LinesSayDigits, SealsAreLines, BeginningsSayNothing};

/// The line of a digest says its digits.
pub fn lines_say_digits()
    ensures { LinesSayDigits }
{}

/// No other bytes say these digits.
pub fn seals_are_lines()
    ensures { SealsAreLines }
{}

/// The line of a seal without its end says nothing yet.
pub fn beginnings_say_nothing()
    ensures { BeginningsSayNothing }
{}
