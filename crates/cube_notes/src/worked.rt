// Lines and near names by the definitions alone.
ghost use Rattle.std.specs.Prelude.{◌≡◌, codes};
ghost use Rattle.cube_notes.specs.Lines.{line_behind};
ghost use Rattle.cube_notes.specs.Nearness.{edits, most_edits, length_gap};

/// What the definition says of line ends of all kinds: in which line stands what comes behind them.
pub fn worked_lines()
    ensures first { line_behind (codes "") ≡ 1 }
    ensures feeds { line_behind (codes "a\nb\n") ≡ 3 }
    ensures pairs { line_behind (codes "a\r\nb\r\n") ≡ 3 }
    ensures alone { line_behind (codes "a\rb\r\rc\n") ≡ 5 }
    ensures turned { line_behind (codes "a\n\r\"\r\n\n") ≡ 5 }
{}

/// How many edits the definition counts, and how many are still near.
pub fn worked_nearness()
    ensures same { edits (codes "pay") (codes "pay") ≡ 0 }
    ensures put { edits (codes "pay") (codes "pays") ≡ 1 }
    ensures taken { edits (codes "hours") (codes "hors") ≡ 1 }
    ensures changed { edits (codes "bay") (codes "pay") ≡ 1 }
    ensures turned { edits (codes "Lyno") (codes "Lyon") ≡ 1 }
    ensures far { edits (codes "pay") (codes "hours") ≡ 5 }
    ensures most { most_edits (codes "hors") (codes "hours") ≡ 1 }
    ensures short { most_edits (codes "a") (codes "b") ≡ 0 }
    ensures longer { most_edits (codes "region") (codes "area") ≡ 2 }
    ensures gap { length_gap (codes "area") (codes "region") ≡ 2 }
{}
