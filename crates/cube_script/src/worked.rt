// Scripts, and what they say by the definitions alone.
ghost use Rattle.std.specs.Prelude.{◌≡◌, ◌∷◌, [], codes, Ok, Err};
ghost use Rattle.cube_io.specs.Wires.Arrival.{Opened, Came, Closed};
ghost use Rattle.cube_script.specs.Scripts.{script_of};

/// What the definition reads in some scripts.
pub fn worked_scripts()
    ensures none { script_of (codes "") ≡ Ok [] }
    ensures each { script_of (codes "open 1\ndata 1 474f\ndata 1 0aFf\nclose 1\n") ≡ Ok (Opened 1 ∷ Came 1 (71 ∷ 79 ∷ []) ∷ Came 1 (10 ∷ 255 ∷ []) ∷ Closed 1 ∷ []) }
    ensures one_digit { script_of (codes "open 1\ndata 1 0\n") ≡ Err 2 }
    ensures odd_digits { script_of (codes "open 1\ndata 1 474\nclose 1\n") ≡ Err 2 }
    ensures no_digits { script_of (codes "data 1 \n") ≡ Err 1 }
    ensures no_hex { script_of (codes "data 1 4g\n") ≡ Err 1 }
    ensures no_feed { script_of (codes "open 1\nopen 2\nclose 1") ≡ Err 3 }
    ensures empty_line { script_of (codes "open 1\n\nclose 1\n") ≡ Err 2 }
    ensures two_spaces { script_of (codes "open  1\n") ≡ Err 1 }
    ensures space_behind { script_of (codes "open 1 \n") ≡ Err 1 }
    ensures large { script_of (codes "open 4294967295\nopen 4294967296\n") ≡ Err 2 }
    ensures largest { script_of (codes "open 4294967295\n") ≡ Ok (Opened 4294967295 ∷ []) }
    ensures leading_zero { script_of (codes "open 0\nopen 01\n") ≡ Err 2 }
    ensures other_word { script_of (codes "shut 1\n") ≡ Err 1 }
{}
