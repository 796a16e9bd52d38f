// Fact files read by the definitions alone.
ghost use Rattle.std.specs.Prelude.{◌≡◌, ◌∷◌, [], codes, pos, negsuc, Ok};
ghost use Rattle.cube_facts.specs.FactFile.{facts_of, filled_of};
ghost use Rattle.cube_facts.specs.Examples.{small_dims, fact, said};

/// What the definitions say of small files: the facts in columns of another order, points whose
/// values cancel, and the faults of files with a mistake.
pub fn worked_facts()
    ensures read { facts_of small_dims (codes "note,month,pay,branch,hours\nx,Feb,1.5,Lyon,3\r\n\n\"a,b\",Jan,-2,Paris,4\n") ≡ Ok (fact 0 1 (pos 15) (pos 3) ∷ fact 1 0 (negsuc 19) (pos 4) ∷ []) }
    ensures cancelled { filled_of small_dims (codes "branch,month,pay,hours\nParis,Feb,1,1\nLyon,Jan,-5,0\nLyon,Jan,5,0\n") ≡ Ok (record { points = (0 ∷ 0 ∷ []) ∷ (1 ∷ 1 ∷ []) ∷ []; facts = 2 ∷ 1 ∷ [] }, (pos 0 ∷ pos 10 ∷ []) ∷ (pos 0 ∷ pos 1 ∷ []) ∷ []) }
    ensures empty { said (codes "") ≡ codes "no header" }
    ensures missing { said (codes "branch,month,pay\n") ≡ codes "missing column hours" }
    ensures twice { said (codes "branch,month,pay,hours,month\n") ≡ codes "column month twice" }
    ensures fields { said (codes "branch,month,pay,hours\nLyon,Jan,1,1\nLyon,Feb,2\n") ≡ codes "row 2 fields" }
    ensures header_order { said (codes "hours,pay,month,branch\nx,y,z,w\n") ≡ codes "row 1 column hours: not a number" }
    ensures member { said (codes "branch,month,pay,hours\nLyon,Mar,1,0\n") ≡ codes "row 1 column month: unknown member" }
    ensures fine { said (codes "branch,month,pay,hours\nLyon,Jan,0.55,0\n") ≡ codes "row 1 column pay: too fine" }
    ensures large { said (codes "branch,month,pay,hours\nLyon,Jan,1,1000000000000\nLyon,Jan,1,1000000000001\n") ≡ codes "row 2 column hours: too large" }
    ensures marked { said (239 ∷ 187 ∷ 191 ∷ 239 ∷ 187 ∷ 191 ∷ codes "branch,month,pay,hours\n") ≡ codes "no header" }
{}
