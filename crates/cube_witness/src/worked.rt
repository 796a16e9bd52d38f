// Witnesses and twins written by the definitions alone.
ghost use Rattle.std.specs.Prelude.{◌≡◌, [], ◌∷◌, codes, pos, negsuc, Some, None};
ghost use Rattle.cube_core.specs.Worked.{pay_core};
ghost use Rattle.cube_witness.specs.Examples.{months, pay_changes, witness_of, file_of, pay_cube, full_pay};
ghost use Rattle.cube_witness.specs.TwinFile.{twin_cube, first_beyond};

/// The changes for Lyon in February, as text: on an empty history, and after the sums by months.
pub fn worked_witnesses()
    ensures at_first { witness_of (pay_changes [] 0 1) ≡ codes "region.city,time.month,change\nLyon,Feb,1\n" }
    ensures after_months { witness_of (pay_changes months 0 1) ≡ codes "region.city,time.month,change\nLyon,Feb,1\nParis,Feb,-1\n" }
    ensures nothing { witness_of [] ≡ codes "region.city,time.month,change\n" }
{}

/// The fact files of twins: a value that two facts share goes to the first where it does not divide.
pub fn worked_twins()
    ensures at_first { file_of pay_cube (pay_changes [] 0 1) ≡ codes "city,month,pay,hours\nLyon,Jan,10,1\nLyon,Feb,21,2\nNice,Jan,30,3\nParis,Jan,40,4\nParis,Feb,50,5\n" }
    ensures after_months { file_of pay_cube (pay_changes months 0 1) ≡ codes "city,month,pay,hours\nLyon,Jan,10,1\nLyon,Feb,21,2\nNice,Jan,30,3\nParis,Jan,40,4\nParis,Feb,49,5\n" }
    ensures shared { file_of pay_core (pay_changes months 0 1) ≡ codes "city,month,pay,hours\nLyon,Jan,10,1\nLyon,Feb,21,2\nNice,Jan,30,3\nParis,Jan,40,4\nParis,Feb,25,3\nParis,Feb,24,2\n" }
    ensures within { first_beyond full_pay.shape (twin_cube full_pay 0 (record { place = 1; by = pos 1 } ∷ [])) 0 ≡ None }
    ensures beyond { first_beyond full_pay.shape (twin_cube full_pay 0 (record { place = 0; by = pos 1 } ∷ [])) 0 ≡ Some 0 }
{}
