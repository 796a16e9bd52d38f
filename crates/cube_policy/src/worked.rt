// Policy files read by the definitions alone.
ghost use Rattle.std.specs.Prelude.{◌≡◌, codes, Ok};
ghost use Rattle.cube_dims.specs.Examples.{pay_dims};
ghost use Rattle.cube_policy.specs.PolicyFile.{policy_of};
ghost use Rattle.cube_policy.specs.Examples.{pay_policy, south_policy, wide_policy, few_policy, said};

/// What the definitions say of small files: policies of the pay cube, and the faults of files with
/// a mistake.
pub fn worked_files()
    ensures pay { policy_of pay_dims (codes "[[measure]]\nname = \"pay\"\nmethod = \"lattice\"\n[[measure]]\nname = \"hours\"\nmethod = \"parity\"\n[[object]]\nmeasure = \"pay\"\nbelow = { region = \"city\", time = \"month\" }\n") ≡ Ok pay_policy }
    ensures south { policy_of pay_dims (codes "[[measure]]\nname = \"pay\"\nmethod = \"lattice\"\n[[measure]]\nname = \"hours\"\nmethod = \"parity\"\n[[object]]\nmeasure = \"pay\"\nbelow = { region = \"city\", time = \"month\" }\n[[object]]\nmeasure = \"hours\"\nbelow = { region = \"city\", time = \"month\" }\n[object.slice.region]\nlevel = \"area\"\nmembers = [\"South\"]\n") ≡ Ok south_policy }
    ensures coarse { said (codes "[[measure]]\nname = \"pay\"\nmethod = \"lattice\"\n[[measure]]\nname = \"hours\"\nmethod = \"parity\"\n[[object]]\nmeasure = \"pay\"\nbelow = { region = \"city\", time = \"month\" }\n[[object]]\nmeasure = \"hours\"\nbelow = { region = \"area\", time = \"month\" }\n[object.slice.region]\nlevel = \"area\"\nmembers = [\"South\"]\n") ≡ codes "object on method object 2" }
    ensures wide { policy_of pay_dims (codes "[[measure]]\nname = \"pay\"\nmethod = \"lattice\"\n[[measure]]\nname = \"hours\"\nmethod = \"parity\"\n[[object]]\nmeasure = \"pay\"\nbelow = { region = \"area\" }\n[object.slice.time]\nlevel = \"month\"\nmembers = [\"Feb\", \"Jan\"]\n[object.slice.region]\nlevel = \"city\"\nmembers = [\"Paris\", \"Lyon\", \"Paris\"]\n") ≡ Ok wide_policy }
    ensures unnamed { said (codes "[[measure]]\nname = \"pay\"\nmethod = \"lattice\"\n[[object]]\nmeasure = \"pay\"\nbelow = { region = \"city\", time = \"month\" }\n") ≡ codes "missing hours" }
    ensures method { said (codes "[[measure]]\nname = \"pay\"\nmethod = \"lattice\"\n[[measure]]\nname = \"hours\"\nmethod = \"pairs\"\n[[object]]\nmeasure = \"pay\"\nbelow = { region = \"city\", time = \"month\" }\n") ≡ codes "unknown measure 2 method" }
    ensures twice { said (codes "[[measure]]\nname = \"pay\"\nmethod = \"lattice\"\n[[measure]]\nname = \"pay\"\nmethod = \"parity\"\n") ≡ codes "measure twice measure 2 name" }
    ensures member { said (codes "[[measure]]\nname = \"pay\"\nmethod = \"lattice\"\n[[measure]]\nname = \"hours\"\nmethod = \"parity\"\n[[object]]\nmeasure = \"pay\"\nbelow = { region = \"city\", time = \"month\" }\n[[object]]\nmeasure = \"hours\"\nbelow = { region = \"city\", time = \"month\" }\n[object.slice.region]\nlevel = \"area\"\nmembers = [\"South\", \"West\"]\n") ≡ codes "unknown object 2 slice region members 2" }
    ensures key { said (codes "[[measure]]\nname = \"pay\"\nmethod = \"lattice\"\n[[measure]]\nname = \"hours\"\nmethod = \"parity\"\n[[object]]\nmeasure = \"pay\"\nbelow = { region = \"city\", time = \"month\" }\nabove = \"x\"\n") ≡ codes "unknown object 1 above" }
    ensures few { policy_of pay_dims (codes "[[measure]]\nname = \"pay\"\nmethod = \"lattice\"\n[[measure]]\nname = \"hours\"\nmethod = \"parity\"\n[[object]]\nmeasure = \"pay\"\nbelow = {}\nfewer = 3\n") ≡ Ok few_policy }
    ensures few_kind { said (codes "[[measure]]\nname = \"pay\"\nmethod = \"lattice\"\n[[measure]]\nname = \"hours\"\nmethod = \"parity\"\n[[object]]\nmeasure = \"hours\"\nbelow = {}\nfewer = \"3\"\n") ≡ codes "wrong kind object 1 fewer" }
    ensures few_low { said (codes "[[measure]]\nname = \"pay\"\nmethod = \"lattice\"\n[[measure]]\nname = \"hours\"\nmethod = \"parity\"\n[[object]]\nmeasure = \"hours\"\nbelow = {}\nfewer = 1\n") ≡ codes "limit object 1 fewer 1000" }
    ensures few_high { said (codes "[[measure]]\nname = \"pay\"\nmethod = \"lattice\"\n[[measure]]\nname = \"hours\"\nmethod = \"parity\"\n[[object]]\nmeasure = \"pay\"\nbelow = {}\nfewer = 1001\n") ≡ codes "limit object 1 fewer 1000" }
    ensures few_below { said (codes "[[measure]]\nname = \"pay\"\nmethod = \"lattice\"\n[[measure]]\nname = \"hours\"\nmethod = \"parity\"\n[[object]]\nmeasure = \"pay\"\nbelow = {}\nfewer = -3\n") ≡ codes "limit object 1 fewer 1000" }
    ensures few_coarse { said (codes "[[measure]]\nname = \"pay\"\nmethod = \"lattice\"\n[[measure]]\nname = \"hours\"\nmethod = \"parity\"\n[[object]]\nmeasure = \"hours\"\nbelow = {}\nfewer = 3\n") ≡ codes "object on method object 1" }
{}
