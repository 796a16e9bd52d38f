// Dimension files read by the definitions alone.
ghost use Rattle.std.specs.Prelude.{◌≡◌, codes, Ok};
ghost use Rattle.cube_dims.specs.DimsFile.{dims_of};
ghost use Rattle.cube_dims.specs.Examples.{pay_dims, said};

/// What the definitions say of small files: the dimensions of the pay cube, and the faults of
/// files with a mistake.
pub fn worked_files()
    ensures pay { dims_of (codes "[[dimension]]\nname = \"region\"\nlevels = [\"city\", \"area\"]\npaths = [[\"Lyon\",\"South\"], [\"Nice\",\"South\"], [\"Paris\",\"North\"]]\n[[dimension]]\nname = \"time\"\nlevels = [\"month\", \"quarter\"]\npaths = [[\"Jan\",\"Q1\"], [\"Feb\",\"Q1\"]]\n[[measure]]\nname = \"pay\"\n[[measure]]\nname = \"hours\"\n") ≡ Ok pay_dims }
    ensures cut { said (codes "[[dimension]]\nname =") ≡ codes "not toml" }
    ensures leaf_twice { said (codes "dimension = [{name = \"d\", levels = [\"a\", \"b\"], paths = [[\"x\", \"y\"], [\"x\", \"z\"]]}]\nmeasure = [{name = \"v\"}]") ≡ codes "leaf twice dimension 1 paths 2" }
    ensures two_parents { said (codes "dimension = [{name = \"d\", levels = [\"a\", \"b\", \"c\"], paths = [[\"x\", \"y\", \"z\"], [\"w\", \"y\", \"v\"]]}]\nmeasure = [{name = \"v\"}]") ≡ codes "two parents dimension 1 paths 2" }
    ensures count { said (codes "dimension = [{name = \"d\", levels = [\"a\"], paths = [[\"x\"]]}]\nmeasure = [{name = \"v\"}, {name = \"count\"}]") ≡ codes "bad name measure 2 name" }
    ensures missing { said (codes "dimension = [{name = \"d\", levels = []}]\nmeasure = [{}]") ≡ codes "missing dimension 1 levels" }
{}
