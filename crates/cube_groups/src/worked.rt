// Groups files read by the definitions alone.
ghost use Rattle.std.specs.Prelude.{◌≡◌, codes, Ok};
ghost use Rattle.cube_groups.specs.GroupsFile.{groups_of};
ghost use Rattle.cube_groups.specs.Examples.{two_groups, said};

/// What the definitions say of small files: two groups with one policy, and the faults of files
/// with a mistake.
pub fn worked_files()
    ensures two { groups_of (codes "[[group]]\nname = \"staff\"\npolicy = \"policy.toml\"\n[[group]]\nname = \"board\"\npolicy = \"policy.toml\"\n") ≡ Ok two_groups }
    ensures cut { said (codes "[[group]]\nname =") ≡ codes "not toml" }
    ensures none { said (codes "groups = []") ≡ codes "missing group" }
    ensures empty { said (codes "group = []") ≡ codes "missing group" }
    ensures kind { said (codes "group = [\"staff\"]") ≡ codes "wrong kind group" }
    ensures many { said (codes "group = [{},{},{},{},{},{},{},{},{},{},{},{},{},{},{},{},{}]") ≡ codes "limit groups 16" }
    ensures policy { said (codes "group = [{name = \"staff\", policy = \"p\"}, {name = \"a b\"}]") ≡ codes "missing group 2 policy" }
    ensures name { said (codes "group = [{name = []}]") ≡ codes "wrong kind group 1 name" }
    ensures form { said (codes "group = [{name = \"a b\", policy = \"p\"}]") ≡ codes "bad name group 1 name" }
    ensures twice { said (codes "group = [{name = \"a\", policy = \"p\"}, {name = \"b\", policy = \"p\"}, {name = \"a\", policy = \"q\"}]") ≡ codes "name twice group 3 name" }
{}
