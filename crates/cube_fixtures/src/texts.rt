// The texts of files.

/// The dimension file of the pay cube.
pub const PAY_DIMS: &[u8] = b"[[dimension]]
name = \"region\"
levels = [\"city\", \"area\"]
paths = [[\"Lyon\",\"South\"], [\"Nice\",\"South\"], [\"Paris\",\"North\"]]
[[dimension]]
name = \"time\"
levels = [\"month\", \"quarter\"]
paths = [[\"Jan\",\"Q1\"], [\"Feb\",\"Q1\"]]
[[measure]]
name = \"pay\"
[[measure]]
name = \"hours\"
";

/// Its fact file, with one fact at each point.
pub const PAY_FACTS: &[u8] = b"city,month,pay,hours
Lyon,Jan,10,1
Lyon,Feb,20,2
Nice,Jan,30,3
Paris,Jan,40,4
Paris,Feb,50,5
";

/// Its policy file: pay is under the source rule, each cell of a city in a month is protected; hours are open.
pub const PAY_POLICY: &[u8] = b"[[measure]]
name = \"pay\"
method = \"lattice\"
[[measure]]
name = \"hours\"
method = \"open\"
[[object]]
measure = \"pay\"
below = { region = \"city\", time = \"month\" }
";
