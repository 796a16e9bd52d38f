// The names of the files of a command.
use cube_model::Text;

/// The files that make a cube and its policy, by their names.
#[derive(Debug, Drop)]
pub struct CubeFiles {
    /// The dimension file.
    pub dims: Text,
    /// The fact file.
    pub facts: Text,
    /// The policy file.
    pub policy: Text,
}

/// What rules the users of a cube.
#[derive(Debug, Drop)]
pub enum Rules {
    /// The policy file of this name, for all of them.
    One(Text),
    /// The groups file of this name, with a policy file for each group.
    Groups(Text),
}

/// The files that make a cube and rule its users, by their names.
#[derive(Debug, Drop)]
pub struct RuledFiles {
    /// The dimension file.
    pub dims: Text,
    /// The fact file.
    pub facts: Text,
    /// What rules the users.
    pub rules: Rules,
}
