// The order of cuboids, and their meet.
ghost use Rattle.std.specs.Prelude.{◌≡◌, ℕ, length, nat_le, option_copied, IfSome};
ghost use Rattle.std.specs.List.{list_all, zip};
ghost use Rattle.cube_model.specs.Cubes as cubes;
ghost use Rattle.cube_model.specs.Cubes.{is_finer};
ghost use Rattle.cube_model.specs.Verdicts.{narrowed};

use cube_model::Levels;

// Whether each level is at most the one beside it.
fn all_at_most(a: &[u32], b: &[u32]) -> bool
    ensures { result ≡ list_all (λ p. nat_le p.0 p.1) (zip a.now b.now) }
{
    a.iter().zip(b).all(|(a, b)| *a <= *b)
}

/// Whether the cuboid `a` is finer than or equal to `b`: each level of `a` is at most that of `b`.
pub fn finer_or_equal(a: &Levels, b: &Levels) -> bool
    ensures { result ≡ is_finer a.now b.now }
{
    a.len() == b.len() && all_at_most(a.as_slice(), b.as_slice())
}

/// Lowers the levels of a cuboid to its meet with another: the lesser level in each dimension. It takes
/// no memory.
#[tactic(auto, using(crate::proofs::Steps::lower_more, crate::proofs::Steps::lower_end))]
pub fn meet_into(a: &mut Levels, b: &Levels)
    requires { length a.old ≡ length b.now }
    ensures { a.new ≡ cubes.meet a.old b.now }
{
    let others = b.as_slice();
    'levels: for place in 0..others.len() {
        let lesser = a.as_slice()[place].min(others[place]);
        a.set(place, lesser);
    }
}

/// A source narrowed by one more cuboid: its meet with the cuboid, or the cuboid where there is no source yet. It takes no memory.
#[tactic(auto, using(crate::proofs::Steps::meet_turned))]
pub fn narrow(source: Option<&Levels>, levels: Levels) -> Levels
    requires { IfSome (option_copied source) (λ held. length held ≡ length levels) }
    ensures { result ≡ narrowed (option_copied source.entry) levels }
{
    match source {
        None => levels,
        Some(source) => {
            let mut next = levels;
            meet_into(&mut next, source);
            next
        }
    }
}
