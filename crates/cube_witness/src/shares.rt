// A value as facts share it.
ghost use Rattle.std.specs.Prelude.{◌≡◌, ◌<◌, ◌≤◌, ◌*◌, pos, unsigned_abs};
ghost use Rattle.cube_witness.specs.Shares as said;
ghost use Rattle.cube_witness.specs.TwinFile as file;

/// What the fact with this number, counted from 0, carries of a value that so many facts share.
pub(crate) fn share(value: i64, facts: u64, number: u64) -> i64
    requires some { 0 < facts }
    requires few { facts ≤ 1000000 }
    requires small { unsigned_abs value ≤ 1000000000000 * facts }
    ensures { result ≡ said.share value facts number }
{
    let many = facts as i64;
    let whole = value.div_euclid(many);
    let rest = value.rem_euclid(many).unsigned_abs();
    if number < rest { whole + 1 } else { whole }
}

/// Whether a value is more than 10^12 for each of so many facts.
pub(crate) fn is_beyond(facts: u64, value: i64) -> bool
    requires { facts ≤ 1000000 }
    ensures { result ≡ file.is_beyond facts value }
{
    value.unsigned_abs() > 1_000_000_000_000 * facts
}
