// Why a demonstration ended short.
ghost use Rattle.std.specs.Prelude.{◌≡◌};
ghost use Rattle.cube_demo.specs.declared.fault.DemoFault.TheVariants as fault;

use cube_model::NoMemory;

/// Why a demonstration ended short.
#[derive(Clone, Copy, Debug, PartialEq, Eq)]
pub enum DemoFault {
    /// Memory ran out.
    NoMemory,
    /// The sink failed; this was counted.
    OutputFailed,
}

impl From<NoMemory> for DemoFault {
    ghost from_gives = { λ _ e. e ≡ fault.NoMemory };

    fn from(_error: NoMemory) -> DemoFault {
        DemoFault::NoMemory
    }
}
