// A core that several books hold.
ghost use Rattle.std.specs.Prelude.{◌≡◌, IfOk};

use cube_core::Core;
use cube_model::NoMemory;
use std::alloc::Global;
use std::marker::Model;
use std::rc::Rc;

/// A core that never changes, in memory once for all that hold it.
#[derive(Drop)]
pub struct SharedCore {
    held: Rc<Core>,
}

impl Model for SharedCore {
    ghost use Rattle.cube_model.specs.Cores as said;

    ghost Value = { said.Core };

    ghost view = { λ s. s.held.value };
}

impl SharedCore {
    /// A core with one holder.
    pub fn new(alloc: Global, core: Core) -> Result<SharedCore, NoMemory>
        ensures { IfOk result (λ shared. shared ≡ core) }
    {
        match Rc::new(alloc, core) {
            Ok(held) => Ok(SharedCore { held }),
            Err(_) => Err(NoMemory),
        }
    }

    /// The same core for one more holder. It takes no memory.
    pub fn share(&self) -> Result<SharedCore, NoMemory>
        ensures { IfOk result (λ shared. shared ≡ self.now) }
    {
        match self.held.clone() {
            Ok(held) => Ok(SharedCore { held }),
            Err(_) => Err(NoMemory),
        }
    }

    /// The core.
    pub fn get(&self) -> &Core
        ensures { result.now ≡ self.now }
    {
        self.held.as_ref()
    }
}
