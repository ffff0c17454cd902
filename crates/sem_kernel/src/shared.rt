// A setup that several kernels read.
ghost use Rattle.std.specs.Prelude.{◌≡◌, IfOk};

use sem_key::OutOfMemory;
use sem_msg::Setup;
use std::alloc::Global;
use std::marker::Model;
use std::sync::Arc;

/// A setup that stands in memory once, for all kernels of a run.
#[derive(Debug, Drop)]
pub struct SharedSetup {
    setup: Arc<Setup, Global>,
}

impl Model for SharedSetup {
    ghost use Rattle.std.specs.Arc.{arc_value};
    ghost use Rattle.sem_msg.specs.Setup.{Setup};

    ghost Value = { Setup };

    ghost view = { λ s. arc_value s.setup };
}

impl SharedSetup {
    /// A copy of the setup, to be shared.
    pub fn new(alloc: Global, setup: &Setup) -> Result<Self, OutOfMemory>
        ensures { IfOk result (λ s. s ≡ setup.now) }
    {
        let setup = Arc::new(alloc, setup.copy(alloc)?)?;
        Ok(SharedSetup { setup })
    }

    /// The same setup, for one more kernel.
    pub fn share(&self) -> Result<Self, OutOfMemory>
        ensures { IfOk result (λ s. s ≡ self.now) }
    {
        let setup = Arc::try_clone(&self.setup)?;
        Ok(SharedSetup { setup })
    }

    /// The setup that is shared.
    pub fn get(&self) -> &Setup
        ensures { result.now ≡ self.now }
    {
        &self.setup
    }
}
