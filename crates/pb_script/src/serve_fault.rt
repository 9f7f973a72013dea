//! Why there is no journal of a script.

use crate::script_fault::ScriptFault;
use pb_core::no_memory::NoMemory;
use thiserror::Error;

/// Why there is no journal of a script.
#[derive(Clone, Copy, Debug, Error)]
pub enum ServeFault {
    /// The script is refused, or could not be read; or memory was refused.
    #[error("{0}")]
    Script(ScriptFault),
    /// The number of clerks is not 1 to 64.
    #[error("the number of clerks is not 1 to 64")]
    ClerkCount,
}

impl From<ScriptFault> for ServeFault {
    ghost use Rattle.std.specs.Prelude.{◌≡◌};
    ghost use Rattle.pb_script.specs.declared.serve_fault.ServeFault.TheVariants.{Script};

    ghost from_gives = { λ fault e. e ≡ Script fault };

    fn from(fault: ScriptFault) -> ServeFault {
        ServeFault::Script(fault)
    }
}

impl From<NoMemory> for ServeFault {
    ghost use Rattle.std.specs.Prelude.{◌≡◌};
    ghost use Rattle.pb_script.specs.declared.script_fault.ScriptFault.TheVariants as script;
    ghost use Rattle.pb_script.specs.declared.serve_fault.ServeFault.TheVariants.{Script};

    ghost from_gives = { λ _ e. e ≡ Script script.NoMemory };

    fn from(_refused: NoMemory) -> ServeFault {
        ServeFault::Script(ScriptFault::NoMemory)
    }
}
