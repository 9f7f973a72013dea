//! Why what is read for a run is refused.

use pb_desk::AuditFault;
use pb_faults::AppFault;
use pb_read::{ReadFault, Warning};

/// Why a file, or the journal beside it, is refused. No writer fails here, and no desk is judged.
#[derive(Clone, Copy)]
pub(crate) enum InputFault {
    /// The file is refused, or could not be read.
    File(ReadFault),
    /// The file is refused for a warning.
    Warned(Warning),
    /// The journal is refused, or could not be read.
    Journal(AuditFault),
    /// Out of memory.
    Memory,
}

impl From<InputFault> for AppFault {
    ghost use Rattle.std.specs.Prelude.{◌≡◌};
    ghost use Rattle.pb_commands.specs.Inner.Inputs.{of_input};

    ghost from_gives = { λ fault app. app ≡ of_input fault };

    fn from(fault: InputFault) -> AppFault {
        match fault {
            InputFault::File(fault) => AppFault::from(fault),
            InputFault::Warned(warning) => AppFault::Warned(warning),
            InputFault::Journal(fault) => AppFault::from(fault),
            InputFault::Memory => AppFault::Memory,
        }
    }
}
