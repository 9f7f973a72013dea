//! Why a run ends without what it was to write.

use crate::run_text::RunText;
use crate::serving_fault::ServingFault;
use pb_core::no_memory::NoMemory;
use pb_desk::AuditFault;
use pb_durable::{DeviceFault, OpenFault};
use pb_export::ExportFault;
use pb_read::{ReadFault, ReadKind, Warning};
use pb_rounds::count_fault::CountFault;
use pb_script::{RollFault, ScriptFault};
use std::alloc::AllocError;
use thiserror::Error;

/// Why a run ends without what it was to write.
#[derive(Clone, Copy, PartialEq, Eq, Debug, Error)]
pub enum AppFault {
    /// The file is refused, or could not be read.
    #[error("file: {0}")]
    Read(ReadFault),
    /// The script is refused, or could not be read.
    #[error("script: {0}")]
    Script(ScriptFault),
    /// The number of clerks is not 1 to 64.
    #[error("the number of clerks is not 1 to 64")]
    ClerkCount,
    /// The journal is refused, or could not be read.
    #[error("journal: {0}")]
    Audit(AuditFault),
    /// The journal belongs to another file.
    #[error("the journal belongs to another file")]
    OtherFile,
    /// The desk is open, and was to be shut.
    #[error("the desk is open")]
    OpenDesk,
    /// An option of the count is out of its range, or its raises are spent.
    #[error("count: {0}")]
    Count(CountFault),
    /// The count rests on more runs than those whose ties are told.
    #[error("ties: the count rests on too many runs")]
    TooManyRuns,
    /// No file would be read back as the election.
    #[error("export: {0}")]
    Export(ExportFault),
    /// This text could not be opened.
    #[error("file {0} could not be opened")]
    Open(RunText),
    /// The writer failed, and some of the text may have gone out; or a durable journal was not written.
    #[error("the writer failed")]
    Write,
    /// Out of memory.
    #[error("out of memory")]
    Memory,
    /// The file is accepted, and refused for a warning.
    #[error("a warning of the file")]
    Warned(Warning),
    /// The voters' roll is refused, or could not be read.
    #[error("roll: {0}")]
    Roll(RollFault),
    /// A journal is not served, or no longer.
    #[error("serve: {0}")]
    Serving(ServingFault),
}

impl AppFault {
    ghost use Rattle.std.specs.Prelude.{◌≡◌};
    ghost use Rattle.pb_faults.specs.Fault.{merged};

    /// The same fault; out of memory is `Memory`, whichever crate met it. The faults that runs answer are so.
    pub fn merged(&self) -> AppFault
        ensures { result ≡ merged self.now }
    {
        match *self {
            AppFault::Read(
                ReadFault {
                    kind: ReadKind::NoMemory,
                    ..
                },
            )
            | AppFault::Script(ScriptFault::NoMemory)
            | AppFault::Audit(AuditFault::NoMemory)
            | AppFault::Count(CountFault::NoMemory)
            | AppFault::Export(ExportFault::NoMemory)
            | AppFault::Roll(RollFault::NoMemory) => AppFault::Memory,
            fault => fault,
        }
    }
}

impl From<ReadFault> for AppFault {
    ghost use Rattle.std.specs.Prelude.{◌≡◌};
    ghost use Rattle.pb_faults.specs.Fault.{merged};
    ghost use Rattle.pb_faults.specs.declared.fault.AppFault.TheVariants.{Read};

    ghost from_gives = { λ fault app. app ≡ merged (Read fault) };

    fn from(fault: ReadFault) -> AppFault {
        AppFault::Read(fault).merged()
    }
}

impl From<AuditFault> for AppFault {
    ghost use Rattle.std.specs.Prelude.{◌≡◌};
    ghost use Rattle.pb_faults.specs.Fault.{merged};
    ghost use Rattle.pb_faults.specs.declared.fault.AppFault.TheVariants.{Audit};

    ghost from_gives = { λ fault app. app ≡ merged (Audit fault) };

    fn from(fault: AuditFault) -> AppFault {
        AppFault::Audit(fault).merged()
    }
}

impl From<CountFault> for AppFault {
    ghost use Rattle.std.specs.Prelude.{◌≡◌};
    ghost use Rattle.pb_faults.specs.Fault.{merged};
    ghost use Rattle.pb_faults.specs.declared.fault.AppFault.TheVariants.{Count};

    ghost from_gives = { λ fault app. app ≡ merged (Count fault) };

    fn from(fault: CountFault) -> AppFault {
        AppFault::Count(fault).merged()
    }
}

impl From<ExportFault> for AppFault {
    ghost use Rattle.std.specs.Prelude.{◌≡◌};
    ghost use Rattle.pb_faults.specs.Fault.{merged};
    ghost use Rattle.pb_faults.specs.declared.fault.AppFault.TheVariants.{Export};

    ghost from_gives = { λ fault app. app ≡ merged (Export fault) };

    fn from(fault: ExportFault) -> AppFault {
        AppFault::Export(fault).merged()
    }
}

impl From<RollFault> for AppFault {
    ghost use Rattle.std.specs.Prelude.{◌≡◌};
    ghost use Rattle.pb_faults.specs.Fault.{merged};
    ghost use Rattle.pb_faults.specs.declared.fault.AppFault.TheVariants.{Roll};

    ghost from_gives = { λ fault app. app ≡ merged (Roll fault) };

    fn from(fault: RollFault) -> AppFault {
        AppFault::Roll(fault).merged()
    }
}

impl From<NoMemory> for AppFault {
    ghost use Rattle.std.specs.Prelude.{◌≡◌};
    ghost use Rattle.pb_faults.specs.declared.fault.AppFault.TheVariants.{Memory};

    ghost from_gives = { λ _ app. app ≡ Memory };

    fn from(_refused: NoMemory) -> AppFault {
        AppFault::Memory
    }
}

impl From<AllocError> for AppFault {
    ghost use Rattle.std.specs.Prelude.{◌≡◌};
    ghost use Rattle.pb_faults.specs.declared.fault.AppFault.TheVariants.{Memory};

    ghost from_gives = { λ _ app. app ≡ Memory };

    fn from(_refused: AllocError) -> AppFault {
        AppFault::Memory
    }
}

impl From<OpenFault> for AppFault {
    ghost use Rattle.std.specs.Prelude.{◌≡◌};
    ghost use Rattle.pb_faults.specs.Durable.{of_opening};

    ghost from_gives = { λ fault app. app ≡ of_opening fault };

    fn from(fault: OpenFault) -> AppFault {
        match fault {
            OpenFault::Audit(fault) => AppFault::from(fault),
            OpenFault::Spelling => AppFault::Serving(ServingFault::Spelling),
            OpenFault::Device(DeviceFault::NoMemory) | OpenFault::Beside(DeviceFault::NoMemory) => {
                AppFault::Memory
            }
            OpenFault::Device(DeviceFault::Failed | DeviceFault::Full)
            | OpenFault::Beside(DeviceFault::Failed | DeviceFault::Full) => AppFault::Write,
        }
    }
}

impl From<DeviceFault> for AppFault {
    ghost use Rattle.std.specs.Prelude.{◌≡◌};
    ghost use Rattle.pb_durable.specs.declared.open_fault.OpenFault.TheVariants as opening;
    ghost use Rattle.pb_faults.specs.Durable.{of_opening};

    ghost from_gives = { λ fault app. app ≡ of_opening (opening.Device fault) };

    fn from(why: DeviceFault) -> AppFault {
        AppFault::from(OpenFault::Device(why))
    }
}
