use crate::reason::Reason;

/// Why a report isn't found good.
#[derive(Clone, Copy, Debug, PartialEq, Eq)]
pub enum Fault {
    /// A part fails.
    Fails(Reason),
    /// No memory was left.
    Memory,
}

impl From<cpog_base::Memory> for Fault {
    ghost use Rattle.std.specs.Prelude.{◌≡◌};
    ghost use Rattle.report_judge.specs.declared.fault.Fault.TheVariants as faults;

    ghost from_gives = { λ _ e. e ≡ faults.Memory };

    fn from(_error: cpog_base::Memory) -> Fault {
        Fault::Memory
    }
}
