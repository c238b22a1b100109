// Which processes a probe is for, and so whether a process's maps tell where its library is.
ghost use Rattle.std.specs.Prelude.{◌≡◌};
ghost use Rattle.attach_target.specs.Scopes.{uses_maps};

use std::num::NonZeroU32;

/// Which processes a probe is to fire for.
#[derive(Clone, Copy)]
pub enum UProbeScope {
    /// Any process: no maps are looked at.
    AllProcesses,
    /// The process that asks.
    CallingProcess,
    /// The process with this number.
    OneProcess(NonZeroU32),
}

impl UProbeScope {
    /// Whether a bare name is looked up in a process's maps first.
    pub fn uses_maps(self) -> bool
        ensures { result ≡ uses_maps self }
    {
        match self {
            UProbeScope::AllProcesses => false,
            UProbeScope::CallingProcess => true,
            UProbeScope::OneProcess(_) => true,
        }
    }
}
