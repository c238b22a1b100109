// Why a target is not found.
ghost use Rattle.std.specs.Prelude.{◌≡◌};
ghost use Rattle.attach_target.specs.Faults.{target_refusal};
ghost use Rattle.attach_target.specs.declared.fault.TargetFault.TheVariants.{Line, Cache};

use byte_parts::refusal::Fault;
use ld_so_cache::fault::CacheFault;
use proc_map::fault::LineFault;

/// Why a target is not found.
#[derive(Clone, Copy)]
pub enum TargetFault {
    /// Refusal 7: the maps are needed and unreadable.
    MapsUnreadable,
    /// Refusal 3: a line of the maps before a match cannot be read.
    Line(LineFault),
    /// Refusal 8: the cache is needed and unreadable.
    CacheUnreadable,
    /// Refusal 4, 5 or 6: the cache is damaged.
    Cache(CacheFault),
    /// Refusal 9: neither maps nor cache know the name.
    InvalidTarget,
}

// Each `From` by hand: its ghost member says that the fault is carried whole.
impl From<LineFault> for TargetFault {
    ghost from_gives = { λ f r. r ≡ Line f };

    fn from(fault: LineFault) -> TargetFault {
        TargetFault::Line(fault)
    }
}

impl From<CacheFault> for TargetFault {
    ghost from_gives = { λ f r. r ≡ Cache f };

    fn from(fault: CacheFault) -> TargetFault {
        TargetFault::Cache(fault)
    }
}

// The number of the refusal: 7, 3, 8, 4 to 6, or 9.
impl Fault for TargetFault {
    ghost told = { target_refusal };

    fn refusal(self) -> u32 {
        match self {
            TargetFault::MapsUnreadable => 7,
            TargetFault::Line(fault) => fault.refusal(),
            TargetFault::CacheUnreadable => 8,
            TargetFault::Cache(fault) => fault.refusal(),
            TargetFault::InvalidTarget => 9,
        }
    }
}
