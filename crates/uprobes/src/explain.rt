// Each refusal: its number, and in words what was done, why it was refused and what to do about it.
ghost use Rattle.std.specs.Prelude.{◌≡◌, ◌≢◌, MatchOption, ◌==◌, find};
ghost use Rattle.attach_target.specs.Faults.{target_refusal};
ghost use Rattle.ld_so_cache.specs.Faults.{cache_refusal};
ghost use Rattle.location.specs.Translation.{location_refusal};
ghost use Rattle.proc_map.specs.Faults.{line_refusal};
ghost use Rattle.uprobes.specs.Refusals.{every, number_of};
ghost use Rattle.uprobes.specs.declared.explain.Refusal.{Refusal as ARefusal};

use attach_target::fault::TargetFault;
use ld_so_cache::fault::CacheFault;
use location::LocationFault;
use proc_map::fault::LineFault;

/// What is refused.
#[derive(Clone, Copy)]
pub enum Refusal {
    /// An address below its section's.
    AddressNotInSection,
    /// An offset past the largest number.
    FileOffsetOverflow,
    /// A line of maps that is none.
    MapsLine,
    /// A cache that ends too early.
    CacheTruncated,
    /// A file that does not start as a cache.
    CacheHeader,
    /// A string outside the cache.
    CacheString,
    /// Maps that cannot be read.
    MapsUnreadable,
    /// A cache that cannot be read.
    CacheUnreadable,
    /// A name that nothing knows.
    NoSuchTarget,
    /// A row that points outside.
    RowOutside,
}

// Every refusal.
const ALL: [Refusal; 10] = [
    Refusal::AddressNotInSection,
    Refusal::FileOffsetOverflow,
    Refusal::MapsLine,
    Refusal::CacheTruncated,
    Refusal::CacheHeader,
    Refusal::CacheString,
    Refusal::MapsUnreadable,
    Refusal::CacheUnreadable,
    Refusal::NoSuchTarget,
    Refusal::RowOutside,
];

// The first of all refusals with this number.
fn numbered(number: u32) -> Option<Refusal>
    ensures { result ≡ find (λ r. (number_of r == number)) every }
{
    ALL.iter()
        .copied()
        .find(|refusal| refusal.number() == number)
}

impl Refusal {
    // No `TryFrom`: that there is no such number is all that its error would say.
    /// The refusal with this number, or none where there is no such number.
    pub fn from_number(number: u32) -> Option<Refusal>
        ensures cases { MatchOption result ((r : ARefusal) → number_of r ≢ number) (λ r. number_of r ≡ number) }
    {
        numbered(number)
    }

    /// The number of the refusal.
    pub fn number(self) -> u32
        ensures { result ≡ number_of self }
    {
        match self {
            Refusal::AddressNotInSection => 1,
            Refusal::FileOffsetOverflow => 2,
            Refusal::MapsLine => 3,
            Refusal::CacheTruncated => 4,
            Refusal::CacheHeader => 5,
            Refusal::CacheString => 6,
            Refusal::MapsUnreadable => 7,
            Refusal::CacheUnreadable => 8,
            Refusal::NoSuchTarget => 9,
            Refusal::RowOutside => 33,
        }
    }

    /// What was done.
    pub(crate) fn operation(self) -> &'static str {
        match self {
            Refusal::AddressNotInSection | Refusal::FileOffsetOverflow => "address to offset",
            Refusal::MapsLine => "maps line",
            Refusal::CacheTruncated | Refusal::CacheHeader | Refusal::CacheString => "cache check",
            Refusal::MapsUnreadable | Refusal::CacheUnreadable | Refusal::NoSuchTarget => "target",
            Refusal::RowOutside => "making a shelf",
        }
    }

    /// Why it was refused.
    pub(crate) fn reason(self) -> &'static str {
        match self {
            Refusal::AddressNotInSection => "the address is below the section's address",
            Refusal::FileOffsetOverflow => "the file offset would pass 2^64 - 1",
            Refusal::MapsLine => "the line is no line of /proc/PID/maps",
            Refusal::CacheTruncated => "the cache ends too early",
            Refusal::CacheHeader => "the file does not start as a cache of glibc's second format",
            Refusal::CacheString => "a name or a path of the cache is not inside it",
            Refusal::MapsUnreadable => "the maps of the process cannot be read",
            Refusal::CacheUnreadable => "the loader's cache cannot be read",
            Refusal::NoSuchTarget => "neither the maps nor the cache know the name",
            Refusal::RowOutside =>
                "a row points outside the bytes, the text or the rows that it is over",
        }
    }

    /// What to do about it.
    pub(crate) fn remedy(self) -> &'static str {
        match self {
            Refusal::AddressNotInSection => "take the section that holds the address",
            Refusal::FileOffsetOverflow =>
                "check the section's address and offset against the object file",
            Refusal::MapsLine =>
                "read the maps again; a line has address, perms, offset, dev, inode and perhaps a path",
            Refusal::CacheTruncated | Refusal::CacheString =>
                "run ldconfig to write the cache anew",
            Refusal::CacheHeader => "run ldconfig of a current glibc, or name the right file",
            Refusal::MapsUnreadable => "check that the process runs and that you may read its maps",
            Refusal::CacheUnreadable => "run ldconfig, or name a cache that can be read",
            Refusal::NoSuchTarget =>
                "check the name, name a process that has the library loaded, or give the whole path",
            Refusal::RowOutside =>
                "check the row with the place that is named: its place plus its length has to be inside",
        }
    }
}

impl From<LocationFault> for Refusal {
    ghost from_gives = { λ f r. number_of r ≡ (location_refusal f).number };

    fn from(fault: LocationFault) -> Refusal {
        match fault {
            LocationFault::AddressNotInSection { .. } => Refusal::AddressNotInSection,
            LocationFault::FileOffsetOverflow { .. } => Refusal::FileOffsetOverflow,
        }
    }
}

impl From<LineFault> for Refusal {
    ghost from_gives = { λ f r. number_of r ≡ (line_refusal f).number };

    fn from(fault: LineFault) -> Refusal {
        match fault {
            LineFault::ParseLine { .. } => Refusal::MapsLine,
        }
    }
}

impl From<CacheFault> for Refusal {
    ghost from_gives = { λ f r. number_of r ≡ (cache_refusal f).number };

    fn from(fault: CacheFault) -> Refusal {
        match fault {
            CacheFault::Truncated { .. } => Refusal::CacheTruncated,
            CacheFault::InvalidHeader => Refusal::CacheHeader,
            CacheFault::InvalidString { .. } => Refusal::CacheString,
        }
    }
}

impl From<TargetFault> for Refusal {
    ghost from_gives = { λ f r. number_of r ≡ (target_refusal f).number };

    fn from(fault: TargetFault) -> Refusal {
        match fault {
            TargetFault::MapsUnreadable => Refusal::MapsUnreadable,
            TargetFault::Line(fault) => Refusal::from(fault),
            TargetFault::CacheUnreadable => Refusal::CacheUnreadable,
            TargetFault::Cache(fault) => Refusal::from(fault),
            TargetFault::InvalidTarget => Refusal::NoSuchTarget,
        }
    }
}
