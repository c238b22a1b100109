// Why a cache is refused.
ghost use Rattle.ld_so_cache.specs.Faults.{cache_refusal};

use byte_parts::refusal::Fault;

/// Why a cache is refused.
#[derive(Clone, Copy)]
pub enum CacheFault {
    /// Refusal 4: the bytes end before this entry does, numbered from 1, or, at 0, before the entries.
    Truncated { entry: u32 },
    /// Refusal 5: the bytes do not start with the magic of the second format; an old cache is refused so too.
    InvalidHeader,
    /// Refusal 6: the key or the value of this entry, numbered from 1, starts at or past the end, or has no zero byte after it.
    InvalidString { entry: u32 },
}

// The number of the refusal: 4, 5 or 6.
impl Fault for CacheFault {
    ghost told = { cache_refusal };

    fn refusal(self) -> u32 {
        match self {
            CacheFault::Truncated { .. } => 4,
            CacheFault::InvalidHeader => 5,
            CacheFault::InvalidString { .. } => 6,
        }
    }
}
