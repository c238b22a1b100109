// The loader's cache in its second format: a header, entries of 24 bytes, and strings that the entries place.
ghost use Rattle.std.specs.Prelude.{◌≡◌, ℕ, ◌<◌, ◌⊎◌, List, MatchOption, MatchResult};
ghost use Rattle.byte_parts.specs.Fields.{StringsEnd};
ghost use Rattle.library_name.specs.Names.{NamesKey};
ghost use Rattle.ld_so_cache.specs.Cache.{Header, count, Room, value_place, Entry, Whole, Good, FieldsRead, EntryRead, Finds, FindsNone};
ghost use Rattle.ld_so_cache.specs.Faults.{EntryFault, Refuses};

use crate::fault::CacheFault;
use byte_parts::fields::{read_u32, string_at, strings_end};
use byte_parts::part::Part;
use library_name::names_key;

// What the second format starts with.
const MAGIC: &[u8] = b"glibc-ld.so.cache1.1";

/// A cache whose header and whose every entry has been checked.
#[derive(Clone, Copy)]
pub struct LdSoCache<'a> {
    bytes: &'a [u8],
    entries: u32,
    ghost good: { ∥ Good bytes.now ∥₁ },
    ghost counted: { entries ≡ count bytes.now },
}

/// An entry of a cache.
#[derive(Clone, Copy)]
pub struct CacheEntry<'a> {
    /// What kind of library the entry is for.
    pub flags: u32,
    /// The name that is looked for, and its place in the cache.
    pub key: Part<'a>,
    /// The path of the library, and its place in the cache.
    pub value: Part<'a>,
}

// The fields of an entry: its flags, and the places of its strings.
#[derive(Clone, Copy)]
struct Fields {
    flags: u32,
    key: usize,
    value: usize,
}

// The fields of entry `number`, from 1, or none where they are not all there.
fn read_fields(bytes: &[u8], number: u32) -> Option<Fields>
    ensures cases { MatchOption result (Room bytes.now number → ⊥) (λ f. FieldsRead bytes.now number f.flags f.key f.value) }
{
    let place = 24 + 24 * number as usize;
    let flags = read_u32(bytes, place)?;
    let key = read_u32(bytes, place + 4)?;
    let value = read_u32(bytes, place + 8)?;
    Some(Fields {
        flags,
        key: key as usize,
        value: value as usize,
    })
}

// Whether entry `number` is whole. Each string has to start below `end`, which is what `strings_end` answers.
fn check_entry(bytes: &[u8], end: usize, number: u32) -> Result<(), CacheFault>
    requires { StringsEnd bytes.now end }
    ensures cases { MatchResult result (λ _. Whole bytes.now number) (EntryFault bytes.now number) }
{
    let fields = read_fields(bytes, number).ok_or(CacheFault::Truncated { entry: number })?;
    if fields.key >= end || fields.value >= end {
        return Err(CacheFault::InvalidString { entry: number });
    }
    Ok(())
}

// How many entries the header counts.
fn read_header(bytes: &[u8]) -> Result<u32, CacheFault>
    ensures cases { MatchResult result (λ n. Header bytes.now × (n ≡ count bytes.now)) (Refuses bytes.now) }
{
    if bytes.len() < 20 {
        return Err(CacheFault::Truncated { entry: 0 });
    }
    if !bytes.starts_with(MAGIC) {
        return Err(CacheFault::InvalidHeader);
    }
    read_u32(bytes, 20).ok_or(CacheFault::Truncated { entry: 0 })
}

impl<'a> LdSoCache<'a> {
    /// The cache in `bytes`, all of whose entries are whole.
    /// Refusal 4 (`Truncated`): the bytes end inside the header or before the 12 bytes of an entry do.
    /// Refusal 5 (`InvalidHeader`): they do not start with the magic.
    /// Refusal 6 (`InvalidString`): the key or the value of an entry is not there as a zero-terminated string.
    /// The first that is met is answered: the header's, then the entries' in their order.
    pub fn parse(bytes: &'a [u8]) -> Result<LdSoCache<'a>, CacheFault>
        ensures cases { MatchResult result (λ c. Good bytes.now × (c.bytes.now ≡ bytes.now) × (c.entries ≡ count bytes.now)) (Refuses bytes.now) }
    {
        let entries = read_header(bytes)?;
        let end = strings_end(bytes);
        for number in 1..=entries {
            check_entry(bytes, end, number)?;
        }
        Ok(LdSoCache { bytes, entries })
    }

    /// How many entries the cache has.
    pub fn len(&self) -> u32
        ensures value { result ≡ self.now.entries }
    {
        self.entries
    }

    /// The entry with this number, from 1, or none where there is no such number.
    pub fn entry(&self, number: u32) -> Option<CacheEntry<'a>>
        ensures cases { MatchOption result ((number ≡ 0) ⊎ (self.now.entries < number)) (λ e. EntryRead self.now.bytes.now self.now.entries number e.flags e.key.place e.key.bytes.now e.value.place e.value.bytes.now) }
    {
        if number == 0 || number > self.len() {
            return None;
        }
        let fields = read_fields(self.bytes, number)?;
        let key = string_at(self.bytes, fields.key)?;
        let value = string_at(self.bytes, fields.value)?;
        Some(CacheEntry {
            flags: fields.flags,
            key: Part {
                place: fields.key,
                bytes: key,
            },
            value: Part {
                place: fields.value,
                bytes: value,
            },
        })
    }

    // The value of entry `number`, if its key stands for the target.
    fn value_for(&self, number: u32, target: &[u8]) -> Option<Part<'a>>
        ensures cases { MatchOption result ((k v : List ℕ) → Entry self.now.bytes.now number k v → NamesKey target.now k → ⊥) (λ p. ((k : List ℕ) × Entry self.now.bytes.now number k p.bytes.now × NamesKey target.now k × (p.place ≡ value_place self.now.bytes.now number))) }
    {
        let fields = read_fields(self.bytes, number)?;
        let key = string_at(self.bytes, fields.key)?;
        if !names_key(target, key) {
            return None;
        }
        let value = string_at(self.bytes, fields.value)?;
        Some(Part {
            place: fields.value,
            bytes: value,
        })
    }

    /// The value of the first entry whose key stands for the target, with its place in the cache.
    /// None where no entry does.
    pub fn resolve(&self, target: &[u8]) -> Option<Part<'a>>
        ensures cases { MatchOption result (FindsNone self.now.bytes.now self.now.entries target.now) (λ p. ((n : ℕ) × Finds self.now.bytes.now self.now.entries target.now n p.bytes.now × (p.place ≡ value_place self.now.bytes.now n))) }
    {
        // A loop: the chain over `1..=n` was tried, and no lemma says what it gives.
        for number in 1..=self.len() {
            if let Some(value) = self.value_for(number, target) {
                return Some(value);
            }
        }
        None
    }
}
