// Notes: where the build id lies.
ghost use Rattle.std.specs.Prelude.{◌≡◌, ◌+◌, ◌^◌, ◌<◌};
ghost use Rattle.elf.specs.Notes.{build_id, is_build_id, note_at, notes_at, notes_in, notes_of, padding};
ghost use Rattle.elf.specs.Sections.{occupied, sections};

use crate::image::Image;
use crate::kind::SectionKind;
use crate::section::SectionHeader;
use crate::sections::Sections;
use byte_parts::fields::Field;
use byte_parts::find::stands_at;
use byte_parts::span::{Span, part};

// Whose note a build id is.
const GNU: &[u8] = b"GNU\0";

// A note that does not fit.
#[derive(Clone, Copy)]
pub(crate) struct MalformedNote;

// What one note says.
#[derive(Clone, Copy)]
pub(crate) enum Note {
    // It is a build id, which lies here.
    BuildId(Span),
    // It is another note, and the next one starts here.
    Another { next: usize },
}

// The next multiple of 4.
pub(crate) fn padded(len: usize) -> usize
    requires { len + 4 < 2 ^ 64 }
    ensures value { result ≡ padding len }
    ensures bound { result < len + 4 }
{
    (len + 3) / 4 * 4
}

// Whether a note of this type, with its name at a place, is a build id. The type stays a number: 3 is
// the only one that is asked for.
fn is_id(notes: &[u8], place: usize, name_size: u32, kind: u32) -> bool
    ensures value { result ≡ is_build_id notes.now place name_size kind }
{
    kind == 3 && name_size >= 4 && stands_at(notes, place, GNU)
}

// What the note at a place says.
fn read_note(notes: &[u8], at: usize) -> Result<Note, MalformedNote>
    ensures value { result ≡ note_at notes.now at }
{
    let numbers = part(notes, Span { place: at, len: 12 }).ok_or(MalformedNote)?;
    let name_size = u32::field_at(numbers, 0);
    let desc_size = u32::field_at(numbers, 4) as usize;
    let kind = u32::field_at(numbers, 8);
    let place = at + 12 + padded(name_size as usize);
    if place + desc_size > notes.len() {
        return Err(MalformedNote);
    }
    if is_id(notes, at + 12, name_size, kind) {
        return Ok(Note::BuildId(Span {
            place,
            len: desc_size,
        }));
    }
    Ok(Note::Another {
        next: place + padded(desc_size),
    })
}

// Where the first build id of a run of notes lies, if one is there before any malformed note.
fn find_id(notes: &[u8]) -> Result<Option<Span>, MalformedNote>
    ensures value { result ≡ notes_in notes.now }
{
    let mut at = 0;
    // A loop by place, and no iterator of notes: where the next one starts is known only once this one is
    // read, and no other function goes through them.
    while at < notes.len() {
        match read_note(notes, at)? {
            Note::BuildId(span) => return Ok(Some(span)),
            Note::Another { next } => at = next,
        }
    }
    Ok(None)
}

impl Image<'_> {
    // What `find_id` says of a section with notes, with the place counted in the image.
    fn notes_in_section(self, section: SectionHeader) -> Result<Option<Span>, MalformedNote>
        ensures value { result ≡ notes_at self.entry.bytes.now (occupied self.entry.bytes.now section) }
    {
        let span = self.section_span(section).ok_or(MalformedNote)?;
        let notes = part(self.bytes, span).ok_or(MalformedNote)?;
        let id = find_id(notes)?;
        Ok(id.map(|id| Span {
            place: span.place + id.place,
            len: id.len,
        }))
    }
}

impl Sections<'_> {
    // Where the first build id of the note sections lies, unless a malformed note comes before it.
    pub(crate) fn build_id(self) -> Option<Span>
        ensures value { result ≡ build_id (notes_of self.entry.image.bytes.now (sections self.entry.image.places self.entry.image.bytes.now self.entry.table)) }
    {
        // A loop, as in `find`: a malformed note ends it too.
        for number in 1..self.table.count {
            let section = self.numbered(number as u32)?;
            if section.kind == SectionKind::Notes {
                if let Some(id) = self.image.notes_in_section(section).ok()? {
                    return Some(id);
                }
            }
        }
        None
    }
}
