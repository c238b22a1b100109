// An image on a shelf that is an object file: its bytes, and where its parts lie.
ghost use Rattle.std.specs.Prelude.{◌≡◌, Some};
ghost use Rattle.elf.specs.Classes.{elf64};
ghost use Rattle.elf.specs.Layouts.{layout_of};

use crate::entry::Entry;
use byte_parts::span::part;
use elf::image::Image;
use elf::layout::Layout;
use elf::sections::Sections;
use shelf::object::Debuglink;

// An image, and where its parts lie.
#[derive(Clone, Copy)]
pub(crate) struct ObjectImage<'a> {
    pub(crate) image: &'a [u8],
    pub(crate) layout: Layout,
    ghost laid: { Some layout ≡ layout_of elf64 image.now },
}

impl<'a> ObjectImage<'a> {
    ghost use Rattle.std.specs.Prelude.{length};
    ghost use Rattle.std.specs.Option.{option_map};
    ghost use Rattle.std.specs.List.{slice_get};
    ghost use Rattle.shelf.specs.Questions.{link_answer, link_name};
    ghost use Rattle.image_shelf.specs.Entries.{entry_model};
    ghost use Rattle.image_shelf.specs.Objects.{object_model};

    // How many symbols there are.
    pub(crate) fn symbol_count(self) -> usize
        ensures value { result ≡ length (object_model self.entry).symbols }
    {
        self.layout.dynamic.count + self.layout.plain.count
    }

    // The symbol at a place: dynamic symbols come before the others.
    pub(crate) fn entry(self, at: usize) -> Option<Entry<'a>>
        ensures value { option_map entry_model result ≡ slice_get (object_model self.entry).symbols at }
    {
        let dynamic = self.layout.dynamic;
        if at < dynamic.count {
            return Entry::in_table(self.image, dynamic, at);
        }
        Entry::in_table(self.image, self.layout.plain, at - dynamic.count)
    }

    // The sections.
    pub(crate) fn sections(self) -> Sections<'a>
        ensures bytes { result.image.bytes.now ≡ self.entry.image.now }
        ensures places { result.image.places ≡ elf64 }
        ensures table { result.table ≡ self.entry.layout.sections }
    {
        Sections {
            image: Image::elf64(self.image),
            table: self.layout.sections,
        }
    }

    // How many sections there are.
    pub(crate) fn section_count(self) -> usize
        ensures value { result ≡ length (object_model self.entry).sections }
    {
        (self.layout.sections.count as usize).saturating_sub(1)
    }

    // What the debuglink says.
    pub(crate) fn debuglink(self) -> Debuglink<usize>
        ensures value { result ≡ link_answer (object_model self.entry).debuglink }
    {
        match self.layout.debuglink {
            Debuglink::Absent => Debuglink::Absent,
            Debuglink::Malformed => Debuglink::Malformed,
            Debuglink::Named(span) => match part(self.image, span) {
                Some(name) => Debuglink::Named(name.len()),
                None => Debuglink::Malformed,
            },
        }
    }

    // The name in the debuglink. All three cases are written out: one question on the enum would hide two.
    pub(crate) fn link(self) -> Option<&'a [u8]>
        ensures value { option_map (λ x. x.now) result ≡ link_name (object_model self.entry).debuglink }
    {
        match self.layout.debuglink {
            Debuglink::Named(span) => part(self.image, span),
            Debuglink::Absent | Debuglink::Malformed => None,
        }
    }

    // The build id.
    pub(crate) fn build_id(self) -> Option<&'a [u8]>
        ensures value { option_map (λ x. x.now) result ≡ (object_model self.entry).build_id }
    {
        part(self.image, self.layout.build_id?)
    }
}
