// Sections by their number.
ghost use Rattle.std.specs.Prelude.{◌≡◌, nat_eq};
ghost use Rattle.std.specs.List.{find};

use shelf::object::Section;
use table::at::row_at;
use table::find;

// The first section with this number, by its place: the search is the table's, which serves every key.
pub(crate) fn section_in(sections: &[Section], number: u16) -> Option<Section>
    ensures value { result ≡ find (λ s. nat_eq s.number number) sections.now }
{
    row_at(sections, find::find(sections, &number)?)
}
