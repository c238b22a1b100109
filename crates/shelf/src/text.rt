// Answers about a text: how long it is, and the byte at a place.
ghost use Rattle.std.specs.Prelude.{◌≡◌, length};
ghost use Rattle.std.specs.Option.{option_map};
ghost use Rattle.std.specs.List.{slice_get};
ghost use Rattle.shelf.specs.Questions.{ask};

use table::at::row_at;

/// How long a text is, if there is one.
pub fn len_of(text: Option<&[u8]>) -> Option<usize>
    ensures value { result ≡ option_map length (option_map (λ x. x.now) text.entry) }
{
    Some(text?.len())
}

/// The byte at a place of a text, if there is one.
pub fn byte_of(text: Option<&[u8]>, at: usize) -> Option<u8>
    ensures value { result ≡ ask (option_map (λ x. x.now) text.entry) (λ s. slice_get s at) }
{
    row_at(text?, at)
}
