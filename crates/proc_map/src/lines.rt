// A cursor over the lines of maps: the struct alone. Its functions cite definitions that name it, and stand in cursor.rt.
ghost use Rattle.std.specs.Prelude.{◌+◌, ◌^◌, ◌<◌, length};
ghost use Rattle.std.specs.Option.{ForSome};

use byte_parts::part::Part;

/// The lines of maps one after another: an iterator.
#[derive(Drop)]
pub struct Lines<'a> {
    // what follows the lines that were given, from the place of the next one on; none behind the last line
    pub(crate) left: Option<Part<'a>>,
    ghost fits: { ForSome left (λ p. p.place + length p.bytes.now < 2 ^ 64) },
}
