// The lines of maps one after another: maps are trimmed and cut at line feeds.
ghost use Rattle.std.specs.Prelude.{◌≡◌};
ghost use Rattle.std.specs.Iterator.{item_count, YieldsFirstBy};
ghost use Rattle.proc_map.specs.Cursor.{line_of, lines_left};
ghost use Rattle.proc_map.specs.Maps.{map_lines, LinesOf};

use crate::lines::Lines;
use byte_parts::find::find_byte;
use byte_parts::part::Part;
use byte_parts::words::{ending_white, leading_white};

impl<'a> Lines<'a> {
    /// A cursor before the first line of `maps`. Wholly blank maps have no line.
    pub fn new(maps: &'a [u8]) -> Lines<'a>
        ensures lines { lines_left result ≡ map_lines maps.now }
        ensures law { LinesOf maps.now (map_lines maps.now) }
    {
        let place = leading_white(maps);
        let from = &maps[place..];
        let bytes = &from[..from.len() - ending_white(from)];
        Lines {
            left: (!bytes.is_empty()).then_some(Part { place, bytes }),
        }
    }
}

// The first of the lines left comes next, with its place in the maps, and none after the last.
impl<'a> Iterator for Lines<'a> {
    type Item = Part<'a>;

    ghost next_gives = { YieldsFirstBy line_of lines_left };

    ghost remaining = { item_count lines_left };

    fn next(&mut self) -> Option<Part<'a>> {
        let Part { place, bytes } = self.left?;
        let Some(end) = find_byte(bytes, b'\n') else {
            self.left = None;
            return Some(Part { place, bytes });
        };
        self.left = Some(Part {
            place: place + end + 1,
            bytes: &bytes[end + 1..],
        });
        Some(Part {
            place,
            bytes: &bytes[..end],
        })
    }
}
