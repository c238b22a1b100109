// A part of a longer slice, together with its place in it.

/// A part of some longer slice: where it starts there, and its bytes.
#[derive(Clone, Copy)]
pub struct Part<'a> {
    /// Where the part starts in the longer slice, from 0.
    pub place: usize,
    /// The bytes of the part.
    pub bytes: &'a [u8],
}
