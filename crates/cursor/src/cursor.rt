//! A cursor over borrowed bytes.
ghost use Rattle.std.specs.Prelude.{◌≤◌, length};

/// A cursor over the bytes of a sheet: all of them, and the place of the next to be read.
#[derive(Clone, Copy)]
pub struct Cursor<'a> {
    pub(crate) bytes: &'a [u8],
    pub(crate) at: usize,
    ghost within: { at ≤ length bytes.now },
}
