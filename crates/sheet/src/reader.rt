//! A reader of a sheet, section by section.
use cursor::Cursor;
use draft::Draft;

/// A reader of a sheet: where it stands, and the draft that the entries read so far have made.
#[derive(Clone, Copy)]
pub struct Reader<'a> {
    pub(crate) cursor: Cursor<'a>,
    pub(crate) draft: Draft,
}
