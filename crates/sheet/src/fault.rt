//! Why a sheet is refused.
use cursor::Fault as LayoutFault;
use draft::Refusal;

/// The first fault met in reading a sheet.
#[derive(Clone, Copy, Debug, PartialEq)]
pub enum Fault {
    /// The bytes are against the layout.
    Layout(LayoutFault),
    /// The draft declines an entry: why, and the entry's first byte; or it declines to be saved: why, and the sheet's length.
    Draft(Refusal, usize),
}
