//! Why bytes are against a sheet's layout.

/// Why bytes are against a sheet's layout. Bytes are counted from 0.
#[derive(Clone, Copy, Debug, PartialEq)]
pub enum Fault {
    /// The sheet ends before a field does: the sheet's length.
    EndsEarly(usize),
    /// A count or value against its rule: the field's first byte.
    AgainstRule(usize),
    /// Bytes stand behind the last section: the first of them.
    BytesLeft(usize),
}
