//! The name of an offer.
ghost use Rattle.std.specs.Prelude.{◌≡◌, ℕ, ◌<◌, ◌≤◌, length, slice_index};
ghost use Rattle.heads.specs.declared.name.TheConstants.{MOST_BYTES};

/// The most bytes of a name.
pub const MOST_BYTES: usize = 24;

/// A name: a text of 1 to 24 printable bytes, with noughts behind it.
// A head is a plain value that is copied between memories, so its name holds no heap.
#[derive(Clone, Copy, PartialEq, Eq)]
pub struct Name {
    pub(crate) bytes: [u8; MOST_BYTES],
    pub(crate) len: usize,
    ghost room: { length bytes ≡ MOST_BYTES },
    ghost some: { 1 ≤ len },
    ghost short: { len ≤ MOST_BYTES },
    ghost low: { (k : ℕ) → k < len → 32 ≤ slice_index bytes k },
    ghost high: { (k : ℕ) → slice_index bytes k ≤ 126 },
    ghost behind: { (k : ℕ) → len ≤ k → slice_index bytes k ≡ 0 },
}
