//! What every kind of tariff means.
ghost use Rattle.std.specs.Prelude.{◌≡◌, List, Bool, ℕ, ◌≤◌, get_or, length};
ghost use Rattle.usage.specs.UsesLists.{UsesList};
ghost use Rattle.tariff.specs.Totals.{most};

use usage::Uses;

/// A kind of tariff: four meanings, fixed by what it holds, and the laws that they keep to.
///
/// The functions answer these meanings, never refuse, and leave the tariff as it was. Only drawing makes a new list.
pub trait Tariff {
    // whether a seat is served
    ghost served: { Self → ℕ → Bool };

    // what drawing leaves of a list of uses: the overrun
    ghost drawn: { Self → List ℕ → List ℕ };

    // the total charged for a list of uses
    ghost charged: { Self → List ℕ → ℕ };

    // the floor: the sum below which no bill comes
    ghost floor: { Self → ℕ };

    /// Whether the seat is served.
    fn serves(&self, seat: usize) -> bool
        ensures { result ≡ served self.now seat };

    /// The overrun: what drawing leaves of a list of uses.
    fn draw(&self, uses: Uses) -> Uses
        ensures { result.parts ≡ drawn self.now uses.parts };

    /// The total for a list of uses, in ten-millionths.
    fn charge(&self, uses: &Uses) -> u64
        ensures { result ≡ charged self.now uses.now.parts };

    /// The floor, in ten-millionths.
    fn floor(&self) -> u64
        ensures { result ≡ floor self.now };

    // drawing keeps the seats
    ghost keeps: { (t : Self) (us : List ℕ) → UsesList us → length (drawn t us) ≡ length us };

    // drawing raises no seat
    ghost lowers: { (t : Self) (us : List ℕ) → UsesList us → (k : ℕ) → get_or (drawn t us) k 0 ≤ get_or us k 0 };

    // no total is above 10^18
    ghost capped: { (t : Self) (us : List ℕ) → UsesList us → charged t us ≤ most };

    // no list of uses is charged below the floor
    ghost above: { (t : Self) (us : List ℕ) → UsesList us → floor t ≤ charged t us };
}
