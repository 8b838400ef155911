//! Items kept in order at the front of a memory: one insertion for every kind of item.
#![tactic(auto)]

ghost use Rattle.std.specs.Prelude.{◌≡◌, ◌≤◌, Bool, length, position};
ghost use Rattle.ordered.specs.Inserting.{spot, Puts};

/// Items that stand in an order.
pub trait Ranked {
    // whether the first stands before the second
    ghost before: { Self → Self → Bool };

    /// Whether this item stands before the other.
    fn is_before(&self, other: &Self) -> bool
        ensures { result ≡ before self.now other.now };
}

/// The memory holds no place for one item more.
#[derive(Clone, Copy, Debug, PartialEq)]
pub struct Full;

/// Puts an item among the first `held` of the memory, before the first of them that it stands before.
///
/// The memory is lent by the caller and nothing is allocated, so how many are held stands beside it.
pub fn put<T: Ranked + Copy>(memory: &mut [T], held: usize, item: T) -> Result<(), Full>
    ensures { Puts T.before item held memory.old result memory.new }
{
    if held >= memory.len() {
        return Err(Full);
    }
    let at = spot_of(&memory[0..held], &item);
    memory.copy_within(at..held, at + 1);
    memory[at] = item;
    Ok(())
}

// Where an item goes among these.
fn spot_of<T: Ranked>(items: &[T], item: &T) -> usize
    ensures at { result ≡ spot T.before item.now items.now }
    ensures within { result ≤ length items.now }
{
    first_behind(items, item).unwrap_or(items.len())
}

// The place of the first of these that an item stands before.
fn first_behind<T: Ranked>(items: &[T], item: &T) -> Option<usize>
    ensures { result ≡ position (T.before item.now) items.now }
{
    items.iter().position(|other| item.is_before(other))
}
