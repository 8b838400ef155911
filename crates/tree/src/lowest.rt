//! The lowest node that passes a test.
ghost use Rattle.std.specs.Prelude.{◌≡◌, ℕ, ◌<◌, Bool, length};
ghost use Rattle.refusal.specs.Lowest.{lowest};
ghost use Rattle.tree.specs.Held.{parents_of};

use crate::tree::ServiceTree;

impl ServiceTree {
    /// The lowest node that passes a test, if one does.
    pub fn lowest<F: Fn(u8) -> bool>(&self, test: F) -> Option<u8>
        requires { F.IsAlwaysCallable test }
        ensures { (passes : ℕ → Bool) → ((n : ℕ) (b : Bool) → n < length (parents_of self.now) → F.post test n b → b ≡ passes n) → result ≡ lowest passes (length (parents_of self.now)) }
    {
        // `find` was tried: it speaks of a closure around the test, and what follows for the test itself stays open.
        let count = self.count as u8;
        for node in 0..count {
            if test(node) {
                return Some(node);
            }
        }
        None
    }
}
