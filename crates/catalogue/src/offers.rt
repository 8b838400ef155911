//! What is published in a catalogue.
ghost use Rattle.std.specs.Prelude.{◌≡◌, Some, MatchOption, ◌≢◌};
ghost use Rattle.heads.specs.Heads.{head_data};
ghost use Rattle.heads.specs.Rules.{HeadData};
ghost use Rattle.catalogue.specs.Books.{place_at, published};
ghost use Rattle.catalogue.specs.Held.{held};

use crate::memory::Catalogue;
use crate::slot::State;
use heads::Head;

impl<T> Catalogue<T> {
    /// The head and tariff published at a place, if there are.
    pub fn offer(&self, place: usize) -> Option<(Head, &T)>
        ensures { MatchOption result ((h : HeadData) (t : T) → place_at (held self.now) place ≢ Some (published h t)) (λ x. place_at (held self.now) place ≡ Some (published (head_data x.0) x.1.now)) }
    {
        let slot = self.slots.get(place)?;
        (slot.state == State::Published).then_some((slot.head, &self.tariffs[place]))
    }
}
