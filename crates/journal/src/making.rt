//! One call on a catalogue.
ghost use Rattle.tariff.specs.Totals.{meaning};
ghost use Rattle.std.specs.Prelude.{◌≡◌};
ghost use Rattle.catalogue.specs.Answers.{told};
ghost use Rattle.catalogue.specs.Held.{held};
ghost use Rattle.journal.specs.Calls.{call_data, answer_data, said_to};
ghost use Rattle.journal.specs.Runs.{Answered, Extends};
ghost use Rattle.journal.specs.Stores.{Stored};

use crate::call::{Answer, Call, Declined, Granted};
use catalogue::{Catalogue, Refusal as CatalogueRefusal};
use listing::list;
use tariff::Tariff;

/// Makes one call on a catalogue.
///
/// Its answer is what the book says that the catalogue holds, and it goes behind any run that led to that book.
pub fn answer<T: Tariff + Drop>(catalogue: &mut Catalogue<T>, call: Call<T>) -> Answer<T>
    ensures answered { Answered (meaning T.served T.drawn T.charged T.floor) (held catalogue.old) (call_data call) (answer_data result) (held catalogue.new) }
    ensures stored { Stored catalogue.old (call_data call) (answer_data result) catalogue.new }
    ensures extends { Extends (meaning T.served T.drawn T.charged T.floor) (held catalogue.old) (call_data call) (answer_data result) (held catalogue.new) }
{
    match call {
        Call::Enter(place, head, tariff) => catalogue
            .enter(place, &head, tariff)
            .map(|()| Granted::Done)
            .map_err(|(refusal, back)| Declined {
                refusal: refusal.into(),
                call: Call::Enter(place, head, back),
            }),
        Call::Publish(place) => changed(catalogue.publish(place), Call::Publish(place)),
        Call::Amend(place, last) => changed(catalogue.amend(place, last), Call::Amend(place, last)),
        Call::Delete(place) => changed(catalogue.delete(place), Call::Delete(place)),
        // The lines come back in both cases, so `map_err` cannot take them.
        Call::List(enquiry, mut lines) => match list(catalogue, &enquiry, &mut lines) {
            Ok((shown, costed)) => Ok(Granted::Shown(shown, costed, lines)),
            Err(refusal) => Err(Declined {
                refusal: refusal.into(),
                call: Call::List(enquiry, lines),
            }),
        },
    }
}

// The answer to a change, by what the catalogue said.
fn changed<T: Drop>(said: Result<(), CatalogueRefusal>, call: Call<T>) -> Answer<T>
    ensures { answer_data result ≡ said_to (told said) (call_data call) }
{
    said.map(|()| Granted::Done).map_err(|refusal| Declined {
        refusal: refusal.into(),
        call,
    })
}
