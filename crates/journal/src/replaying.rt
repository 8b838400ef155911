//! Runs of calls on a catalogue that is opened empty.
ghost use Rattle.tariff.specs.Totals.{meaning};
ghost use Rattle.journal.specs.Replays.{Replays};
ghost use Rattle.journal.specs.Laws.{RunLaws};

use crate::call::{Answer, Call};
use crate::making::answer;
use crate::run::{Given, Replayed, Stopped};
use catalogue::Catalogue;
use tariff::Tariff;

/// Opens an empty catalogue over the memories and makes the calls in their order, each on what the earlier ones left.
///
/// Every answer is what the book of the earlier calls says; a list call is answered exactly where no row of the table of
/// refusals holds, and then shows the cheapest fitting offers of that book. It allocates nothing.
pub fn replay<T: Tariff + Drop>(given: Given<T>) -> Result<Replayed<T>, Stopped<T>>
    ensures replays { Replays (meaning T.served T.drawn T.charged T.floor) given result }
    ensures laws { RunLaws (meaning T.served T.drawn T.charged T.floor) }
{
    let room = given.answers.capacity() - given.answers.len();
    if room < given.calls.len() {
        return Err(Stopped::NoRoom(given));
    }
    let Given {
        slots,
        tariffs,
        calls,
        mut answers,
    } = given;
    // The calls and the answers are used in both cases, so `map_err` cannot take them.
    let mut catalogue = match Catalogue::open(slots, tariffs) {
        Ok(catalogue) => catalogue,
        Err(back) => {
            let given = Given {
                slots: back.slots,
                tariffs: back.tariffs,
                calls,
                answers,
            };
            return Err(Stopped::NotOpened(back.refusal, given));
        }
    };
    for call in calls {
        let said = answer(&mut catalogue, call);
        answers.push_reserved(said);
    }
    Ok(Replayed { catalogue, answers })
}
