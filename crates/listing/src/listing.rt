//! The list call.
ghost use Rattle.std.specs.Prelude.{length};
ghost use Rattle.tariff.specs.Totals.{meaning};
ghost use Rattle.catalogue.specs.Held.{held};
ghost use Rattle.listing.specs.Enquiries.{enquiry_data};
ghost use Rattle.listing.specs.Answers.{ListAnswered};
ghost use Rattle.listing.specs.Theorems.{ListFixed, ListBounded, LinesCosted};

use crate::enquiry::Enquiry;
use crate::refusing::Refusal;
use crate::request::Request;
use catalogue::Catalogue;
use catalogue::memory::MOST_PLACES;
use ranking::Queued;
use stages::{Gathering, Line};
use tariff::Tariff;
use usage::Uses;

/// The cheapest fitting offers, as lines at the start of the memory: how many are shown, and how many offers were costed.
///
/// All memory behind the lines becomes place 0, total 0. A declined call leaves the memory as it was.
pub fn list<T: Tariff>(
    catalogue: &Catalogue<T>,
    enquiry: &Enquiry,
    memory: &mut [Line],
) -> Result<(usize, usize), Refusal>
    ensures answered { ListAnswered (meaning T.served T.drawn T.charged T.floor) (held catalogue.now) (enquiry_data enquiry.now) memory.old result memory.new }
    ensures fixed { ListFixed (meaning T.served T.drawn T.charged T.floor) (held catalogue.now) (enquiry_data enquiry.now) }
    ensures bounded { ListBounded (length (held catalogue.now)) result }
    ensures costed { LinesCosted (meaning T.served T.drawn T.charged T.floor) (held catalogue.now) (enquiry_data enquiry.now) }
{
    let begun = Gathering::begin(enquiry.length).map_err(|_| Refusal::ListLength)?;
    let asked = enquiry.asked()?;
    if memory.len() < catalogue.places() {
        return Err(Refusal::ShortMemory);
    }
    let uses = Uses::new(&enquiry.estimate).map_err(|_| Refusal::BadUses)?;
    let request = Request {
        catalogue,
        enquiry,
        asked,
        uses,
    };
    // An array of a fixed size, and how many of it are used: a list allocates nothing.
    let mut queue = [Queued { floor: 0, place: 0 }; MOST_PLACES];
    let waiting = request.line_up(&mut queue);
    let stage = request.gather(&queue[..waiting], begun, memory);
    let costed = stage.held();
    let cut = stage.cut(memory).unwrap();
    Ok((cut.shown(), costed))
}
