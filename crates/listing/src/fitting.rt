//! The floor and the total of an offer that fits a request.
ghost use Rattle.std.specs.Prelude.{◌≡◌, Some};
ghost use Rattle.tariff.specs.Totals.{meaning};
ghost use Rattle.ranking.specs.Offers.{offer_at, Fitting};
ghost use Rattle.listing.specs.Tests.{serves_all};
ghost use Rattle.listing.specs.Requests.{offers_for, FloorIfFitting};

use crate::request::Request;
use tariff::{Tariff, total};
use usage::Uses;

/// The latest day of an enquiry.
pub const LATEST_DAY: u16 = 65_534;

/// The longest term of an enquiry.
pub const LONGEST_TERM: u8 = 60;

// Whether the tariff serves every seat with a use above 0.
fn serves_uses<T: Tariff>(tariff: &T, uses: &Uses) -> bool
    ensures { result ≡ serves_all (T.served tariff.now) 0 uses.now.parts }
{
    uses.parts()
        .iter()
        .enumerate()
        .all(|(seat, parts)| *parts == 0 || tariff.serves(seat))
}

impl<T: Tariff> Request<'_, T> {
    // The floor of the offer at a place, if it fits.
    pub(crate) fn floor_at(&self, place: usize) -> Option<u64>
        ensures { FloorIfFitting (offers_for (meaning T.served T.drawn T.charged T.floor) self.now) place result }
    {
        let (head, tariff) = self.catalogue.offer(place)?;
        (self.asked.admits(&head) && serves_uses(tariff, &self.uses)).then(|| tariff.floor())
    }

    // The total of the offer at a place, if it is published.
    pub(crate) fn total_at(&self, place: usize) -> Option<u64>
        ensures { Fitting (offers_for (meaning T.served T.drawn T.charged T.floor) self.now) place → result ≡ Some (offer_at (offers_for (meaning T.served T.drawn T.charged T.floor) self.now) place).total }
    {
        let (_, tariff) = self.catalogue.offer(place)?;
        Some(total(tariff, self.uses))
    }
}
