//! An enquiry as it is asked of a catalogue.
ghost use Rattle.std.specs.Prelude.{◌≡◌};
ghost use Rattle.listing.specs.Enquiries.{enquiry_data};
ghost use Rattle.listing.specs.Asked.{Asks};

use crate::asked::Asked;
use crate::enquiry::Enquiry;
use catalogue::Catalogue;
use usage::Uses;

/// An enquiry, the catalogue it is asked of, what it asks of a head, and the list of uses that its estimate is.
#[derive(Drop)]
pub(crate) struct Request<'a, T> {
    pub(crate) catalogue: &'a Catalogue<T>,
    pub(crate) enquiry: &'a Enquiry,
    pub(crate) asked: Asked,
    pub(crate) uses: Uses,
    ghost asks: { Asks asked (enquiry_data enquiry.now) },
    ghost estimated: { uses.parts ≡ (enquiry_data enquiry.now).estimate },
}
