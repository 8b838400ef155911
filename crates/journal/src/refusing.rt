//! Why a call is declined.
ghost use Rattle.std.specs.Prelude.{◌≡◌};
ghost use Rattle.journal.specs.declared.refusing.Refusal.TheVariants.{Catalogue, List};

use catalogue::Refusal as CatalogueRefusal;
use listing::Refusal as ListRefusal;

/// Why a call is declined: by the catalogue, or by the list.
#[derive(Clone, Copy, Debug, PartialEq)]
pub enum Refusal {
    /// An enter, publish, amend or delete.
    Catalogue(CatalogueRefusal),
    /// A list.
    List(ListRefusal),
}

impl From<CatalogueRefusal> for Refusal {
    ghost from_gives = { λ e r. r ≡ Catalogue e };

    fn from(refusal: CatalogueRefusal) -> Refusal {
        Refusal::Catalogue(refusal)
    }
}

impl From<ListRefusal> for Refusal {
    ghost from_gives = { λ e r. r ≡ List e };

    fn from(refusal: ListRefusal) -> Refusal {
        Refusal::List(refusal)
    }
}
