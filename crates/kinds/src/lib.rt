//! The kinds of tariff: plan, block tariff, add-on over any tariff, promotion over any tariff; and the shop's piles.
#![tactic(auto)]

pub mod addon;
pub mod block_tariff;
pub mod layers;
pub mod piles;
pub mod plan;
pub mod promotion;

pub use addon::AddOn;
pub use block_tariff::BlockTariff;
pub use piles::{DataOffer, PhoneOffer};
pub use plan::Plan;
pub use promotion::Promotion;
