//! The two piles of the shop, with their meanings written out.
ghost use Rattle.std.specs.Prelude.{◌≡◌};
ghost use Rattle.prices.specs.Tables.{table_data};
ghost use Rattle.prices.specs.Blocks.{blocks_data};
ghost use Rattle.tariff.specs.Totals.{offer_total};
ghost use Rattle.kinds.specs.Meanings.{plan_drawn, plan_charge, addon_drawn, addon_charge, block_charge, reduced};

use crate::addon::AddOn;
use crate::block_tariff::BlockTariff;
use crate::plan::Plan;
use crate::promotion::Promotion;
use tariff::total;
use usage::Uses;

/// Promotion over add-on over add-on over plan.
pub type PhoneOffer = Promotion<AddOn<AddOn<Plan>>>;

/// Promotion over add-on over block tariff.
pub type DataOffer = Promotion<AddOn<BlockTariff>>;

/// The total of a phone offer, written out layer by layer.
pub fn phone_total(phone: &PhoneOffer, estimate: Uses) -> u64
    ensures { result ≡ offer_total (addon_drawn (table_data phone.now.below.table) (addon_drawn (table_data phone.now.below.below.table) (plan_drawn (table_data phone.now.below.below.below.table)))) (λ us. reduced phone.now.reduction.hundredths (addon_charge (table_data phone.now.below.table) (addon_charge (table_data phone.now.below.below.table) (plan_charge (table_data phone.now.below.below.below.table))) us)) estimate.parts }
{
    total(phone, estimate)
}

/// The total of a data offer, written out layer by layer.
pub fn data_total(offer: &DataOffer, estimate: Uses) -> u64
    ensures { result ≡ offer_total (addon_drawn (table_data offer.now.below.table) (λ us. us)) (λ us. reduced offer.now.reduction.hundredths (addon_charge (table_data offer.now.below.table) (block_charge offer.now.below.below.fixed.hundredths (blocks_data offer.now.below.below.table)) us)) estimate.parts }
{
    total(offer, estimate)
}
