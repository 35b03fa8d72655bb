// Sheets under the cards that they were read with.
ghost use Rattle.std.specs.Prelude.{◌≡◌};

use keyinput::Batch;
use model::PricedSheet;
use tariffs::RateCard;

// The sheet of a batch under its card.
pub(crate) fn priced(batch: &Batch) -> PricedSheet<'_, RateCard>
    ensures { (result.sheet.now ≡ batch.now.sheet) × (result.tariff.now ≡ batch.now.card) }
{
    PricedSheet {
        sheet: &batch.sheet,
        tariff: &batch.card,
    }
}
