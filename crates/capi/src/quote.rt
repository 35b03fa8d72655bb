// The quote of one machine, for C.
ghost use Rattle.std.specs.Prelude.{◌≡◌};
ghost use Rattle.capi.specs.Quote.{quote_answer, quote_status, minutes_after, cents_after};

use crate::status::{DONE, NO_QUOTE};
use hire::{Terms, read_hire};
use refusals::Refusal;
use tariffs::Tariff;

// Writes what a machine of this speed and rate quotes for a work.
#[unsafe(no_mangle)]
pub extern "C" fn vulzhedor_quote(
    speed: u32,
    rate: u32,
    work: u32,
    minutes: &mut u32,
    cents: &mut u64,
) -> u32
    ensures status { result ≡ quote_status (quote_answer speed rate work) }
    ensures time { minutes.new ≡ minutes_after (quote_answer speed rate work) minutes.old }
    ensures cost { cents.new ≡ cents_after (quote_answer speed rate work) cents.old }
{
    let hire = read_hire(work, &[Terms { speed, rate }]);
    match hire.map(|hire| hire.card.quote(0, work)) {
        Ok(Some(quote)) => {
            *minutes = quote.minutes;
            *cents = quote.cost.amount();
            DONE
        }
        Ok(None) => NO_QUOTE,
        Err(refusal) => u32::from(refusal.number()),
    }
}
