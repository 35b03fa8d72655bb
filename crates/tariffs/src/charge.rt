// The charge of a hire by the hour.
ghost use Rattle.std.specs.Prelude.{◌≡◌, ◌*◌, ◌≤◌};
ghost use Rattle.tariffs.specs.Charge.{charge_of};
ghost use Rattle.tariffs.specs.RoundedUp.{LeastCover};

use costs::Cents;

const MINUTES_AN_HOUR: u64 = 60;

// The charge for so many minutes at a rate in cents an hour, rounded up to a cent. The product comes before the
// division, so no part of a minute is lost.
pub fn charge_for(rate: u32, minutes: u32) -> Cents
    ensures value { result ≡ charge_of rate minutes }
    ensures least { rate ≤ 1000000 → minutes ≤ 1440 → LeastCover 60 (rate * minutes) result.value }
{
    Cents::new((u64::from(rate) * u64::from(minutes)).div_ceil(MINUTES_AN_HOUR))
}
