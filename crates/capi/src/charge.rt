// A charge, for C.
ghost use Rattle.std.specs.Prelude.{◌≡◌, ◌*◌, ◌≤◌};
ghost use Rattle.tariffs.specs.Charge.{charge_of};
ghost use Rattle.tariffs.specs.RoundedUp.{LeastCover};

use tariffs::charge_for;

// The charge in cents for so many minutes at a rate in cents an hour.
#[unsafe(no_mangle)]
pub extern "C" fn vulzhedor_charge(rate: u32, minutes: u32) -> u64
    ensures value { result ≡ (charge_of rate minutes).value }
    ensures least { rate ≤ 1000000 → minutes ≤ 1440 → LeastCover 60 (rate * minutes) result }
{
    charge_for(rate, minutes).amount()
}
