// A tariff that is none of the library's: cents and minutes as they are given.
ghost use Rattle.exhaustive.specs.Given.{given_meaning};
ghost use Rattle.exhaustive.specs.Ranges.{given_ranged};

use costs::Cents;
use tariffs::{Quote, Tariff};
use work::work_in_range;

pub(crate) const GIVEN_MACHINES: usize = 4;

// Works with the same remainder by this number have the same quotes.
pub(crate) const WORK_CLASSES: usize = 4;

// What a machine asks for a class of works. Minutes out of range are no quote.
#[derive(Clone, Copy, Drop, PartialEq, Eq, Debug)]
pub(crate) struct Charge {
    pub(crate) minutes: u32,
    pub(crate) cents: u64,
}

// The charges of the first machine by class, then those of the next.
#[derive(Clone, Copy)]
pub(crate) struct GivenTariff<'a> {
    pub(crate) charges: &'a [Charge],
}

impl<'a> Tariff for GivenTariff<'a> {
    type Cost = Cents;

    ghost meaning = { given_meaning };

    ghost ranged = { given_ranged };

    fn machines(&self) -> usize {
        GIVEN_MACHINES
    }

    fn quote(&self, machine: usize, work: u32) -> Option<Quote<Cents>> {
        if machine >= GIVEN_MACHINES || !work_in_range(work) {
            return None;
        }
        let charge = self
            .charges
            .get(machine * WORK_CLASSES + work as usize % WORK_CLASSES)?;
        if charge.minutes < 1 || charge.minutes > 1_440 {
            return None;
        }
        Some(Quote {
            minutes: charge.minutes,
            cost: Cents::new(charge.cents),
        })
    }
}
