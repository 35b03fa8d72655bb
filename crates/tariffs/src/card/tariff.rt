// The rate card as a tariff.
ghost use Rattle.tariffs.specs.Card.{card_meaning};
ghost use Rattle.tariffs.specs.Ranges.{card_ranged};

use crate::{Quote, RateCard, Tariff};
use costs::Cents;
use work::work_in_range;

impl Tariff for RateCard {
    type Cost = Cents;

    ghost meaning = { card_meaning };

    ghost ranged = { card_ranged };

    fn machines(&self) -> usize {
        self.count
    }

    fn quote(&self, machine: usize, work: u32) -> Option<Quote<Cents>> {
        if !work_in_range(work) {
            return None;
        }
        self.lines[..self.count].get(machine)?.quote(work)
    }
}
