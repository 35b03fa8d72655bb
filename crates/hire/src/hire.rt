// A hire: a work, and the card of the machines that are offered for it.
ghost use Rattle.std.specs.Prelude.{◌≡◌, ◌^◌, ◌<◌};
ghost use Rattle.hire.specs.Refusal.{hire_told};
ghost use Rattle.hire.specs.Hire.{bad_argument, told_at, card_answer, card_heard, hire_answer, hire_heard};

use crate::{HireRefusal, Terms};
use tariffs::{CardRefusal, Line, RateCard};
use work::work_in_range;

#[derive(Clone, Copy, PartialEq, Eq, Debug)]
pub struct Hire {
    pub work: u32,
    pub card: RateCard,
}

// Of the terms of a machine that are out of range, the argument that is: the speed, else the rate. At the rate 0, which
// is in range, the speed alone decides.
fn bad_argument(machine: usize, offer: &Terms) -> usize
    requires { machine < 2 ^ 60 }
    ensures { result ≡ bad_argument machine offer.now }
{
    let speed = 2 + 2 * machine;
    if Line::new(offer.speed, 0).is_some() {
        speed + 1
    } else {
        speed
    }
}

// The card's refusal of the line of these terms.
fn at_argument(refusal: CardRefusal, machine: usize, offer: &Terms) -> HireRefusal
    requires { machine < 2 ^ 60 }
    ensures { hire_told result ≡ told_at refusal machine offer.now }
{
    match refusal {
        CardRefusal::Full => HireRefusal::FullCard(2 + 2 * machine),
        CardRefusal::OutOfRange => HireRefusal::OutOfRange(bad_argument(machine, offer)),
    }
}

// The card of the machines' terms, in their order.
fn read_card(terms: &[Terms]) -> Result<RateCard, HireRefusal>
    ensures { card_heard result ≡ card_answer terms.now }
{
    let mut card = RateCard::new();
    for (machine, offer) in terms.iter().enumerate() {
        card.add(offer.speed, offer.rate)
            .map_err(|refusal| at_argument(refusal, machine, offer))?;
    }
    Ok(card)
}

// The hire of a work from machines on these terms.
pub fn read_hire(work: u32, terms: &[Terms]) -> Result<Hire, HireRefusal>
    ensures { hire_heard result ≡ hire_answer work terms.now }
{
    if !work_in_range(work) {
        return Err(HireRefusal::Work);
    }
    let card = read_card(terms)?;
    Ok(Hire { work, card })
}
