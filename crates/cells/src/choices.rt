// The cheapest quote within an allowance.
ghost use Rattle.std.specs.Prelude.{◌≡◌, MatchOption};
ghost use Rattle.sheets.specs.Book.{book};
ghost use Rattle.model.specs.Assignment.{quote_of};
ghost use Rattle.model.specs.Allowance.{choice_within, cheaper_choice, cheapest, IsCheapest, NoneWithin};
ghost use Rattle.cells.specs.Minutes.{task_at};

use crate::{TimedSheet, quote_of};
use costs::Cost;
use model::Choice;
use tariffs::Tariff;

// The machine with what it quotes for the task of this number, if that takes no more than the allowance.
fn choice_within<T: Tariff>(
    timed: &TimedSheet<T>,
    number: usize,
    machine: usize,
    allowance: u32,
) -> Option<Choice<T::Cost>>
    ensures { result ≡ choice_within allowance machine (quote_of (T.Tariff.meaning timed.now.priced.tariff.now) (task_at (book timed.now.priced.sheet.now).tasks number) machine) }
{
    let task = timed.priced.sheet.tasks().get(number)?;
    // Of a standing task only those machines are asked what they cost whose kept minutes are few enough.
    if !task.struck {
        let minutes = timed.minutes(number, machine);
        if minutes == 0 || minutes > allowance {
            return None;
        }
    }
    let quote = quote_of(timed.priced.tariff, task, machine)?;
    (quote.minutes <= allowance).then_some(Choice {
        machine,
        cost: quote.cost,
    })
}

// The cheaper of two choices, the first among equals.
fn cheaper_choice<C: Cost>(first: Option<Choice<C>>, second: Option<Choice<C>>) -> Option<Choice<C>>
    ensures { result ≡ cheaper_choice C.Cost.kind first second }
{
    match (first, second) {
        (Some(x), Some(y)) => Some(if x.cost.at_most(y.cost) { x } else { y }),
        (first, second) => first.or(second),
    }
}

// The cheapest quote, within the allowance, of the task of this number, on the lowest machine among equals.
pub fn cheapest<T: Tariff>(
    timed: &TimedSheet<T>,
    number: usize,
    allowance: u32,
) -> Option<Choice<T::Cost>>
    ensures value { result ≡ cheapest T.Cost.Cost.kind (T.Tariff.meaning timed.now.priced.tariff.now) (task_at (book timed.now.priced.sheet.now).tasks number) allowance }
    ensures chosen { MatchOption result (NoneWithin (T.Tariff.meaning timed.now.priced.tariff.now) (task_at (book timed.now.priced.sheet.now).tasks number) allowance) (λ choice. IsCheapest T.Cost.Cost.kind (T.Tariff.meaning timed.now.priced.tariff.now) (task_at (book timed.now.priced.sheet.now).tasks number) allowance choice) }
{
    let mut best = None;
    for machine in 0..timed.priced.tariff.machines() {
        let choice = choice_within(timed, number, machine, allowance);
        // Most machines give none; then nothing is copied.
        if choice.is_some() {
            best = cheaper_choice(best, choice);
        }
    }
    best
}
