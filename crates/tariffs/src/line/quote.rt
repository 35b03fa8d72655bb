// What a line of a rate card quotes.
ghost use Rattle.std.specs.Prelude.{◌≡◌};
ghost use Rattle.tariffs.specs.Line.{line_answer, line_quote, TimesAreLeast};

use crate::{Line, MAX_MINUTES, Quote, charge_for};
use costs::Cents;

const MAX_SPEED: u32 = 10_000;

const MAX_RATE: u32 = 1_000_000;

impl Line {
    // The line of this speed and rate, if both are in range.
    pub fn new(speed: u32, rate: u32) -> Option<Line>
        ensures value { result ≡ line_answer speed rate }
        ensures times_least { TimesAreLeast }
    {
        if !(1..=MAX_SPEED).contains(&speed) || rate > MAX_RATE {
            return None;
        }
        Some(Line { speed, rate })
    }

    // The time and the charge for a work, if it takes no more than a day.
    pub(crate) fn quote(self, work: u32) -> Option<Quote<Cents>>
        ensures { result ≡ line_quote self work }
    {
        let minutes = work.div_ceil(self.speed);
        if minutes > MAX_MINUTES {
            return None;
        }
        let cost = charge_for(self.rate, minutes);
        Some(Quote { minutes, cost })
    }
}
