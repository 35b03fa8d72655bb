// The calls as C makes them: by the places of their arguments. The clauses of a call name its arguments, and C does not: so
// each call is made here once, and what it does is said of the places that c/vulzhedor.h declares. Arguments that changed
// places in a signature alone would not be seen otherwise.
ghost use Rattle.std.specs.Prelude.{◌≡◌, ◌*◌, ◌≤◌, length, take};
ghost use Rattle.tariffs.specs.Charge.{charge_of};
ghost use Rattle.tariffs.specs.RoundedUp.{LeastCover};
ghost use Rattle.texts.specs.Write.{write_answer, write_after};
ghost use Rattle.keyanswer.specs.Answer.{text_bytes, key_text};
ghost use Rattle.keyanswer.specs.Compare.{compare_answer};
ghost use Rattle.keyanswer.specs.Words.{TextTells};
ghost use Rattle.keyanswer.specs.Better.{key_verdict};
ghost use Rattle.capi.specs.Better.{better_status, better_after, length_after, cost_after, refused_input_after, refused_value_after, RightlyTold};
ghost use Rattle.capi.specs.Bargains.{verdict_status, equal_after, about_after, carried_after, RightlyJudged};
ghost use Rattle.capi.specs.Quote.{quote_answer, quote_status, minutes_after, cents_after};
ghost use Rattle.capi.specs.Status.{status_of, number_after};

use crate::{
    vulzhedor_answer, vulzhedor_better_bargain, vulzhedor_charge, vulzhedor_quote,
    vulzhedor_same_bargains,
};

fn charge_by_place(rate: u32, minutes: u32) -> u64
    ensures value { result ≡ (charge_of rate minutes).value }
    ensures least { rate ≤ 1000000 → minutes ≤ 1440 → LeastCover 60 (rate * minutes) result }
{
    vulzhedor_charge(rate, minutes)
}

fn quote_by_place(speed: u32, rate: u32, work: u32, minutes: &mut u32, cents: &mut u64) -> u32
    ensures status { result ≡ quote_status (quote_answer speed rate work) }
    ensures time { minutes.new ≡ minutes_after (quote_answer speed rate work) minutes.old }
    ensures cost { cents.new ≡ cents_after (quote_answer speed rate work) cents.old }
{
    vulzhedor_quote(speed, rate, work, minutes, cents)
}

// The input is lent as memory that may be written, so that a signature with input and text exchanged could be called too.
fn answer_by_place(input: &mut [u8], text: &mut [u8], written: &mut usize) -> u32
    ensures status { result ≡ status_of (write_answer (key_text input.old) text.old) }
    ensures after { text.new ≡ write_after (key_text input.old) text.old }
    ensures input { input.new ≡ input.old }
    ensures count { written.new
        ≡ number_after (write_answer (key_text input.old) text.old) written.old }
    ensures fits { text_bytes ≤ length text.old → result ≡ 0 }
    ensures words { result ≡ 0 → TextTells input.old (take written.new text.new) }
{
    vulzhedor_answer(input, text, written)
}

fn same_bargains_by_place(
    first: &[u8],
    second: &[u8],
    equal: &mut u32,
    about: &mut u32,
    carried: &mut u64,
) -> u32
    ensures status { result ≡ verdict_status (compare_answer first.now second.now) }
    ensures verdict { equal.new ≡ equal_after (compare_answer first.now second.now) equal.old }
    ensures input { about.new ≡ about_after (compare_answer first.now second.now) about.old }
    ensures value { carried.new ≡ carried_after (compare_answer first.now second.now) carried.old }
    ensures judged { RightlyJudged first.now second.now result equal.new }
{
    vulzhedor_same_bargains(first, second, equal, about, carried)
}

fn better_bargain_by_place(
    first: &[u8],
    second: &[u8],
    better: &mut u32,
    length: &mut u32,
    cost: &mut u64,
    about: &mut u32,
    carried: &mut u64,
) -> u32
    ensures status { result ≡ better_status (key_verdict first.now second.now) }
    ensures better { better.new ≡ better_after (key_verdict first.now second.now) better.old }
    ensures length { length.new ≡ length_after (key_verdict first.now second.now) length.old }
    ensures cost { cost.new ≡ cost_after (key_verdict first.now second.now) cost.old }
    ensures input { about.new ≡ refused_input_after (key_verdict first.now second.now) about.old }
    ensures value { carried.new
        ≡ refused_value_after (key_verdict first.now second.now) carried.old }
    ensures words { RightlyTold first.now second.now result better.new length.new cost.new }
{
    vulzhedor_better_bargain(first, second, better, length, cost, about, carried)
}
