// Two inputs compared, for C.
ghost use Rattle.std.specs.Prelude.{◌≡◌};
ghost use Rattle.keyanswer.specs.Compare.{compare_answer};
ghost use Rattle.keyanswer.specs.Refusal.{which_input};
ghost use Rattle.capi.specs.Bargains.{verdict_status, equal_after, about_after, carried_after, told_value, RightlyJudged};

use crate::status::DONE;
use keyanswer::{CompareRefusal, compare_batches};
use refusals::Refusal;

// The input that a refusal is about: 1, 2, or 0 for both.
pub(crate) fn input_about(refusal: CompareRefusal) -> u32
    ensures { result ≡ which_input refusal }
{
    match refusal {
        CompareRefusal::First(_) => 1,
        CompareRefusal::Second(_) => 2,
        CompareRefusal::Memory(_) => 0,
    }
}

// The value that a refusal carries, or the greatest number where it carries none.
pub(crate) fn value_told(carried: Option<usize>) -> u64
    ensures { result ≡ told_value carried }
{
    carried.map_or(u64::MAX, |value| value as u64)
}

// Writes whether two inputs offer the same bargains; or the input that is refused and the value that the refusal carries.
#[unsafe(no_mangle)]
pub extern "C" fn vulzhedor_same_bargains(
    first: &[u8],
    second: &[u8],
    equal: &mut u32,
    about: &mut u32,
    carried: &mut u64,
) -> u32
    ensures status { result ≡ verdict_status (compare_answer first.now second.now) }
    ensures verdict { equal.new ≡ equal_after (compare_answer first.now second.now) equal.old }
    ensures input { about.new ≡ about_after (compare_answer first.now second.now) about.old }
    ensures value { carried.new ≡ carried_after (compare_answer first.now second.now) carried.old }
    ensures judged { RightlyJudged first.now second.now result equal.new }
{
    match compare_batches(first, second) {
        Ok(same) => {
            *equal = u32::from(same);
            DONE
        }
        Err(refusal) => {
            *about = input_about(refusal);
            *carried = value_told(refusal.carried());
            u32::from(refusal.number())
        }
    }
}
