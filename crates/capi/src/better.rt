// The better bargain of two inputs, for C.
ghost use Rattle.std.specs.Prelude.{◌≡◌};
ghost use Rattle.keyanswer.specs.Better.{key_verdict};
ghost use Rattle.capi.specs.Better.{
  better_status,
  better_after,
  length_after,
  cost_after,
  refused_input_after,
  refused_value_after,
  which_better,
  length_told,
  cost_told,
  RightlyTold,
};

use crate::bargains::{input_about, value_told};
use crate::status::DONE;
use costs::Cents;
use keyanswer::better_of_batches;
use model::Better;
use refusals::Refusal;

// Writes the input that has the better bargain and its pair; or 0, and leaves length and cost as they are.
fn tell(verdict: Option<Better<Cents>>, better: &mut u32, length: &mut u32, cost: &mut u64)
    ensures better { better.new ≡ which_better verdict }
    ensures length { length.new ≡ length_told verdict length.old }
    ensures cost { cost.new ≡ cost_told verdict cost.old }
{
    match verdict {
        None => *better = 0,
        Some(Better::First(pair)) => {
            *better = 1;
            *length = pair.length;
            *cost = pair.cost.amount();
        }
        Some(Better::Second(pair)) => {
            *better = 2;
            *length = pair.length;
            *cost = pair.cost.amount();
        }
    }
}

/// Writes which of two inputs has the better bargain, with its length and cost; or the input that is refused and the value
/// that the refusal carries (docs/RULES.md, "Calls for C").
#[unsafe(no_mangle)]
pub extern "C" fn vulzhedor_better_bargain(
    first: &[u8],
    second: &[u8],
    better: &mut u32,
    length: &mut u32,
    cost: &mut u64,
    about: &mut u32,
    carried: &mut u64,
) -> u32
    ensures status { result ≡ better_status (key_verdict first.now second.now) }
    ensures better { better.new ≡ better_after (key_verdict first.now second.now) better.old }
    ensures length { length.new ≡ length_after (key_verdict first.now second.now) length.old }
    ensures cost { cost.new ≡ cost_after (key_verdict first.now second.now) cost.old }
    ensures input { about.new ≡ refused_input_after (key_verdict first.now second.now) about.old }
    ensures value { carried.new
        ≡ refused_value_after (key_verdict first.now second.now) carried.old }
    ensures words { RightlyTold first.now second.now result better.new length.new cost.new }
{
    match better_of_batches(first, second) {
        Ok(verdict) => {
            tell(verdict, better, length, cost);
            DONE
        }
        Err(refusal) => {
            *about = input_about(refusal);
            *carried = value_told(refusal.carried());
            u32::from(refusal.number())
        }
    }
}
