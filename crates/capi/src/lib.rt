// The C interface: calls on numbers and bytes. A slice is a pointer and a length, a `&mut` number a pointer. All calls but
// the charge return a status: 0, the number of a refusal, or 255 where there is no quote.
#![tactic(auto)]

mod answer;
mod bargains;
mod better;
mod by_place;
mod charge;
mod quote;
mod status;

pub use answer::vulzhedor_answer;
pub use bargains::vulzhedor_same_bargains;
pub use better::vulzhedor_better_bargain;
pub use charge::vulzhedor_charge;
pub use quote::vulzhedor_quote;
