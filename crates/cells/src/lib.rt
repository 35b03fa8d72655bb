// Stage costs, and the filling of working cells in memory of the caller, for every cost kind and every tariff.
#![tactic(auto)]

mod choices;
mod filling;
mod layout;
mod memory;
mod plain;
mod quotes;
mod refusal;
mod spans;
mod stages;
mod timed;
mod times;

pub use choices::cheapest;
pub use filling::{check_cells, fill};
pub use layout::Layout;
pub use memory::CellRows;
pub use quotes::quote_of;
pub use refusal::TooFewCells;
pub use spans::span;
pub use stages::stage_cost;
pub use timed::{MinutesTable, TimedSheet};
pub use times::{TIMES, quoted_times};
