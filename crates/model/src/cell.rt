// Cells.
ghost use Rattle.std.specs.Prelude.{◌≡◌};
ghost use Rattle.model.specs.Cell.{cell_of, cost_in};

use costs::Cost;

// A least cost, or the neutral cost where none was reached.
#[derive(Clone, Copy, Drop, PartialEq, Eq, Debug)]
pub struct Cell<C> {
    pub reached: bool,
    pub cost: C,
}

impl<C: Cost> Cell<C> {
    // The cell of a least cost, or of none.
    pub fn of(cost: Option<C>) -> Cell<C>
        ensures { result ≡ cell_of C.Cost.kind cost }
    {
        match cost {
            Some(cost) => Cell {
                reached: true,
                cost,
            },
            None => Cell {
                reached: false,
                cost: C::neutral(),
            },
        }
    }

    // The least cost, if one was reached.
    pub fn least(self) -> Option<C>
        ensures { result ≡ cost_in self }
    {
        self.reached.then_some(self.cost)
    }
}
