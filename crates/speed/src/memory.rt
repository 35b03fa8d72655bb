// The memory that a case needs.
use cells::{MinutesTable, TimedSheet, span};
use costs::Cost;
use model::{Cell, Point, PricedSheet};
use sheets::MAX_TASKS;
use std::alloc::{AllocError, Global};
use tariffs::Tariff;

// Cells and points enough for the sheet under the tariff, and a plan for every sheet. All runs use them again.
#[derive(Drop)]
pub(crate) struct Memory<C> {
    pub(crate) cells: Vec<Cell<C>>,
    pub(crate) points: Vec<Point<C>>,
    pub(crate) plan: [u8; MAX_TASKS],
}

impl<C: Cost> Memory<C> {
    pub(crate) fn enough<T: Tariff<Cost = C>>(
        heap: Global,
        priced: &PricedSheet<T>,
    ) -> Result<Memory<C>, AllocError> {
        let mut table = MinutesTable::new();
        let timed = TimedSheet::of_standing(priced, &mut table);
        let width = span(&timed) as usize + 1;
        let size = (priced.sheet.stage_count() + 1) * width;
        let point = Point {
            length: 0,
            cost: C::neutral(),
        };
        Ok(Memory {
            cells: vec![in heap; Cell::of(None); size]?,
            points: vec![in heap; point; width]?,
            plan: [0; MAX_TASKS],
        })
    }
}
