// Memory that is lent to the planner, and what stands in it before and afterwards.
use crate::answers::{Answers, PlainCell};
use crate::kind::MOST_CENTS;
use crate::pair::Pair;
use costs::{Cents, Grade};
use model::{Cell, Point};
use std::alloc::{AllocError, Global};
use trials::Amount;

// What memory holds that was used for something else: a cost that hardly any answer has, the length and the machine of none.
const FORMER_COST: u64 = MOST_CENTS - 1;

const FORMER_LENGTH: u32 = u32::MAX;

const FORMER_BYTE: u8 = 77;

// How many cells, points and bytes are lent.
#[derive(Clone, Copy, Drop, Debug)]
pub(crate) struct Sizes {
    pub(crate) cells: usize,
    pub(crate) points: usize,
    // The points of the second sheet, where two are compared.
    pub(crate) second_points: usize,
    pub(crate) plan: usize,
}

impl Sizes {
    // Just enough for the questions about a sheet.
    pub(crate) fn exactly(answers: &Answers) -> Sizes {
        Sizes {
            cells: answers.cells.len(),
            points: answers.front.len(),
            second_points: 0,
            plan: answers.batch.numbers,
        }
    }
}

// What a question gets, and whether it is filled anew before each question or keeps what the one before has left.
#[derive(Drop)]
pub(crate) struct Memory<C> {
    pub(crate) cells: Vec<Cell<C>>,
    pub(crate) points: Vec<Point<C>>,
    pub(crate) second_points: Vec<Point<C>>,
    pub(crate) plan: Vec<u8>,
    is_kept: bool,
    // Whether the flags of former cells are set. It changes from question to question.
    reached: bool,
}

// Cells, points and bytes as plain values.
#[derive(Drop, Debug)]
pub(crate) struct Contents {
    pub(crate) cells: Vec<PlainCell>,
    pub(crate) points: Vec<Pair>,
    pub(crate) second_points: Vec<Pair>,
    pub(crate) plan: Vec<u8>,
}

// What a question writes at the start of each memory.
#[derive(Clone, Copy)]
pub(crate) struct Written<'a> {
    pub(crate) cells: &'a [PlainCell],
    pub(crate) points: &'a [Pair],
    pub(crate) second_points: &'a [Pair],
    pub(crate) plan: &'a [u8],
}

pub(crate) fn pair_of<C: Amount>(point: Point<C>) -> Pair {
    Pair {
        length: point.length,
        cost: point.cost.amount(),
    }
}

fn plain<C: Amount>(cell: Cell<C>) -> PlainCell {
    PlainCell {
        reached: cell.reached,
        cost: cell.cost.amount(),
    }
}

// Makes so many values of the memory, those that are new the former one.
fn resized<V: Copy>(values: &mut Vec<V>, count: usize, former: V) -> Result<(), AllocError> {
    values.truncate(count);
    for _ in values.len()..count {
        values.push(former)?;
    }
    Ok(())
}

// Whether memory begins with what is written, and then holds what it held.
pub(crate) fn begins<V: Copy + PartialEq + Drop>(now: &[V], before: &[V], written: &[V]) -> bool {
    now.len() == before.len()
        && now.iter().enumerate().all(|(place, value)| written.get(place).or(before.get(place))
            == Some(value))
}

impl<C: Amount> Memory<C> {
    pub(crate) fn new(heap: Global, is_kept: bool) -> Memory<C> {
        Memory {
            cells: Vec::new(heap),
            points: Vec::new(heap),
            second_points: Vec::new(heap),
            plan: Vec::new(heap),
            is_kept,
            reached: false,
        }
    }

    // Lends memory of these sizes, and tells what it holds.
    pub(crate) fn lend(&mut self, heap: Global, sizes: Sizes) -> Result<Contents, AllocError> {
        if !self.is_kept {
            self.cells.clear();
            self.points.clear();
            self.second_points.clear();
            self.plan.clear();
        }
        self.reached = !self.reached;
        let cost = C::of(FORMER_COST);
        let cell = Cell {
            reached: self.reached,
            cost,
        };
        let point = Point {
            length: FORMER_LENGTH,
            cost,
        };
        resized(&mut self.cells, sizes.cells, cell)?;
        resized(&mut self.points, sizes.points, point)?;
        resized(&mut self.second_points, sizes.second_points, point)?;
        resized(&mut self.plan, sizes.plan, FORMER_BYTE)?;
        self.contents(heap)
    }

    fn contents(&self, heap: Global) -> Result<Contents, AllocError> {
        Ok(Contents {
            cells: self.cells.iter().map(|cell| plain(*cell)).collect(heap)?,
            points: self
                .points
                .iter()
                .map(|point| pair_of(*point))
                .collect(heap)?,
            second_points: self
                .second_points
                .iter()
                .map(|point| pair_of(*point))
                .collect(heap)?,
            plan: self.plan.to_vec(heap)?,
        })
    }

    // Whether each memory begins with what is written to it, and then holds what it held.
    pub(crate) fn holds(
        &self,
        heap: Global,
        before: &Contents,
        written: &Written,
    ) -> Result<bool, AllocError> {
        let now = self.contents(heap)?;
        Ok(
            begins(&now.cells, &before.cells, written.cells)
                && begins(&now.points, &before.points, written.points)
                && begins(
                    &now.second_points,
                    &before.second_points,
                    written.second_points,
                )
                && begins(&now.plan, &before.plan, written.plan),
        )
    }
}

// Memory of one of the two ways: for both cost kinds, and for texts and files.
#[derive(Drop)]
pub(crate) struct Memories {
    pub(crate) cents: Memory<Cents>,
    pub(crate) grades: Memory<Grade>,
    pub(crate) bytes: Vec<u8>,
    is_kept: bool,
}

impl Memories {
    pub(crate) fn new(heap: Global, is_kept: bool) -> Memories {
        Memories {
            cents: Memory::new(heap, is_kept),
            grades: Memory::new(heap, is_kept),
            bytes: Vec::new(heap),
            is_kept,
        }
    }

    // Lends so many bytes for a text or a file, and tells what they hold.
    pub(crate) fn lend_bytes(&mut self, heap: Global, count: usize) -> Result<Vec<u8>, AllocError> {
        if !self.is_kept {
            self.bytes.clear();
        }
        resized(&mut self.bytes, count, FORMER_BYTE)?;
        self.bytes.to_vec(heap)
    }
}
