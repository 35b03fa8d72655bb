// A plain reader of sheet files and inputs.
use crate::book::Book;
use crate::limit::Limit;
use crate::prices::{Prices, Terms, line_answer};
use crate::told::Told;
use sheets::Call;
use std::alloc::{AllocError, Global};

// The question of an input.
#[derive(Clone, Copy, Drop, PartialEq, Eq, Debug)]
pub(crate) enum KeyQuestion {
    Front,
    Within(Limit),
}

// A card and a sheet that were read.
#[derive(Drop)]
pub(crate) struct ReadBatch {
    pub(crate) prices: Prices,
    pub(crate) book: Book,
}

// Why reading ends early.
#[derive(Clone, Copy, Drop)]
enum Stop {
    Refused(Told),
    NoMemory(AllocError),
}

impl From<Told> for Stop {
    fn from(told: Told) -> Stop {
        Stop::Refused(told)
    }
}

impl From<AllocError> for Stop {
    fn from(error: AllocError) -> Stop {
        Stop::NoMemory(error)
    }
}

// What is read or refused, where memory sufficed.
fn told<T: Drop>(read: Result<T, Stop>) -> Result<Result<T, Told>, AllocError> {
    match read {
        Ok(value) => Ok(Ok(value)),
        Err(Stop::Refused(told)) => Ok(Err(told)),
        Err(Stop::NoMemory(error)) => Err(error),
    }
}

#[derive(Clone, Copy, Drop)]
struct Reader<'a> {
    bytes: &'a [u8],
    place: usize,
}

impl<'a> Reader<'a> {
    fn new(bytes: &'a [u8]) -> Reader<'a> {
        Reader { bytes, place: 0 }
    }

    fn byte(&mut self) -> Option<u8> {
        let byte = self.bytes.get(self.place).copied()?;
        self.place = self.place.saturating_add(1);
        Some(byte)
    }

    fn number(&mut self) -> Result<u32, Told> {
        let start = self.place;
        let mut value = 0;
        for group in 0u32..5 {
            let byte = self.byte().ok_or(Told::carrying(11, start))?;
            let is_too_great = group == 4 && byte > 0x0F;
            let is_longer = group > 0 && byte == 0;
            if is_too_great || is_longer {
                break;
            }
            value |= u32::from(byte & 0x7F) << (7 * group);
            if byte < 0x80 {
                return Ok(value);
            }
        }
        Err(Told::carrying(12, start))
    }

    fn card(&mut self, heap: Global) -> Result<Vec<Terms>, Stop> {
        let mut lines = Vec::new(heap);
        for _ in 0..self.number()? {
            let place = self.place;
            let speed = self.number()?;
            let rate = self.number()?;
            let line = Terms { speed, rate };
            if let Err(told) = line_answer(&lines, line) {
                return Err(Stop::Refused(Told::carrying(told.number, place)));
            }
            lines.push(line).map_err(AllocError::from)?;
        }
        Ok(lines)
    }

    // Carries out a call of the sheet, which was read at this place.
    fn call(book: &mut Book, call: Call, place: usize) -> Result<(), Stop> {
        match book.call(call)? {
            Ok(_) => Ok(()),
            Err(told) => Err(Stop::Refused(Told::carrying(told.number, place))),
        }
    }

    fn stage(&mut self, book: &mut Book) -> Result<(), Stop> {
        let place = self.place;
        let count = self.number()?;
        let stage = book.stages;
        Self::call(book, Call::Stage, place)?;
        for _ in 0..count {
            let place = self.place;
            let work = self.number()?;
            Self::call(book, Call::Task { stage, work }, place)?;
        }
        Ok(())
    }

    fn sheet(&mut self, heap: Global) -> Result<Book, Stop> {
        let mut book = Book::opened(heap);
        for _ in 0..self.number()? {
            self.stage(&mut book)?;
        }
        Ok(book)
    }

    fn batch(&mut self, heap: Global) -> Result<ReadBatch, Stop> {
        let lines = self.card(heap)?;
        let book = self.sheet(heap)?;
        Ok(ReadBatch {
            prices: Prices::Card(lines),
            book,
        })
    }

    fn question(&mut self) -> Result<KeyQuestion, Told> {
        let place = self.place;
        match self.number()? {
            0 => Ok(KeyQuestion::Front),
            1 => {
                let cost = u64::from(self.number()?);
                Ok(KeyQuestion::Within(Limit::Budget(cost)))
            }
            2 => Ok(KeyQuestion::Within(Limit::Deadline(self.number()?))),
            _ => Err(Told::carrying(14, place)),
        }
    }

    fn end(&self) -> Result<(), Told> {
        if self.place < self.bytes.len() {
            Err(Told::carrying(13, self.place))
        } else {
            Ok(())
        }
    }

    fn whole_sheet(&mut self, heap: Global) -> Result<Book, Stop> {
        let book = self.sheet(heap)?;
        self.end()?;
        Ok(book)
    }

    fn whole_batch(&mut self, heap: Global) -> Result<ReadBatch, Stop> {
        let batch = self.batch(heap)?;
        self.end()?;
        Ok(batch)
    }

    fn whole_key(&mut self, heap: Global) -> Result<(ReadBatch, KeyQuestion), Stop> {
        let batch = self.batch(heap)?;
        let question = self.question()?;
        self.end()?;
        Ok((batch, question))
    }
}

// The sheet of a file, or its refusal.
pub(crate) fn read_file(heap: Global, bytes: &[u8]) -> Result<Result<Book, Told>, AllocError> {
    told(Reader::new(bytes).whole_sheet(heap))
}

// The card and the sheet of an input without a question, or its refusal.
pub(crate) fn read_offer(
    heap: Global,
    bytes: &[u8],
) -> Result<Result<ReadBatch, Told>, AllocError> {
    told(Reader::new(bytes).whole_batch(heap))
}

// The card, the sheet and the question of an input, or its refusal.
pub(crate) fn read_key(
    heap: Global,
    bytes: &[u8],
) -> Result<Result<(ReadBatch, KeyQuestion), Told>, AllocError> {
    told(Reader::new(bytes).whole_key(heap))
}
