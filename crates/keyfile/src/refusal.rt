// Why a file is not read.
ghost use Rattle.std.specs.Prelude.{◌≡◌};
ghost use Rattle.keyfile.specs.declared.refusal.FileRefusal.TheVariants.{Number};
ghost use Rattle.keyfile.specs.Refusal.{file_told, layer_of, IsNumberOf};

use numbers::NumberRefusal;
use refusals::Refusal;
use sheets::SheetRefusal;
use tariffs::CardRefusal;

// What a refusal comes from.
#[derive(Clone, Copy, PartialEq, Eq, Debug)]
pub enum Layer {
    Number,
    Card,
    Sheet,
    File,
}

#[derive(Clone, Copy, PartialEq, Eq, Debug)]
pub enum FileRefusal {
    Number(NumberRefusal),
    // a line that the card refused, with the place of its speed
    Card { refusal: CardRefusal, place: usize },
    // a stage or task that the sheet refused, with the place of its task count or work
    Sheet { refusal: SheetRefusal, place: usize },
    // bytes after the end, with the place of the first
    Extra(usize),
    // a question that there is not, with its place
    Question(usize),
}

impl From<NumberRefusal> for FileRefusal {
    ghost from_gives = { λ refusal r. r ≡ Number refusal };

    fn from(refusal: NumberRefusal) -> FileRefusal {
        FileRefusal::Number(refusal)
    }
}

impl FileRefusal {
    /// The layer that refused. Its number tells it too: refusals 1 to 3 are a sheet's, 4 and 5 a card's, 11 and 12 those of
    /// numbers, 13 and 14 the file's (docs/RULES.md, "Refusals").
    pub fn layer(&self) -> Layer
        ensures layer { result ≡ layer_of self.now }
        ensures by_number { IsNumberOf result (file_told self.now).number }
    {
        match self {
            FileRefusal::Number(_) => Layer::Number,
            FileRefusal::Card { .. } => Layer::Card,
            FileRefusal::Sheet { .. } => Layer::Sheet,
            FileRefusal::Extra(_) | FileRefusal::Question(_) => Layer::File,
        }
    }
}

impl Refusal for FileRefusal {
    ghost told = { file_told };

    fn number(&self) -> u8 {
        match self {
            FileRefusal::Number(refusal) => refusal.number(),
            FileRefusal::Card { refusal, .. } => refusal.number(),
            FileRefusal::Sheet { refusal, .. } => refusal.number(),
            FileRefusal::Extra(_) => 13,
            FileRefusal::Question(_) => 14,
        }
    }

    fn carried(&self) -> Option<usize> {
        match self {
            FileRefusal::Number(refusal) => refusal.carried(),
            FileRefusal::Card { place, .. } | FileRefusal::Sheet { place, .. } => Some(*place),
            FileRefusal::Extra(place) | FileRefusal::Question(place) => Some(*place),
        }
    }
}
