// Questions read from a file.
ghost use Rattle.std.specs.Prelude.{◌≡◌};
ghost use Rattle.refusals.specs.Answer.{answer_of};
ghost use Rattle.numbers.specs.Input.{value_of, left_by};
ghost use Rattle.numbers.specs.Reader.{input_of};
ghost use Rattle.keyfile.specs.Refusal.{file_told};
ghost use Rattle.keyinput.specs.Question.{question_in};

use keyfile::FileRefusal;
use numbers::Reader;

// The front, or a plan under a greatest cost in cents or a greatest length in minutes.
#[derive(Clone, Copy, PartialEq, Eq, Debug)]
pub enum Question {
    Front,
    Budget(u32),
    Deadline(u32),
}

// Reads a question: 0, or 1 or 2 and the limit.
pub fn read_question(reader: &mut Reader) -> Result<Question, FileRefusal>
    ensures answer { answer_of file_told result ≡ value_of (question_in (input_of reader.old)) }
    ensures after { input_of reader.new ≡ left_by (question_in (input_of reader.old)) (input_of reader.old) }
{
    let mut ahead = *reader;
    let question = match ahead.number()? {
        0 => Question::Front,
        1 => Question::Budget(ahead.number()?),
        2 => Question::Deadline(ahead.number()?),
        _ => return Err(FileRefusal::Question(reader.place())),
    };
    *reader = ahead;
    Ok(question)
}
