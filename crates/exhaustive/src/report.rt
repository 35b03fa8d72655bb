// What was compared.
use crate::told::Told;

// What is asked of the planner and of what it stands on.
#[derive(Clone, Copy, Drop, PartialEq, Eq, Debug)]
pub(crate) enum Question {
    Call,
    Line,
    Rows,
    Quotes,
    Front,
    Budget,
    Deadline,
    Bargains,
    Better,
    Written,
    Read,
    Key,
    Inputs,
    Printed,
}

const QUESTIONS: [Question; 14] = [
    Question::Call,
    Question::Line,
    Question::Rows,
    Question::Quotes,
    Question::Front,
    Question::Budget,
    Question::Deadline,
    Question::Bargains,
    Question::Better,
    Question::Written,
    Question::Read,
    Question::Key,
    Question::Inputs,
    Question::Printed,
];

// The greatest number of a refusal.
const REFUSALS: usize = 14;

// What a question came to.
#[derive(Clone, Copy, Drop)]
pub(crate) struct Outcome {
    // Whether the planner did what the rules say.
    pub(crate) same: bool,
    pub(crate) refused: Option<Told>,
}

#[derive(Clone, Copy)]
pub(crate) struct Report<'a> {
    pub(crate) rt: &'a HostRuntime,
    pub(crate) sheets: u64,
    pub(crate) differences: u64,
    // How many comparisons found the same bargains.
    agreed: u64,
    // How many inputs had too many assignments to try them.
    pub(crate) left_out: u64,
    asked: [u64; QUESTIONS.len()],
    refused: [u64; REFUSALS],
}

impl Question {
    fn name(self) -> &'static str {
        match self {
            Question::Call => "calls of a sheet",
            Question::Line => "lines of a card",
            Question::Rows => "checks of rows",
            Question::Quotes => "works quoted by every machine",
            Question::Front => "fronts",
            Question::Budget => "budgets",
            Question::Deadline => "deadlines",
            Question::Bargains => "comparisons of two sheets",
            Question::Better => "better bargains of two sheets",
            Question::Written => "sheets written to a file",
            Question::Read => "files of a sheet read",
            Question::Key => "inputs answered",
            Question::Inputs => "comparisons of two inputs",
            Question::Printed => "printed answers",
        }
    }
}

fn add_one(counts: &mut [u64], place: usize) {
    if let Some(count) = counts.get_mut(place) {
        *count = count.saturating_add(1);
    }
}

impl<'a> Report<'a> {
    pub(crate) fn begun(rt: &'a HostRuntime) -> Report<'a> {
        Report {
            rt,
            sheets: 0,
            differences: 0,
            agreed: 0,
            left_out: 0,
            asked: [0; QUESTIONS.len()],
            refused: [0; REFUSALS],
        }
    }

    // Counts a question, and prints it if the planner did otherwise than the rules say.
    pub(crate) fn note(&mut self, question: Question, outcome: Outcome) -> anyhow::Result<()> {
        add_one(&mut self.asked, question as usize);
        if let Some(told) = outcome.refused {
            add_one(
                &mut self.refused,
                usize::from(told.number).saturating_sub(1),
            );
        }
        if !outcome.same {
            self.differences = self.differences.saturating_add(1);
            let rt = self.rt;
            let sheet = self.sheets;
            let name = question.name();
            println!(rt; "sheet {sheet} differs: {name}")?;
        }
        Ok(())
    }

    // The same for a comparison, with its verdict.
    pub(crate) fn note_verdict(
        &mut self,
        question: Question,
        wanted: Result<bool, Told>,
        same: bool,
    ) -> anyhow::Result<()> {
        if wanted == Ok(true) {
            self.agreed = self.agreed.saturating_add(1);
        }
        let refused = wanted.err();
        self.note(question, Outcome { same, refused })
    }

    // Counts a printed answer, and whether the search through all assignments comes to it.
    pub(crate) fn note_printed(&mut self, same: bool) -> anyhow::Result<()> {
        let refused = None;
        self.note(Question::Printed, Outcome { same, refused })
    }

    fn questions(&self) -> u64 {
        self.asked
            .iter()
            .fold(0, |sum: u64, count| sum.saturating_add(*count))
    }

    pub(crate) fn print(&self) -> anyhow::Result<()> {
        let rt = self.rt;
        for (question, count) in QUESTIONS.iter().zip(&self.asked) {
            let name = question.name();
            println!(rt; "{name}: {count}")?;
        }
        let agreed = self.agreed;
        println!(rt; "comparisons that found the same bargains: {agreed}")?;
        let left_out = self.left_out;
        println!(rt; "inputs left out, with too many assignments: {left_out}")?;
        for (place, count) in self.refused.iter().enumerate() {
            let number = place.saturating_add(1);
            println!(rt; "refused with {number}: {count}")?;
        }
        let sheets = self.sheets;
        let questions = self.questions();
        let differences = self.differences;
        println!(rt; "{sheets} sheets, {questions} questions, {differences} differences")?;
        Ok(())
    }
}
