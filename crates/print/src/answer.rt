// The answer of a run: the paper's four numbers.
ghost use Rattle.std.specs.Prelude.{◌≡◌};
ghost use Rattle.monitor.specs.Promises.{answer_of};
ghost use Rattle.print.specs.Answers.{Says, ran};

use monitor::Outcome;

// Ending (0 for finished), record index, steps and line count.
#[derive(Clone, Copy)]
pub struct Answer {
    pub ending: u8,
    pub index: usize,
    pub steps: u32,
    pub lines: usize,
}

#[tactic(auto, unfolding(monitor::specs::Promises::answer_of))]
pub fn of(o: Outcome) -> Answer
    ensures { Says result.ending result.index result.steps result.lines (answer_of o) }
{
    match o {
        Outcome::Refused { number, index } => Answer {
            ending: number,
            index,
            steps: 0,
            lines: 0,
        },
        Outcome::Finished { steps, lines } => Answer {
            ending: 0,
            index: 0,
            steps,
            lines,
        },
        Outcome::Stopped {
            number,
            index,
            steps,
            lines,
        } => Answer {
            ending: number,
            index,
            steps,
            lines,
        },
    }
}

// Whether the job was run.
#[tactic(auto, unfolding(crate::specs::Answers::ran))]
pub fn was_run(o: Outcome) -> bool
    ensures { result ≡ ran o }
{
    !matches!(o, Outcome::Refused { .. })
}
