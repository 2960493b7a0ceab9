// A follow-on script over a tree and variables that stay between scripts: 11, 7, 8, 9 and 10 are checked, and then the script is run from the root.
ghost use Rattle.std.specs.Prelude.{◌≤◌, length};
ghost use Rattle.rules.specs.Limits.{max_nodes};
ghost use Rattle.table.specs.Cells.{cells};
ghost use Rattle.table.specs.Promises.{Behind};
ghost use Rattle.monitor.specs.Promises.{lent, places_in, Tree};
ghost use Rattle.monitor.specs.Follow.{Storable, Admits, Surveyed, Follows, FollowsOver, linkable, StandsIn};

use super::entry::{Outcome, budget_ok};
use super::start::from_root;
use interpreter::Frame;
use job::plan::WORDS;
use job::{Refusal, prepare_section};
use lent::standing;
use rules::levels::is_level;
use rules::limits::{
    BAD_BUDGET, BAD_BUFFERS, BAD_FOLLOW_ON, MAX_NODES, MAX_VARIABLES, RECORD_SIZE,
};

// Whether variables and a table, in which a tree stands or not, are such as an accepted job could hold.
pub fn storable(stands: bool, levels: &[u8], values: usize) -> bool
    ensures { Storable stands levels.now values result }
{
    stands
        && levels.len() == values
        && levels.len() <= MAX_VARIABLES
        && levels.iter().all(|level| is_level(*level))
}

// The checks of a script over such: 11 of the section, 7, 8, 9 and 10; and the script's plan.
fn admit(
    section: &[u8],
    budget: u64,
    places: usize,
    variables: usize,
    plan: &mut [u32; WORDS],
) -> Result<(), Refusal>
    ensures { Admits section.now budget places variables plan.old plan.new result }
{
    prepare_section(section, variables, plan)?;
    if !budget_ok(budget) {
        return Err(Refusal {
            number: BAD_BUDGET,
            index: 0,
        });
    }
    if places > MAX_NODES {
        return Err(Refusal {
            number: BAD_BUFFERS,
            index: 0,
        });
    }
    Ok(())
}

// The run over a bare section, with a budget and what the caller lends, which a tree and variables stand in: a node table of some places, ten words
// to each, the variables' levels and values, and an area for board lines of five bytes each. `stands` says whether a tree stands in the table, the marks
// at which places. No words are needed for more than 512 places: no script is run over them.
pub fn follow_places(
    section: &[u8],
    budget: u64,
    places: usize,
    stands: bool,
    marks: &[u8],
    words: &mut [u32],
    levels: &[u8],
    values: &mut [i32],
    lines: &mut [u8],
) -> Outcome
    requires { (places ≤ max_nodes → Surveyed words.old places stands marks.now) × (max_nodes ≤ length marks.now) }
    ensures { FollowsOver section.now budget places stands
        (lent words.old levels.now values.old lines.old)
        (lent words.new levels.now values.new lines.new) result }
{
    if !storable(stands, levels, values.len()) {
        return Outcome::Refused {
            number: BAD_FOLLOW_ON,
            index: 0,
        };
    }
    let mut plan = [0u32; WORDS];
    match admit(section, budget, places, levels.len(), &mut plan) {
        Err(Refusal { number, index }) => Outcome::Refused { number, index },
        Ok(()) => {
            let free = standing::reclaim(words, places, marks);
            let f = Frame {
                script: 0,
                records: section.len() / RECORD_SIZE,
                vars: levels.len(),
                places,
            };
            from_root(
                section,
                &plan,
                f,
                budget as usize,
                places,
                free,
                words,
                levels,
                values,
                lines,
            )
        }
    }
}

// Whether a tree stands in a table of words, and at which places: it has as many as there are tens of words, of which links lead to no more than 65,535.
// The marks are lent, to be filled in place: they stand beside the answer, and count where it is true.
pub fn survey(words: &[u32], marks: &mut [u8]) -> bool
    requires { max_nodes ≤ length marks.old }
    ensures { Surveyed words.now (linkable words.now) result marks.new }
{
    let n = (words.len() / table::CELL).min(table::NIL);
    let mut dues = [0u32; MAX_NODES];
    let mut bounds = [0u8; MAX_NODES];
    standing::held(words, n, &mut dues, &mut bounds, marks)
}

// The same with a table of words alone.
pub fn follow_words(
    section: &[u8],
    budget: u64,
    words: &mut [u32],
    levels: &[u8],
    values: &mut [i32],
    lines: &mut [u8],
) -> Outcome
    ensures { Follows places_in Tree StandsIn section.now budget
        (lent words.old levels.now values.old lines.old)
        (lent words.new levels.now values.new lines.new) result
        × Behind (places_in words.old) (cells words.old) (cells words.new) }
{
    let places = words.len() / table::CELL;
    let mut marks = [0u8; MAX_NODES];
    let stands = survey(words, &mut marks);
    follow_places(
        section, budget, places, stands, &marks, words, levels, values, lines,
    )
}
