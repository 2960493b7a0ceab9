// The checks 11, 10 and 14, and then the job, section after section.
ghost use Rattle.std.specs.Prelude.{◌≡◌, ◌≤◌, length};
ghost use Rattle.rules.specs.Limits.{max_nodes};
ghost use Rattle.monitor.specs.Promises.{lent, places_in};
ghost use Rattle.monitor.specs.Follow.{Surveyed, StandsIn};
ghost use Rattle.writer.specs.Writes.{Counted, Whole, WholePut, WritesOver, WritesBack};

use super::nodes::put_nodes;
use super::put::put_trailer;
use super::variables::put_variables;
use monitor::{storable, survey};
use rules::limits::{
    BAD_AREA, BAD_BUFFERS, BAD_FOLLOW_ON, MAX_NODES, NODE_SIZE, TRAILER_SIZE, VARIABLE_SIZE,
};

// How many places have a mark: as many as the tree has nodes.
fn count(marks: &[u8], places: usize) -> usize
    requires { (places ≤ max_nodes) × (max_nodes ≤ length marks.now) }
    ensures { Counted places marks.now result }
{
    marks[..places].iter().filter(|mark| **mark != 0).count()
}

// The job's bytes, where there is room for them: variables, nodes, no script, and the trailer, which stands at `end`.
fn put_job(
    words: &[u32],
    places: usize,
    nodes: usize,
    levels: &[u8],
    values: &[i32],
    end: usize,
    area: &mut [u8],
)
    requires { Whole words.now places nodes levels.now values.now end (length area.old) }
    ensures { WholePut places (lent words.now levels.now values.now area.old) area.new }
{
    let base = VARIABLE_SIZE * levels.len();
    put_variables(levels, values, area);
    put_nodes(words, places, nodes, base, area);
    put_trailer(area, base, end);
}

// A tree and variables, written into an area: the job's length, or the number. `stands` says whether a tree stands in the table, the marks at which places.
// No words are needed for more than 512 places: nothing is written of them. What is lent comes one by one, as a caller in C has it.
pub fn write_places(
    places: usize,
    stands: bool,
    marks: &[u8],
    words: &[u32],
    levels: &[u8],
    values: &[i32],
    area: &mut [u8],
) -> Result<usize, u8>
    requires { (places ≤ max_nodes → Surveyed words.now places stands marks.now) × (max_nodes ≤ length marks.now) }
    ensures { WritesOver places stands (lent words.now levels.now values.now area.old) area.new result }
{
    if !storable(stands, levels, values.len()) {
        return Err(BAD_FOLLOW_ON);
    }
    if places > MAX_NODES {
        return Err(BAD_BUFFERS);
    }
    let nodes = count(marks, places);
    let end = VARIABLE_SIZE * levels.len() + NODE_SIZE * nodes;
    if area.len() < end + TRAILER_SIZE {
        return Err(BAD_AREA);
    }
    put_job(words, places, nodes, levels, values, end, area);
    Ok(end + TRAILER_SIZE)
}

// The same with a table of words alone.
pub fn write_words(
    words: &[u32],
    levels: &[u8],
    values: &[i32],
    area: &mut [u8],
) -> Result<usize, u8>
    ensures { WritesBack places_in StandsIn (lent words.now levels.now values.now area.old) area.new result }
{
    let places = words.len() / table::CELL;
    let mut marks = [0u8; MAX_NODES];
    let stands = survey(words, &mut marks);
    write_places(places, stands, &marks, words, levels, values, area)
}
