// The rearranging itself, within the job's own bytes: the node records are copied out, and each is put where it comes to stand.
ghost use Rattle.std.specs.Prelude.{◌≡◌, ◌+◌, ◌*◌, ◌<◌, ◌≤◌, length};
ghost use Rattle.rules.specs.Limits.{node_size};
ghost use Rattle.rules.specs.Bytes.{nodes_at, node_count, node_place};
ghost use Rattle.rules.specs.Check.{accepted, parent, unordered, check_bytes_by};
ghost use Rattle.rules.specs.Arrange.{arranged, left_arranged};
ghost use Rattle.job.specs.Answer.{told};
ghost use Rattle.arranger.specs.Arranger.{Put, new_parent, Ready};

use crate::copies::copy;
use crate::places::places_of;
use crate::weights::weights_of;
use fields::nodes::parent_at;
use job::{Edition, Refusal, check_by};
use rules::limits::{MAX_NODES, NO_PARENT, NODE_SIZE};

// Puts the old record i at a place, with another parent.
fn put(job: &mut [u8], base: usize, old: &[u8], i: usize, at: usize, parent: usize)
    requires { (node_place base at + node_size ≤ length job.old) × (node_place 0 i + node_size ≤ length old.now) × (parent < 65536) }
    ensures { Put job.old base old.now i at parent job.new }
{
    let to = base + NODE_SIZE * at;
    let [low, high] = (parent as u16).to_le_bytes();
    job[to] = low;
    job[to + 1] = high;
    copy(job, to + 2, old, NODE_SIZE * i + 2, NODE_SIZE - 2);
}

// The new index of the parent of record i; of the root the number that stands for none in a record's bytes, so no option.
fn new_parent(old: &[u8], own: &[usize], i: usize) -> usize
    requires { (node_place 0 i + node_size ≤ length old.now) × ((i ≡ 0 → ⊥) → parent old.now 0 i < length own.now) }
    ensures { result ≡ new_parent old.now own.now i }
{
    if i == 0 {
        return NO_PARENT;
    }
    let p = parent_at(old, 0, i);
    own[p]
}

// Puts them all.
fn put_all(job: &mut [u8], base: usize, count: usize, old: &[u8], own: &[usize])
    requires { Ready job.old base count old.now own.now }
    ensures { job.new ≡ arranged job.old }
{
    for i in 0..count {
        let parent = new_parent(old, own, i);
        put(job, base, old, i, own[i], parent);
    }
}

// Rearranges an accepted job.
fn arrange_nodes(job: &mut [u8], base: usize, count: usize)
    requires { (check_bytes_by unordered job.old ≡ accepted) × (base ≡ nodes_at job.old) × (count ≡ node_count job.old) }
    ensures { job.new ≡ arranged job.old }
{
    let weights = weights_of(job, base, count);
    let own = places_of(job, base, count, &weights);
    let mut old = [0u8; MAX_NODES * NODE_SIZE];
    copy(&mut old, 0, job, base, NODE_SIZE * count);
    put_all(job, base, count, &old, &own);
}

// Rearranges a job that was accepted so far; one that was turned back stays as it is.
pub fn arrange(job: &mut [u8]) -> Result<(), Refusal>
    ensures value { result ≡ told (check_bytes_by unordered job.old) }
    ensures job_after { job.new ≡ left_arranged job.old }
{
    let l = check_by(job, Edition::Unordered)?;
    arrange_nodes(job, l.tree, l.nodes);
    Ok(())
}
