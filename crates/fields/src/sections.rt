// The sections of a job, as its trailer points back to them: the checks 1 to 3.
ghost use Rattle.std.specs.Prelude.{◌≡◌, ◌<◌, ◌≤◌, length};
ghost use Rattle.rules.specs.Limits.{trailer_size};
ghost use Rattle.rules.specs.Check.{length_rule, whole, offset_rule, count_rule};
ghost use Rattle.fields.specs.Layout.{offsets_of, layout_of, Ordered};

use crate::reads::half_at;
use rules::limits::{
    MAX_BYTES, MAX_NODES, MAX_RECORDS, MAX_VARIABLES, NODE_SIZE, RECORD_SIZE, TRAILER_SIZE,
    VARIABLE_SIZE,
};

// The number of variables, where the nodes start and how many there are, where the script starts and how many records it has.
#[derive(Clone, Copy, PartialEq, Eq, Debug)]
pub struct Layout {
    pub variables: usize,
    pub tree: usize,
    pub nodes: usize,
    pub script: usize,
    pub records: usize,
}

// Check 1.
pub fn length_ok(n: usize) -> bool
    ensures { result ≡ length_rule n }
{
    (TRAILER_SIZE <= n) & (n <= MAX_BYTES)
}

fn is_whole(size: usize, from: usize, to: usize) -> bool
    requires { 0 < size }
    ensures { result ≡ whole size from to }
{
    from <= to && (to - from) % size == 0
}

// The four offsets of the trailer.
#[derive(Clone, Copy, PartialEq, Eq, Debug)]
pub struct Offsets {
    pub variables: usize,
    pub nodes: usize,
    pub script: usize,
    pub trailer: usize,
}

fn offsets_at(job: &[u8]) -> Offsets
    requires { trailer_size ≤ length job.now }
    ensures { result ≡ offsets_of job.now }
{
    let at = job.len() - TRAILER_SIZE;
    Offsets {
        variables: half_at(job, at),
        nodes: half_at(job, at + 2),
        script: half_at(job, at + 4),
        trailer: half_at(job, at + 6),
    }
}

// Check 2.
pub fn offsets_ok(job: &[u8]) -> bool
    requires { trailer_size ≤ length job.now }
    ensures { result ≡ offset_rule job.now }
{
    let o = offsets_at(job);
    (o.variables == 0)
        & (o.trailer == job.len() - TRAILER_SIZE)
        & is_whole(VARIABLE_SIZE, 0, o.nodes)
        & is_whole(NODE_SIZE, o.nodes, o.script)
        & is_whole(RECORD_SIZE, o.script, o.trailer)
}

// The layout that the trailer gives.
pub fn layout_of(job: &[u8]) -> Layout
    requires { Ordered job.now }
    ensures { result ≡ layout_of job.now }
{
    let o = offsets_at(job);
    Layout {
        variables: o.nodes / VARIABLE_SIZE,
        tree: o.nodes,
        nodes: (o.script - o.nodes) / NODE_SIZE,
        script: o.script,
        records: (o.trailer - o.script) / RECORD_SIZE,
    }
}

// Check 3.
pub fn counts_ok(l: Layout) -> bool
    ensures { result ≡ count_rule l.variables l.nodes l.records }
{
    (l.variables <= MAX_VARIABLES)
        & (1 <= l.nodes)
        & (l.nodes <= MAX_NODES)
        & (l.records <= MAX_RECORDS)
}
