// The checks of a job's bytes: 1 to 8 in order of number, with 13 between 5 and 6 and 12 between 7 and 8. An accepted job takes a pass for 4 with 12, for 5, for 13 with 6 and
// 12, for 7 with 12, and for 8; where a pass finds a record that fails, its checks are made one by one.
ghost use Rattle.std.specs.Prelude.{◌≡◌, ◌≤◌, ◌<◌, length};
ghost use Rattle.rules.specs.Limits.{command_count, max_records, bad_variable, bad_node, bad_record};
ghost use Rattle.rules.specs.Bytes.{record_place};
ghost use Rattle.rules.specs.Check.{variable_rule_in, order_rule, node_rule_in, variable_clean, node_clean, record_clean, today, check_bytes_by, check_bytes};
ghost use Rattle.fields.specs.Layout.{layout_of, Inside};
ghost use Rattle.fields.specs.Siblings.{Linked};
ghost use Rattle.job.specs.Answer.{answer, edition_of, highest_of, record_rules, asked, found, scan_of, scanned, unclean_of, Fitted, Fronted, from_blocks, from_spare, from_script, from_nodes, from_variables, ScriptTold, JobTold, Prepared};

use crate::plan::WORDS;
use crate::spare::first_unfit;
use crate::{blocks, preorder};
use fields::nodes::{order_ok, parent_ok};
use fields::scan::first_that_fails;
use fields::sections::{Layout, counts_ok, layout_of, length_ok, offsets_ok};
use fields::variables::{variable_fits, variable_ok};
use fields::{nodes, records};
use rules::levels::{ALL, SECRET};
use rules::limits::{
    BAD_BLOCK, BAD_COUNT, BAD_LENGTH, BAD_NODE, BAD_OFFSETS, BAD_ORDER, BAD_PARENT, BAD_RECORD,
    BAD_SPARE, BAD_VARIABLE, COMMANDS,
};

// The number that turns a job or a script back, with the index of the first faulty record.
#[derive(Clone, Copy, Debug, PartialEq, Eq)]
pub struct Refusal {
    pub number: u8,
    pub index: usize,
}

// The rules that are checked: paper 01 with R-1 to R-3, which the cleaner keeps, or with R-1 to R-9, which the rearranger keeps, or those of today.
#[derive(Clone, Copy)]
pub enum Edition {
    First,
    Unordered,
    Today,
}

impl Edition {
    // Whether they have check 12.
    fn has_spare(self) -> bool
        ensures { result ≡ (edition_of self).spare }
    {
        match self {
            Edition::First => false,
            Edition::Unordered => true,
            Edition::Today => true,
        }
    }

    // Whether they have check 13.
    fn has_order(self) -> bool
        ensures { result ≡ (edition_of self).order }
    {
        match self {
            Edition::First => false,
            Edition::Unordered => false,
            Edition::Today => true,
        }
    }

    // Whether their script records hold sets.
    fn has_sets(self) -> bool
        ensures { result ≡ (edition_of self).sets }
    {
        match self {
            Edition::First => false,
            Edition::Unordered => false,
            Edition::Today => true,
        }
    }

    // Their highest level.
    fn highest(self) -> u8
        ensures { result ≡ highest_of (edition_of self) }
    {
        match self {
            Edition::First => SECRET,
            Edition::Unordered => SECRET,
            Edition::Today => ALL,
        }
    }

    // How many commands they have.
    fn commands(self) -> usize
        ensures { (result ≡ (edition_of self).commands) × (result ≤ command_count) }
    {
        match self {
            Edition::First => 17,
            Edition::Unordered => COMMANDS,
            Edition::Today => COMMANDS,
        }
    }
}

// What a search came to: an index, unless all of so many records passed.
fn found(index: usize, count: usize) -> Option<usize>
    ensures { result ≡ found index count }
{
    (index < count).then_some(index)
}

// What a scan of a section comes to: its first faulty record turns it back, with the number of the check; where none is faulty, the first with a spare byte that is not zero,
// if one is asked for.
fn scan_of(
    number: u8,
    fault: usize,
    unclean: Option<usize>,
    count: usize,
) -> Result<Option<usize>, Refusal>
    ensures { result ≡ scan_of number fault unclean count }
{
    if fault < count {
        Err(Refusal {
            number,
            index: fault,
        })
    } else {
        Ok(unclean)
    }
}

// The checks 4 and 12, of the variables.
fn scan_variables(job: &[u8], l: Layout, rules: Edition) -> Result<Option<usize>, Refusal>
    requires { Inside job.now l }
    ensures { result ≡ scanned bad_variable (edition_of rules) (variable_rule_in (edition_of rules) job.now) (variable_clean job.now) l.variables }
{
    let count = l.variables;
    let top = rules.highest();
    let mut unclean = None;
    if rules.has_spare() {
        let index = first_that_fails(count, |i| variable_fits(job, i, top));
        if index == count {
            return Ok(None);
        }
        unclean = Some(index);
    }
    let fault = first_that_fails(count, |i| variable_ok(job, i, top));
    scan_of(BAD_VARIABLE, fault, unclean, count)
}

// Check 13, where it is asked for: the first node that fails it.
fn first_unordered(job: &[u8], l: Layout, rules: Edition) -> Option<usize>
    requires { Inside job.now l × Linked job.now l.tree l.nodes }
    ensures { result ≡ asked (edition_of rules).order (order_rule job.now l.tree) l.nodes }
{
    if !rules.has_order() {
        return None;
    }
    let index = first_that_fails(l.nodes, |i| order_ok(job, l.tree, i));
    found(index, l.nodes)
}

// The checks 6 and 12, of the nodes.
fn scan_nodes(job: &[u8], l: Layout, rules: Edition) -> Result<Option<usize>, Refusal>
    requires { Linked job.now l.tree l.nodes }
    ensures { result ≡ scanned bad_node (edition_of rules) (node_rule_in (edition_of rules) job.now l.tree) (node_clean job.now l.tree) l.nodes }
{
    let top = rules.highest();
    let fault = nodes::first_fault(job, l.tree, l.nodes, top);
    if fault < l.nodes {
        return Err(Refusal {
            number: BAD_NODE,
            index: fault,
        });
    }
    if rules.has_spare() {
        let index = nodes::first_unclean(job, l.tree, l.nodes);
        return Ok(found(index, l.nodes));
    }
    Ok(None)
}

// The checks 7 and 12, of the script: the steps of `scan_variables`, but each search goes by tables that it makes once, so one function of both would say more than the two.
fn scan_records(
    bytes: &[u8],
    l: Layout,
    variables: usize,
    rules: Edition,
) -> Result<Option<usize>, Refusal>
    requires { record_place l.script l.records ≤ length bytes.now }
    ensures { result ≡ scanned bad_record (edition_of rules) (record_rules (edition_of rules) bytes.now variables l.script) (record_clean (edition_of rules).sets bytes.now l.script) l.records }
{
    let count = l.records;
    let mut unclean = None;
    if rules.has_spare() {
        let index = first_unfit(bytes, l.script, count, variables, rules.has_sets());
        if index == count {
            return Ok(None);
        }
        unclean = Some(index);
    }
    let fault = records::first_fault(bytes, l.script, count, variables, rules.commands());
    scan_of(BAD_RECORD, fault, unclean, count)
}

// Check 8, and the plan of the script.
fn check_blocks(bytes: &[u8], l: Layout, plan: &mut [u32]) -> Result<(), Refusal>
    requires { Fitted bytes.now l plan.old }
    ensures { ScriptTold bytes.now l (from_blocks bytes.now l) plan.old plan.new result }
{
    match blocks::first_fault(bytes, l.script, l.records, plan) {
        Some(index) => Err(Refusal {
            number: BAD_BLOCK,
            index,
        }),
        None => Ok(()),
    }
}

// Of each section the first record with a spare byte that is not zero.
#[derive(Clone, Copy)]
pub struct Unclean {
    pub variables: Option<usize>,
    pub nodes: Option<usize>,
    pub records: Option<usize>,
}

// The checks 12 and 8: sections in file order.
fn check_spare(
    bytes: &[u8],
    l: Layout,
    unclean: Unclean,
    rules: Edition,
    plan: &mut [u32],
) -> Result<(), Refusal>
    requires { Fitted bytes.now l plan.old × (unclean ≡ unclean_of (edition_of rules) bytes.now l) }
    ensures { ScriptTold bytes.now l (from_spare bytes.now l (edition_of rules)) plan.old plan.new result }
{
    let first = unclean.variables.or(unclean.nodes).or(unclean.records);
    if let Some(index) = first {
        return Err(Refusal {
            number: BAD_SPARE,
            index,
        });
    }
    check_blocks(bytes, l, plan)
}

// The checks 7, 12 and 8, where so many variables stand, and the plan of the script; `variable` and `node` are what is unclean in front of it.
pub fn check_script(
    bytes: &[u8],
    l: Layout,
    variables: usize,
    variable: Option<usize>,
    node: Option<usize>,
    rules: Edition,
    plan: &mut [u32],
) -> Result<(), Refusal>
    requires { Fitted bytes.now l plan.old × Fronted (edition_of rules) bytes.now l variable node }
    ensures { ScriptTold bytes.now l (from_script bytes.now l (edition_of rules) variables) plan.old plan.new result }
{
    let records = scan_records(bytes, l, variables, rules)?;
    let unclean = Unclean {
        variables: variable,
        nodes: node,
        records,
    };
    check_spare(bytes, l, unclean, rules, plan)
}

// From check 7 on, of a job.
fn check_job_script(
    job: &[u8],
    l: Layout,
    variable: Option<usize>,
    node: Option<usize>,
    rules: Edition,
    plan: &mut [u32],
) -> Result<Layout, Refusal>
    requires { Fitted job.now l plan.old × Fronted (edition_of rules) job.now l variable node }
    ensures { JobTold job.now l (from_script job.now l (edition_of rules) l.variables) plan.old plan.new result }
{
    check_script(job, l, l.variables, variable, node, rules, plan)?;
    Ok(l)
}

// From check 5 on.
fn check_nodes(
    job: &[u8],
    l: Layout,
    variable: Option<usize>,
    rules: Edition,
    plan: &mut [u32],
) -> Result<Layout, Refusal>
    requires { Inside job.now l × (max_records < length plan.old) × (variable ≡ asked (edition_of rules).spare (variable_clean job.now) l.variables) }
    ensures { JobTold job.now l (from_nodes job.now l (edition_of rules)) plan.old plan.new result }
{
    let index = first_that_fails(l.nodes, |i| parent_ok(job, l.tree, i));
    if index < l.nodes {
        return Err(Refusal {
            number: BAD_PARENT,
            index,
        });
    }
    // Nodes that pass 13, 6 and 12 have no fault, also where 13 and 12 are not asked for.
    if preorder::all_fit(job, l.tree, l.nodes, rules.highest()) {
        return check_job_script(job, l, variable, None, rules, plan);
    }
    if let Some(index) = first_unordered(job, l, rules) {
        return Err(Refusal {
            number: BAD_ORDER,
            index,
        });
    }
    let node = scan_nodes(job, l, rules)?;
    check_job_script(job, l, variable, node, rules, plan)
}

// From check 4 on.
fn check_records(job: &[u8], l: Layout, rules: Edition, plan: &mut [u32]) -> Result<Layout, Refusal>
    requires { Inside job.now l × (max_records < length plan.old) }
    ensures { JobTold job.now l (from_variables job.now l (edition_of rules)) plan.old plan.new result }
{
    let variable = scan_variables(job, l, rules)?;
    check_nodes(job, l, variable, rules, plan)
}

// All of them. For 1 to 3 the index is 0; for an unclosed block it is the number of records.
fn check_bytes(job: &[u8], rules: Edition, plan: &mut [u32]) -> Result<Layout, Refusal>
    requires { max_records < length plan.old }
    ensures { Prepared (edition_of rules) job.now plan.old plan.new result }
{
    if !length_ok(job.len()) {
        return Err(Refusal {
            number: BAD_LENGTH,
            index: 0,
        });
    }
    if !offsets_ok(job) {
        return Err(Refusal {
            number: BAD_OFFSETS,
            index: 0,
        });
    }
    let l = layout_of(job);
    if !counts_ok(l) {
        return Err(Refusal {
            number: BAD_COUNT,
            index: 0,
        });
    }
    check_records(job, l, rules, plan)
}

// The checks of today, and for an accepted job the plan of its script. Where 8 refuses a record, the plan holds the words of those before it; a job that is refused
// before leaves it alone.
pub fn prepare(job: &[u8], plan: &mut [u32; WORDS]) -> Result<Layout, Refusal>
    ensures { Prepared today job.now plan.old plan.new result }
{
    check_bytes(job, Edition::Today, plan)
}

// The checks of an edition alone.
pub fn check_by(job: &[u8], rules: Edition) -> Result<Layout, Refusal>
    ensures { result ≡ answer (layout_of job.now) (check_bytes_by (edition_of rules) job.now) }
{
    let mut plan = [0u32; WORDS];
    check_bytes(job, rules, &mut plan)
}

// The checks of today alone.
pub fn check(job: &[u8]) -> Result<Layout, Refusal>
    ensures { result ≡ answer (layout_of job.now) (check_bytes job.now) }
{
    check_by(job, Edition::Today)
}
