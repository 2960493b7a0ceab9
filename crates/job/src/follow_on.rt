// The checks of a follow-on script, which is a bare section: 11 where it is not whole records or has more than 1,024, then 7, 12 and 8.
ghost use Rattle.std.specs.Prelude.{◌≡◌, ◌<◌, length};
ghost use Rattle.rules.specs.Limits.{max_records};
ghost use Rattle.rules.specs.History.{section_rule};
ghost use Rattle.job.specs.FollowOn.{SectionPrepared};

use crate::checks::{Edition, Refusal, check_script};
use crate::plan::WORDS;
use fields::sections::Layout;
use rules::limits::{BAD_FOLLOW_ON, MAX_RECORDS, RECORD_SIZE};

// Check 11, of the section.
fn section_ok(section: &[u8]) -> bool
    ensures { result ≡ section_rule section.now }
{
    (section.len() % RECORD_SIZE == 0) & (section.len() / RECORD_SIZE <= MAX_RECORDS)
}

fn check_section(section: &[u8], variables: usize, plan: &mut [u32]) -> Result<(), Refusal>
    requires { max_records < length plan.old }
    ensures { SectionPrepared section.now variables plan.old plan.new result }
{
    if !section_ok(section) {
        return Err(Refusal {
            number: BAD_FOLLOW_ON,
            index: 0,
        });
    }
    let l = Layout {
        variables: 0,
        tree: 0,
        nodes: 0,
        script: 0,
        records: section.len() / RECORD_SIZE,
    };
    check_script(section, l, variables, None, None, Edition::Today, plan)
}

// The checks of a section's bytes where so many variables stand, and for a sound one its plan, as `prepare` has it for a job.
pub fn prepare_section(
    section: &[u8],
    variables: usize,
    plan: &mut [u32; WORDS],
) -> Result<(), Refusal>
    ensures { SectionPrepared section.now variables plan.old plan.new result }
{
    check_section(section, variables, plan)
}
