// The whole text of a report.
ghost use Rattle.std.specs.Prelude.{◌≡◌, ℕ, ◌+◌, ◌-◌, ◌*◌, ◌≤◌, length};
ghost use Rattle.lines.specs.Text.{text, more};
ghost use Rattle.records.specs.Records.{joined};
ghost use Rattle.planner.specs.Open.{plan_in};
ghost use Rattle.planner.specs.Flow.{most_records};
ghost use Rattle.planner.specs.Needs.{need_numbers};
ghost use Rattle.planner.specs.Starts.{start_numbers};
ghost use Rattle.report_lines.specs.Lines.{head_lines, head_room};
ghost use Rattle.report_lines.specs.Report.{flow_room, text_room, kind_lines, plan_lines, report_of, Accepts, Counts};

use crate::flows::put_records;
use crate::head::head_text;
use crate::refusal::refused_text;
use lines::Draft;
use plan::ACTIVITIES;
use planner::{Accepted, FLOW_BYTES};

// Zeros, for the records of the largest plan's flow. (A function, since its contract tells the length.)
fn flow_buffer() -> [u8; FLOW_BYTES]
    ensures { 24 * most_records ≡ length result }
{
    [0; FLOW_BYTES]
}

// Writes the lines of one kind's flow, each of at most 32 bytes, and the last may ask for 78 more. The records of the
// largest plan fit into the buffer; so Flow of an accepted plan refuses none of its kinds. (`Accepts` is a fact of the
// file's bytes, which planner's operations want here again; so it is asked by each of those that pass them on.)
fn put_flow(draft: &mut Draft, s: &[u8], kind: usize)
    requires { Accepts s.now × (1 ≤ kind) × (kind ≤ (plan_in s.now).kinds)
        × (draft.old.at + flow_room + 78 ≤ length draft.old.out.now) }
    ensures same_reference { draft.new.out.ghost_name ≡ draft.old.out.ghost_name }
    ensures written { text draft.new.at draft.new.out.now
        ≡ more (text draft.old.at draft.old.out.now) (kind_lines (plan_in s.now) (kind - 1)) }
    ensures upper_bound { draft.new.at ≤ draft.old.at + flow_room }
{
    let mut records = flow_buffer();
    if let Ok(n) = planner::flow(s, kind, &mut records) {
        put_records(draft, &records, n);
    }
}

// Writes the lines of the flows of the first n kinds.
fn put_flows(draft: &mut Draft, s: &[u8], n: usize)
    requires { Accepts s.now × (n ≤ (plan_in s.now).kinds)
        × (draft.old.at + flow_room * n + 78 ≤ length draft.old.out.now) }
    ensures same_reference { draft.new.out.ghost_name ≡ draft.old.out.ghost_name }
    ensures written { text draft.new.at draft.new.out.now
        ≡ more (text draft.old.at draft.old.out.now) (joined (kind_lines (plan_in s.now)) n) }
    ensures upper_bound { draft.new.at ≤ draft.old.at + flow_room * n }
{
    // By number: nothing stands for a kind but its number.
    for k in 0..n {
        put_flow(draft, s, k + 1);
    }
}

// Writes the first lines of an accepted plan of these sizes.
fn put_head(draft: &mut Draft, s: &[u8], sizes: Accepted)
    requires { Accepts s.now × (sizes.activities ≡ (plan_in s.now).count) × (sizes.kinds ≡ (plan_in s.now).kinds)
        × (draft.old.at + head_room ≤ length draft.old.out.now) }
    ensures same_reference { draft.new.out.ghost_name ≡ draft.old.out.ghost_name }
    ensures written { text draft.new.at draft.new.out.now
        ≡ more (text draft.old.at draft.old.out.now)
        (head_lines sizes.activities sizes.kinds (need_numbers s.now) (plan_in s.now).available (start_numbers s.now)) }
{
    // Of an accepted plan, with this much room, neither is refused.
    let mut needs = [0u32; 8];
    let _ = planner::needs(s, &mut needs);
    let mut starts = [0u32; ACTIVITIES + 1];
    let _ = planner::starts(s, &mut starts);
    let available = planner::available(s);
    let Accepted { activities, kinds } = sizes;
    head_text(draft, activities, kinds, &needs, &available, &starts);
}

// Writes the report of an accepted plan of these sizes.
fn put_plan(draft: &mut Draft, s: &[u8], sizes: Accepted)
    requires { Accepts s.now × (sizes.activities ≡ (plan_in s.now).count) × (sizes.kinds ≡ (plan_in s.now).kinds)
        × (draft.old.at + text_room ≤ length draft.old.out.now) }
    ensures same_reference { draft.new.out.ghost_name ≡ draft.old.out.ghost_name }
    ensures written { text draft.new.at draft.new.out.now
        ≡ more (text draft.old.at draft.old.out.now) (plan_lines s.now) }
    ensures upper_bound { draft.new.at ≤ length draft.new.out.now }
{
    put_head(draft, s, sizes);
    put_flows(draft, s, sizes.kinds);
}

// Writes the report of a file's bytes.
fn put_report(draft: &mut Draft, s: &[u8])
    requires { draft.old.at + text_room ≤ length draft.old.out.now }
    ensures same_reference { draft.new.out.ghost_name ≡ draft.old.out.ghost_name }
    ensures written { text draft.new.at draft.new.out.now
        ≡ more (text draft.old.at draft.old.out.now) (report_of s.now) }
    ensures upper_bound { draft.new.at ≤ length draft.new.out.now }
{
    match planner::verdict(s) {
        Ok(sizes) => put_plan(draft, s, sizes),
        Err(c) => refused_text(draft, c),
    }
}

// Writes the report of a file's bytes to the front of the lent bytes. Gives its length. (`text_room`: its first lines,
// the flows of eight kinds, and the last line may ask for 78 more.)
pub fn report_text(out: &mut [u8], s: &[u8]) -> usize
    requires { text_room ≤ length out.old }
    ensures out_after { text result out.new ≡ more (text 0 out.old) (report_of s.now) }
    ensures counts { Counts result out.new }
{
    let mut draft = Draft { out, at: 0 };
    put_report(&mut draft, s);
    draft.at
}
