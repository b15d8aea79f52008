// The first lines of an accepted plan: the plan, the needs, the starts and the end.
ghost use Rattle.std.specs.Prelude.{◌≡◌, ◌+◌, ◌*◌, ◌≤◌, length};
ghost use Rattle.plan.specs.Records.{activities};
ghost use Rattle.lines.specs.Text.{text, more};
ghost use Rattle.report_lines.specs.Lines.{need_lines, start_lines, head_lines, head_room};

use lines::Draft;
use plan::ACTIVITIES;

// Writes the line of each of n kinds.
fn put_needs(draft: &mut Draft, n: usize, needs: &[u32; 8], available: &[u32; 8])
    requires { (n ≤ 8) × (draft.old.at + 68 * n ≤ length draft.old.out.now) }
    ensures same_reference { draft.new.out.ghost_name ≡ draft.old.out.ghost_name }
    ensures written { text draft.new.at draft.new.out.now
        ≡ more (text draft.old.at draft.old.out.now) (need_lines n needs.now available.now) }
{
    for (k, (need, limit)) in needs[..n].iter().zip(available).enumerate() {
        let numbers = [(k + 1) as u64, u64::from(*need), u64::from(*limit)];
        draft.put_line(b"need", &numbers);
    }
}

// Writes the line of each of m activities.
fn put_starts(draft: &mut Draft, m: usize, starts: &[u32; ACTIVITIES + 1])
    requires { (m ≤ activities) × (draft.old.at + 48 * m ≤ length draft.old.out.now) }
    ensures same_reference { draft.new.out.ghost_name ≡ draft.old.out.ghost_name }
    ensures written { text draft.new.at draft.new.out.now
        ≡ more (text draft.old.at draft.old.out.now) (start_lines m starts.now) }
{
    for (i, start) in starts[..m].iter().enumerate() {
        let numbers = [(i + 1) as u64, u64::from(*start)];
        draft.put_line(b"start", &numbers);
    }
}

// Writes all these lines.
pub fn head_text(
    draft: &mut Draft,
    m: usize,
    n: usize,
    needs: &[u32; 8],
    available: &[u32; 8],
    starts: &[u32; ACTIVITIES + 1],
)
    requires { (m ≤ activities) × (n ≤ 8) × (draft.old.at + head_room ≤ length draft.old.out.now) }
    ensures same_reference { draft.new.out.ghost_name ≡ draft.old.out.ghost_name }
    ensures written { text draft.new.at draft.new.out.now
        ≡ more (text draft.old.at draft.old.out.now) (head_lines m n needs.now available.now starts.now) }
{
    draft.put_line(b"plan", &[m as u64, n as u64]);
    put_needs(draft, n, needs, available);
    put_starts(draft, m, starts);
    draft.put_line(b"end", &[u64::from(starts[m])]);
}
