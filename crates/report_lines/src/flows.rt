// The lines of a flow, from its records.
ghost use Rattle.std.specs.Prelude.{◌≡◌, ◌+◌, ◌*◌, ◌≤◌, length};
ghost use Rattle.planner.specs.Flow.{most_records};
ghost use Rattle.lines.specs.Text.{text, more, line_of};
ghost use Rattle.report_lines.specs.Lines.{flow_word, flow_numbers, flow_lines};

use lines::Draft;

// Writes the line of one record.
fn put_record(draft: &mut Draft, handover: &[u8; 24])
    requires { draft.old.at + 110 ≤ length draft.old.out.now }
    ensures same_reference { draft.new.out.ghost_name ≡ draft.old.out.ghost_name }
    ensures written { text draft.new.at draft.new.out.now
        ≡ more (text draft.old.at draft.old.out.now) (line_of flow_word (flow_numbers handover.now)) }
{
    let numbers = [
        u64::from(handover[1]),
        u64::from(handover[2]),
        u64::from(handover[3]),
        u64::from(records::field::<4>(handover, 4)),
        u64::from(handover[8]),
    ];
    draft.put_line(b"flow", &numbers);
}

// Writes the lines of n records, each of at most 32 bytes. (n beside the bytes: more may be lent than is written.)
pub fn put_records(draft: &mut Draft, records: &[u8], n: usize)
    requires { (n ≤ most_records) × (24 * n ≤ length records.now)
        × (draft.old.at + 32 * n + 78 ≤ length draft.old.out.now) }
    ensures same_reference { draft.new.out.ghost_name ≡ draft.old.out.ghost_name }
    ensures written { text draft.new.at draft.new.out.now
        ≡ more (text draft.old.at draft.old.out.now) (flow_lines n records.now) }
    ensures upper_bound { draft.new.at ≤ draft.old.at + 32 * n }
{
    let (handovers, _) = records[..24 * n].as_chunks::<24>();
    for handover in handovers {
        put_record(draft, handover);
    }
}
