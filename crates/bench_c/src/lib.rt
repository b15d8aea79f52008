// What bench/ measures, as functions that a C program can call. Each calls proved functions, and copies the answer out.
// A table of sets is one of words for C, as is what is shown of a set: bit i for the element i.
#![tactic(auto)]

ghost use Rattle.std.specs.Prelude.{◌≡◌, ◌*◌, ◌%◌, ◌^◌, ◌≤◌, length};
ghost use Rattle.order.specs.Before.{Acyclic};
ghost use Rattle.order.specs.Stored.{elements, number_of as set_number};
ghost use Rattle.order.specs.Orders.{after_rows, Direct, order_in, joined_rows};
ghost use Rattle.records.specs.Records.{starting_with};
ghost use Rattle.crew_sheet.specs.Sheet.{page_bytes, pages_of, sheet_page, most_lines};
ghost use Rattle.plan.specs.Meaning.{Readable};
ghost use Rattle.plan.specs.model.Reads.{read_of};
ghost use Rattle.plan.specs.model.Waits.{wait_table};
ghost use Rattle.schedule.specs.model.Arrays.{with_waits, starts_of, AllAtMost, Listed, crew_net, work_of};
ghost use Rattle.schedule.specs.Checks.{check_of};
ghost use Rattle.bench_c.specs.Numbers.{number_of};
ghost use Rattle.solver.specs.model.Solve.{ranked};
ghost use Rattle.solver.specs.model.Quote.{unused, Clean, quote_in, quote_of, flow_of};

use order::{ELEMENTS, Order, Rows};
use plan::Plan;
use schedule::Checked;
use solver::Ranking;

// The need of the order of arcs, from i to each member of row i, with a demand for each of the m first
// elements; the set that has it, and the handover. The rows of `flow` from m on come in at 0; what stands in
// the others is taken back first.
#[unsafe(no_mangle)]
pub extern "C" fn yaffledesk_quote(
    arcs: &Rows,
    m: usize,
    demand: &[u32; ELEMENTS],
    flow: &mut [u32; ELEMENTS * ELEMENTS],
    set: &mut u64,
) -> u32
    requires { (m ≤ elements) × Clean m flow.old }
    ensures { (result ≡ (quote_of m (order_in arcs.now) demand.now).need) × (set.new ≡ set_number (quote_of m (order_in arcs.now) demand.now).set % 2 ^ 64) × (flow.new ≡ flow_of m (order_in arcs.now) demand.now) }
{
    solver::clear(flow, m);
    let quoted = solver::quote(Order::of(*arcs), m, demand, flow);
    *set = quoted.set.first_word();
    quoted.need
}

// The ranking of an order, which is closed: for all kinds of a plan the same.
#[unsafe(no_mangle)]
pub extern "C" fn yaffledesk_bench_ranks(rows: &Rows, m: usize, ranks: &mut Rows)
    requires { m ≤ elements }
    ensures { ranks.new ≡ ranked m rows.now }
{
    *ranks = solver::ranks(rows, m);
}

// The need of one kind, by the closed order and its ranking, and the set that has it. `flow`
// comes in at 0 and goes out so.
#[unsafe(no_mangle)]
pub extern "C" fn yaffledesk_bench_weigh(
    rows: &Rows,
    ranks: &Rows,
    m: usize,
    demand: &[u32; ELEMENTS],
    flow: &mut [u32; ELEMENTS * ELEMENTS],
    set: &mut u64,
) -> u32
    requires { (m ≤ elements) × (ranks.now ≡ ranked m rows.now) × (flow.old ≡ unused) }
    ensures { (result ≡ (quote_in m rows.now demand.now).need) × (set.new ≡ set_number (quote_in m rows.now demand.now).set % 2 ^ 64) × (flow.new ≡ unused) }
{
    let weighed = Ranking::of(rows, ranks, m).weigh(demand, flow);
    *set = weighed.set.first_word();
    weighed.need
}

// Reads a plan file: how many activities it has, with their durations, demands and arcs.
#[unsafe(no_mangle)]
pub extern "C" fn yaffledesk_bench_read(
    s: &[u8],
    duration: &mut [u32; ELEMENTS],
    demand: &mut [u32; 8 * ELEMENTS],
    job: &mut Rows,
    extra: &mut Rows,
) -> usize
    ensures { (result ≡ (read_of s.now).plan.count) × (duration.new ≡ (read_of s.now).plan.duration) × (demand.new ≡ (read_of s.now).plan.demand) × (job.new ≡ (read_of s.now).plan.job) × (extra.new ≡ (read_of s.now).plan.extra) }
{
    let plan = match plan::read(s) {
        Ok(plan) => plan,
        Err(_) => Plan::empty(),
    };
    duration.copy_from_slice(&plan.duration);
    demand.copy_from_slice(&plan.demand);
    job.copy_from_slice(&plan.job);
    extra.copy_from_slice(&plan.extra);
    plan.count
}

// The waits of a readable file's arcs: that of the arc from i to j stands at ELEMENTS * j + i.
#[unsafe(no_mangle)]
pub extern "C" fn yaffledesk_bench_waits(s: &[u8], waits: &mut [u32; ELEMENTS * ELEMENTS])
    requires { Readable s.now }
    ensures { waits.new ≡ wait_table s.now }
{
    *waits = [0; ELEMENTS * ELEMENTS];
    plan::store_waits(s, waits);
}

// The job order and the plan order of two tables of arcs, as opening a plan finds them.
#[unsafe(no_mangle)]
pub extern "C" fn yaffledesk_bench_orders(job: &Rows, extra: &Rows, jobs: &mut Rows, all: &mut Rows)
    ensures { (jobs.new ≡ after_rows (order_in job.now)) × (all.new ≡ after_rows (order_in (joined_rows job.now extra.now))) }
{
    let first = Order::of(*job);
    *jobs = first.after_rows();
    *all = first.with_arcs(*extra).after_rows();
}

// The earliest starts over arcs without a circle, with durations and waits of at most 65,535. The wait on the arc from
// i to j stands at ELEMENTS * j + i.
#[unsafe(no_mangle)]
pub extern "C" fn yaffledesk_bench_earliest(
    arcs: &Rows,
    duration: &[u32; ELEMENTS],
    waits: &[u32; ELEMENTS * ELEMENTS],
    starts: &mut [u32; ELEMENTS],
)
    requires { Acyclic (Direct arcs.now) × AllAtMost 65535 duration.now × AllAtMost 65535 waits.now }
    ensures { starts.new ≡ starts_of arcs.now (with_waits duration.now waits.now) }
{
    *starts = schedule::earliest(arcs, duration, waits);
}

// The crew check of at most ELEMENTS starts and as many durations: 0 fits, 1 a broken arc, 2 an overload.
#[unsafe(no_mangle)]
pub extern "C" fn yaffledesk_bench_crew_check(
    arcs: &Rows,
    waits: &[u32; ELEMENTS * ELEMENTS],
    demand: &[u32; 8 * ELEMENTS],
    available: &[u32; 8],
    starts: &[u32],
    worked: &[u32],
) -> u64
    requires { Listed starts.now worked.now }
    ensures { result ≡ number_of (check_of (crew_net arcs.now (with_waits worked.now waits.now) starts.now) (work_of demand.now available.now starts.now worked.now)) }
{
    number(schedule::crew_check(arcs, waits, demand, available, starts, worked))
}

// The number of an answer. (No `From`: neither type is of this crate.)
fn number(c: Checked) -> u64
    ensures { result ≡ number_of c }
{
    match c {
        Checked::Fits => 0,
        Checked::Broken { .. } => 1,
        Checked::Overload { .. } => 2,
    }
}

// A page of the sheet of n flow records, with the starts of their receivers, to the front of
// `out`. Gives the count of pages.
#[unsafe(no_mangle)]
pub extern "C" fn yaffledesk_bench_page(
    flow: &[u8],
    n: usize,
    starts: &[u32],
    kind: u64,
    page: usize,
    out: &mut [u8],
) -> usize
    requires { (page_bytes ≤ length out.old) × (n ≤ most_lines) × (24 * n ≤ length flow.now) × (1 ≤ page) × (page ≤ most_lines) }
    ensures { (result ≡ pages_of n) × (out.new ≡ starting_with (sheet_page flow.now starts.now n kind page) out.old) }
{
    crew_sheet::write_page(out, flow, n, starts, kind, page)
}
