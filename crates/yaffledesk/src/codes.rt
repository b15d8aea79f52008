// Answers as numbers: C gets one of 64 bits (include/yaffledesk.h). (A function for each answer, as specs/Codes has
// them.)
ghost use Rattle.std.specs.Prelude.{◌≡◌, ◌<◌, ◌%◌, ◌^◌};
ghost use Rattle.yaffledesk.specs.Codes.{packed, refusal_code, cause_code, verdict_code, output_code, found_code};
ghost use Rattle.yaffledesk.specs.Codes.{crew_check_code, cause_word, shown_word};

use planner::{Accepted, Cause, Refusal, Values};
use schedule::Checked;

// A number with its values above it.
fn pack(number: u64, rest: u64) -> u64
    requires { packed number rest < 2 ^ 64 }
    ensures { result ≡ packed number rest }
{
    number + 256 * rest
}

// A refusal's number, with what is returned with it above: of a set its size.
fn refusal_code(r: Refusal) -> u64
    requires { refusal_code r < 2 ^ 64 }
    ensures { result ≡ refusal_code r }
{
    match r.values {
        Values::Nothing => pack(r.number, 0),
        Values::One(n) => pack(r.number, n as u64),
        Values::Need { kind, need, set } => {
            let size = set.size() as u64;
            let rest = kind as u64 + 256 * u64::from(need) + 1099511627776 * size;
            pack(r.number, rest)
        }
    }
}

fn cause_code(c: Cause) -> u64
    requires { cause_code c < 2 ^ 64 }
    ensures { result ≡ cause_code c }
{
    refusal_code(planner::refusal_of(c))
}

pub fn verdict_code(v: Result<Accepted, Cause>) -> u64
    requires { verdict_code v < 2 ^ 64 }
    ensures { result ≡ verdict_code v }
{
    match v {
        Ok(Accepted { activities, kinds }) => pack(0, activities as u64 + 256 * (kinds as u64)),
        Err(c) => cause_code(c),
    }
}

pub fn output_code(o: Result<usize, Cause>) -> u64
    requires { output_code o < 2 ^ 64 }
    ensures { result ≡ output_code o }
{
    match o {
        Ok(n) => pack(0, n as u64),
        Err(c) => cause_code(c),
    }
}

fn found_code(c: Checked) -> u64
    requires { found_code c < 2 ^ 64 }
    ensures { result ≡ found_code c }
{
    match c {
        Checked::Fits => 0,
        Checked::Broken { from, to } => pack(254, from as u64 + 256 * (to as u64)),
        Checked::Overload { period, kind } => pack(255, kind as u64 + 256 * period),
    }
}

pub fn crew_check_code(c: Result<Checked, Cause>) -> u64
    requires { crew_check_code c < 2 ^ 64 }
    ensures { result ≡ crew_check_code c }
{
    match c {
        Ok(found) => found_code(found),
        Err(c) => cause_code(c),
    }
}

// The first word of the set that a refusal shows. (It is all of it: `shown_small` of proofs/CodeBounds.antt.)
fn cause_word(c: Cause) -> u64
    ensures { result ≡ cause_word c % 2 ^ 64 }
{
    match planner::refusal_of(c).values {
        Values::Nothing | Values::One(_) => 0,
        Values::Need { set, .. } => set.first_word(),
    }
}

pub fn shown_word(v: Result<Accepted, Cause>) -> u64
    ensures { result ≡ shown_word v % 2 ^ 64 }
{
    match v {
        Ok(_) => 0,
        Err(c) => cause_word(c),
    }
}
