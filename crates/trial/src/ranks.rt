// The busiest chambers and pump houses, and the most urgent visits: what each call answers, all sixteen rows.
use crate::tape::Tape;
use crate::{pages, say, tape};
use ranked::{Busy, Question, Urgent};

// The most scores that a case has for a sheet.
const SCORES: usize = 2048;

// How many rows, the largest size, a profile and a contractor.
fn next_question(tape: &mut Tape) -> Question {
    let k = tape::next_or_largest(tape);
    let largest = tape::next_long(tape);
    let grid = tape::next_mark(tape);
    let contractor = tape::next_id(tape);
    Question {
        k,
        largest,
        contractor,
        grid,
    }
}

fn print_asked(rt: &HostRuntime, k: usize, largest: u64, grid: bool) {
    say::number(rt, k as u64);
    say::number(rt, largest);
    pages::print_mark(rt, grid);
}

fn print_question(rt: &HostRuntime, asked: Question, bytes: usize) {
    print_asked(rt, asked.k, asked.largest, asked.grid);
    say::number(rt, asked.contractor as u64);
    say::number(rt, bytes as u64);
}

fn print_answer(rt: &HostRuntime, number: u32, count: usize) {
    say::say(rt, b":");
    say::number(rt, number as u64);
    say::number(rt, count as u64);
}

fn print_busy(rt: &HostRuntime, r: Busy) {
    print_answer(rt, r.number, r.count);
    for v in &r.rows {
        say::number(rt, v.id as u64);
        say::number(rt, v.pairs as u64);
    }
}

fn print_urgent(rt: &HostRuntime, r: Urgent) {
    print_answer(rt, r.number, r.count);
    for v in &r.rows {
        say::pair(rt, v.pair);
        say::number(rt, v.score);
    }
}

fn busiest_asked(
    rt: &HostRuntime,
    p: &[i32],
    q: &[i32],
    owners: &[u8],
    asked: Question,
    bits: &mut [u64],
) {
    say::say(rt, b"busiest");
    print_question(rt, asked, owners.len());
    print_busy(rt, ranked::busiest::busiest(p, q, owners, asked, bits));
}

// A question, how many owner bytes there are, and these.
pub fn busiest_case(rt: &HostRuntime, tape: &mut Tape, p: &[i32], q: &[i32], bits: &mut [u64]) {
    let asked = next_question(tape);
    let len = tape::next_up_to(tape, pages::OWNERS);
    let mut owners = [0u8; pages::OWNERS];
    tape::fill(tape, &mut owners, len, |t| tape::next_byte(t));
    busiest_asked(rt, p, q, &owners[..len], asked, bits);
}

// How many rows, the largest size and a profile.
pub fn pumps_case(rt: &HostRuntime, tape: &mut Tape, p: &[i32], q: &[i32], bits: &mut [u64]) {
    let k = tape::next_or_largest(tape);
    let largest = tape::next_long(tape);
    let grid = tape::next_mark(tape);
    say::say(rt, b"busiest pumps");
    print_asked(rt, k, largest, grid);
    print_busy(
        rt,
        ranked::busiest::busiest_pumps(p, q, k, largest, grid, bits),
    );
}

// The same as the busiest, with scores.
fn urgent_asked(
    rt: &HostRuntime,
    p: &[i32],
    q: &[i32],
    owners: &[u8],
    p_scores: &[u32],
    q_scores: &[u32],
    asked: Question,
    bits: &mut [u64],
) {
    say::say(rt, b"urgent");
    print_question(rt, asked, owners.len());
    say::number(rt, p_scores.len() as u64);
    say::number(rt, q_scores.len() as u64);
    print_urgent(
        rt,
        ranked::visits::urgent(p, q, owners, p_scores, q_scores, asked, bits),
    );
}

// How many scores of P there are, and these, then the same of Q.
fn scored(
    rt: &HostRuntime,
    tape: &mut Tape,
    p: &[i32],
    q: &[i32],
    owners: &[u8],
    asked: Question,
    bits: &mut [u64],
) {
    let np = tape::next_up_to(tape, SCORES);
    let mut of_p = [0u32; SCORES];
    tape::fill(tape, &mut of_p, np, tape::next_id);
    let nq = tape::next_up_to(tape, SCORES);
    let mut of_q = [0u32; SCORES];
    tape::fill(tape, &mut of_q, nq, tape::next_id);
    urgent_asked(rt, p, q, owners, &of_p[..np], &of_q[..nq], asked, bits);
}

// A question, how many owner bytes there are, and these, then the scores.
pub fn urgent_case(rt: &HostRuntime, tape: &mut Tape, p: &[i32], q: &[i32], bits: &mut [u64]) {
    let asked = next_question(tape);
    let len = tape::next_up_to(tape, pages::OWNERS);
    let mut owners = [0u8; pages::OWNERS];
    tape::fill(tape, &mut owners, len, |t| tape::next_byte(t));
    scored(rt, tape, p, q, &owners[..len], asked, bits);
}
