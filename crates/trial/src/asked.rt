// Cases of two sheets, with what is asked of them.
ghost use Rattle.std.specs.Prelude.{◌≤◌, length};

use crate::tape::Tape;
use crate::{circles, leaves, lent, lists, near, pages, ranks, say, tape, views, walks};

// The most words that a sheet of a case has.
const MOST: usize = 8192;

// Words for kept bits, of which some are lent.
const WORDS: usize = 512;

// Filter walks, and the ring walks that follow them.
const WALKS: usize = 5;

const RING_WALKS: usize = 6;

// What is asked, on the words lent. A call that takes none leaves them as they are.
fn answered(
    rt: &HostRuntime,
    tape: &mut Tape,
    kind: usize,
    p: &[i32],
    q: &[i32],
    bits: &mut [u64],
) {
    match kind {
        WALKS => walks::filter_case(rt, tape, p, q, bits),
        7 => pages::page_case(rt, tape, p, q, bits),
        8 => pages::partners_case(rt, tape, p, q, bits),
        9 => pages::own_case(rt, tape, p, bits),
        10 => leaves::run_case(rt, tape, p, q, bits),
        11 => circles::shortest_case(rt, tape, p, q, bits),
        12 => near::near_case(rt, tape, p, q, bits),
        13 => views::view_case(rt, tape, p, q, bits),
        15 => lists::pairs_case(rt, tape, p, q, bits),
        16 => lists::own_pairs_case(rt, tape, p, bits),
        17 => lists::count_case(rt, tape, p, q, bits),
        18 => lists::own_count_case(rt, tape, p, bits),
        19 => ranks::busiest_case(rt, tape, p, q, bits),
        20 => ranks::pumps_case(rt, tape, p, q, bits),
        21 => ranks::urgent_case(rt, tape, p, q, bits),
        _ => {}
    }
}

// The same on the first n words.
fn lent_to(
    rt: &HostRuntime,
    tape: &mut Tape,
    kind: usize,
    p: &[i32],
    q: &[i32],
    n: usize,
    words: &mut [u64],
)
    requires { n ≤ length words.old }
{
    answered(rt, tape, kind, p, q, &mut words[..n]);
}

// How many words are lent, and what all hold after the call.
fn print_words(rt: &HostRuntime, n: usize, words: &[u64]) {
    say::say(rt, b" lent");
    say::number(rt, n as u64);
    lent::print(rt, words);
    say::end_line(rt);
}

// How many words are lent, and what is asked.
fn lent_case(rt: &HostRuntime, tape: &mut Tape, kind: usize, p: &[i32], q: &[i32]) {
    let n = tape::next_up_to(tape, WORDS);
    let mut words = [0u64; WORDS];
    lent::mark(&mut words);
    lent_to(rt, tape, kind, p, q, n, &mut words);
    print_words(rt, n, &words);
}

fn request(rt: &HostRuntime, tape: &mut Tape, kind: usize, p: &[i32], q: &[i32]) {
    if kind == RING_WALKS {
        walks::ring_case(rt, tape, p, q);
    } else {
        lent_case(rt, tape, kind, p, q);
    }
}

fn requests(rt: &HostRuntime, tape: &mut Tape, kind: usize, p: &[i32], q: &[i32], count: usize) {
    for _ in 0..count {
        request(rt, tape, kind, p, q);
    }
}

// How many ring walks follow the filter walks: none where something else is asked.
fn ring_walks(tape: &mut Tape, kind: usize) -> usize {
    if kind == WALKS {
        tape::next_count(tape)
    } else {
        0
    }
}

fn all(
    rt: &HostRuntime,
    tape: &mut Tape,
    kind: usize,
    p: &[i32],
    q: &[i32],
    count: usize,
    rings: usize,
) {
    requests(rt, tape, kind, p, q, count);
    requests(rt, tape, RING_WALKS, p, q, rings);
}

// The lengths of two sheets, the second 0 for a self join, how many requests there are, for walks how many of each kind, the sheets, and the requests.
pub fn asked(rt: &HostRuntime, tape: &mut Tape, kind: usize) {
    let np = tape::next_up_to(tape, MOST);
    let nq = tape::next_up_to(tape, MOST);
    let count = tape::next_count(tape);
    let rings = ring_walks(tape, kind);
    let mut p = [0i32; MOST];
    let mut q = [0i32; MOST];
    tape::fill(tape, &mut p, np, tape::next_word);
    tape::fill(tape, &mut q, nq, tape::next_word);
    all(rt, tape, kind, &p[..np], &q[..nq], count, rings);
}
