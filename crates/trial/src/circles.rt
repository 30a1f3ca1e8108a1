// The shortest circles of two sheets.
use crate::say;
use crate::tape::Tape;

// How many pairs are asked for, and the pairs.
pub fn shortest_case(rt: &HostRuntime, tape: &mut Tape, p: &[i32], q: &[i32], bits: &mut [u64]) {
    let k = crate::tape::next_or_largest(tape);
    say::say(rt, b"shortest");
    say::number(rt, k as u64);
    say::say(rt, b":");
    let r = shortest::shortest(p, q, k, bits);
    say::number(rt, r.number as u64);
    say::number(rt, r.count as u64);
    say::pairs(rt, &r.pairs);
}
