// Runs of leaves: what each answers, and what the slots hold after it.
use crate::tape::Tape;
use crate::{say, tape};
use list::Pair;

// What the slots hold before a call: no pair of ids, and no size.
pub fn marked() -> [Pair; 256] {
    let mut slots = [Pair {
        q: 4000000000,
        p: 0,
        size: 9000000000000000000,
    }; 256];
    for (p, slot) in (0..256).zip(slots.iter_mut()) {
        slot.p = p;
    }
    slots
}

// How many slots hold their mark.
pub fn marks(slots: &[Pair]) -> u64 {
    slots
        .iter()
        .zip(marked().iter())
        .filter(|(v, mark)| v == mark)
        .count() as u64
}

// A node and how many slots are lent, and the run that they ask for.
pub fn run_case(rt: &HostRuntime, tape: &mut Tape, p: &[i32], q: &[i32], bits: &mut [u64]) {
    let leaf = tape::next_or_largest(tape);
    let lent = tape::next_or_largest(tape);
    say::say(rt, b"run");
    say::number(rt, leaf as u64);
    say::number(rt, lent as u64);
    say::say(rt, b":");
    let r = runs::run_array(p, q, leaf, marked(), lent, bits);
    let run = r.run;
    say::number(rt, run.number as u64);
    say::number(rt, run.count as u64);
    say::number(rt, run.opened);
    say::number(rt, marks(&r.slots));
    say::first_pairs(rt, &r.slots, run.count);
}
