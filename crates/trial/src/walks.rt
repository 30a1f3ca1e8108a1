// Both walks on two sheets.
use crate::tape::Tape;
use crate::{say, tape};

// A position of Q, and its filter walk, which leaves its kept set in the words lent.
pub fn filter_case(rt: &HostRuntime, tape: &mut Tape, p: &[i32], q: &[i32], bits: &mut [u64]) {
    let j = tape::next_or_largest(tape);
    say::say(rt, b"filter");
    say::number(rt, j as u64);
    say::say(rt, b":");
    let f = ring::filter::filter_walk(p, q, j, bits);
    say::number(rt, f.number as u64);
    say::number(rt, f.count as u64);
    say::number(rt, f.opened);
}

pub fn print_hit(rt: &HostRuntime, h: walk::Hit) {
    match h {
        walk::Hit::Clear => {
            say::say(rt, b" clear");
        }
        walk::Hit::Point(b) => {
            say::say(rt, b" point");
            say::number(rt, b.set as u64);
            say::number(rt, b.position as u64);
        }
        walk::Hit::Side(e) => {
            say::say(rt, b" side");
            say::number(rt, e.set as u64);
            say::number(rt, e.node as u64);
            say::number(rt, e.side as u64);
        }
    }
}

fn print_answer(rt: &HostRuntime, r: Result<walk::Answer, u32>) {
    match r {
        Err(number) => {
            say::refused(rt, number);
        }
        Ok(a) => {
            let h = a.hit;
            print_hit(rt, h);
            say::number(rt, a.opened);
        }
    }
    say::end_line(rt);
}

// A position of Q, one of P and a profile, and their ring walk.
pub fn ring_case(rt: &HostRuntime, tape: &mut Tape, p: &[i32], q: &[i32]) {
    let j = tape::next_or_largest(tape);
    let i = tape::next_or_largest(tape);
    let grid = tape::next_mark(tape);
    say::say(rt, b"ring");
    say::number(rt, j as u64);
    say::number(rt, i as u64);
    crate::pages::print_mark(rt, grid);
    say::say(rt, b":");
    print_answer(rt, ring::ringwalk::ring_walk(p, q, j, i, grid));
}
