// The marker of two places.
use crate::tape::Tape;
use crate::{say, tape};
use marker::Marker;

// A number that should be whole, without its fraction; and that it has one where it has.
fn print_whole(rt: &HostRuntime, d: f64, n: i64) {
    say::signed(rt, n);
    if std::num::nearest_i64_to_f64(n) != d {
        say::say(rt, b" and more");
    }
}

// Twice a number.
fn print_doubled(rt: &HostRuntime, x: f64) {
    let d = x + x;
    if d >= -9223372036854775808.0 {
        if d < 9223372036854775808.0 {
            print_whole(rt, d, std::num::truncating_f64_to_i64(d));
        }
    }
}

fn print_marked(rt: &HostRuntime, v: Result<Marker, u32>) {
    match v {
        Ok(m) => {
            print_doubled(rt, m.x);
            print_doubled(rt, m.y);
        }
        Err(number) => {
            say::refused(rt, number);
        }
    }
    say::end_line(rt);
}

fn print_word(rt: &HostRuntime, w: i32) {
    say::signed(rt, words::wide(w));
}

// Two places, x and y each, and their marker, doubled.
pub fn mark_case(rt: &HostRuntime, tape: &mut Tape) {
    let ax = tape::next_word(tape);
    let ay = tape::next_word(tape);
    let bx = tape::next_word(tape);
    let by = tape::next_word(tape);
    say::say(rt, b"mark");
    print_word(rt, ax);
    print_word(rt, ay);
    print_word(rt, bx);
    print_word(rt, by);
    say::say(rt, b":");
    print_marked(rt, marker::mark(ax, ay, bx, by));
}
