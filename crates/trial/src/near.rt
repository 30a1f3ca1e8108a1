// Pump houses nearest first, and the filter that goes nearest first: what each answers, and what the lent numbers hold after it.
ghost use Rattle.std.specs.Prelude.{◌≤◌, length};

use crate::tape::Tape;
use crate::{lent, say, tape};
use nearest::{Found, Near};
use ring::Filtered;

// Numbers, of which some are lent.
const NUMBERS: usize = 2048;

pub fn print_near(rt: &HostRuntime, v: Near) {
    say::number(rt, v.id as u64);
    say::number(rt, v.distance);
}

// What the numbers hold, those that are not lent too.
fn print_numbers(rt: &HostRuntime, numbers: &[u64]) {
    say::say(rt, b" numbers");
    lent::print(rt, numbers);
}

fn found(p: &[i32], q: &[i32], id: u32, size: usize, n: usize, numbers: &mut [u64]) -> Found
    requires { n ≤ length numbers.old }
{
    nearest::nearest(p, q, id, size, &mut numbers[..n])
}

fn nearest_case(
    rt: &HostRuntime,
    p: &[i32],
    q: &[i32],
    id: u32,
    size: usize,
    n: usize,
    numbers: &mut [u64],
)
    requires { n ≤ length numbers.old }
{
    say::say(rt, b"nearest");
    say::number(rt, id as u64);
    say::number(rt, size as u64);
    say::number(rt, n as u64);
    say::say(rt, b":");
    let r = found(p, q, id, size, n, numbers);
    say::number(rt, r.number as u64);
    say::number(rt, r.count as u64);
    for v in r.points.iter().take(r.count) {
        print_near(rt, *v);
    }
    print_numbers(rt, numbers);
}

fn kept(p: &[i32], q: &[i32], id: u32, n: usize, numbers: &mut [u64], bits: &mut [u64]) -> Filtered
    requires { n ≤ length numbers.old }
{
    nearest::near_filter(p, q, id, &mut numbers[..n], bits)
}

fn filter_case(
    rt: &HostRuntime,
    p: &[i32],
    q: &[i32],
    id: u32,
    n: usize,
    numbers: &mut [u64],
    bits: &mut [u64],
)
    requires { n ≤ length numbers.old }
{
    say::say(rt, b"filter");
    say::number(rt, id as u64);
    say::number(rt, n as u64);
    say::say(rt, b":");
    let r = kept(p, q, id, n, numbers, bits);
    say::number(rt, r.number as u64);
    say::number(rt, r.count as u64);
    say::number(rt, r.opened);
    print_numbers(rt, numbers);
}

fn lent_of(asked: usize) -> usize
    ensures { result ≤ 2048 }
{
    asked.min(NUMBERS)
}

// What is asked, of which chamber, the size, and how many numbers are lent.
pub fn near_case(rt: &HostRuntime, tape: &mut Tape, p: &[i32], q: &[i32], bits: &mut [u64]) {
    let kind = tape::next_count(tape);
    let id = tape::next_id(tape);
    let size = tape::next_or_largest(tape);
    let n = lent_of(tape::next_or_largest(tape));
    let mut numbers = [0u64; NUMBERS];
    lent::mark(&mut numbers);
    if kind == 1 {
        nearest_case(rt, p, q, id, size, n, &mut numbers);
        return;
    }
    filter_case(rt, p, q, id, n, &mut numbers, bits);
}
