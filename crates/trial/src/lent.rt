// What is lent to a call: each number holds a mark before it, and what they hold after it is printed.
ghost use Rattle.std.specs.Prelude.{◌≤◌, length};

use crate::say;

// What number k holds before a call: it is not 0.
fn mark_of(k: usize) -> u64 {
    11936128515503554560u64.wrapping_add(k as u64)
}

pub fn mark(numbers: &mut [u64]) {
    for (k, n) in numbers.iter_mut().enumerate() {
        *n = mark_of(k);
    }
}

// How many numbers are 0, from the first on.
fn zeros(numbers: &[u64]) -> usize
    ensures { result ≤ length numbers.now }
{
    numbers
        .iter()
        .position(|n| *n != 0)
        .unwrap_or(numbers.len())
}

// Where those begin that hold their mark, up to the last; not before `from`.
fn marks_from(numbers: &[u64], from: usize) -> usize
    requires { from ≤ length numbers.now }
    ensures { result ≤ length numbers.now }
{
    for k in (from..numbers.len()).rev() {
        if numbers[k] != mark_of(k) {
            return k + 1;
        }
    }
    from
}

// How many numbers are 0 from the first on, how many hold their mark up to the last, and those between.
pub fn print(rt: &HostRuntime, numbers: &[u64]) {
    let from = zeros(numbers);
    let to = marks_from(numbers, from);
    say::number(rt, from as u64);
    say::number(rt, (numbers.len() - to) as u64);
    for n in numbers.iter().take(to).skip(from) {
        say::hex(rt, *n);
    }
}
