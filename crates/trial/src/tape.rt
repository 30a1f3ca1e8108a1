// The tape of cases, as words of standard input, ended by a word that is 0. What is read no contract can say; past a word that cannot be
// read whole every word is 0.
ghost use Rattle.std.specs.Prelude.{◌≡◌, ◌<◌, ◌≤◌, true, ◌||◌, length, drop, ◌==◌, nat_lt};

use std::io::Stdin;

// Standard input, and whether a word of it was lost: none is read after that one.
#[derive(Drop)]
pub struct Tape {
    input: Stdin,
    lost: bool,
}

pub fn new(rt: &HostRuntime) -> Tape {
    Tape {
        input: rt.stdin(),
        lost: false,
    }
}

// The next word, or that it cannot be read whole. Where it is lost the tape ends there, so that no later one is taken for it.
fn read_word(tape: &mut Tape) -> Option<i32> {
    if tape.lost {
        return None;
    }
    let mut b = [0u8; 4];
    if let Ok(n) = input::read_all(&mut tape.input, &mut b) {
        if n == 4 {
            return Some(i32::from_le_bytes(b));
        }
    }
    tape.lost = true;
    None
}

// The next word, 0 where it is lost.
pub fn next_word(tape: &mut Tape) -> i32 {
    read_word(tape).unwrap_or(0)
}

// The kind of the next case, 0 where the cases end. Where the input fails or breaks off before that, it says so and answers 0.
pub fn next_kind(rt: &HostRuntime, tape: &mut Tape) -> usize
    ensures { result < 2147483648 }
{
    match read_word(tape) {
        Some(w) => words::num(w),
        None => {
            let _ = println!(rt; "refused input");
            0
        }
    }
}

// The next word as a count, 0 for a negative one.
pub fn next_count(tape: &mut Tape) -> usize
    ensures { result < 2147483648 }
{
    words::num(next_word(tape))
}

// The next word as a count, and no more than `most`.
pub fn next_up_to(tape: &mut Tape, most: usize) -> usize
    ensures { result ≤ most }
{
    next_count(tape).min(most)
}

// The next word as a count, and the largest of all for a negative one.
pub fn next_or_largest(tape: &mut Tape) -> usize
    ensures { (nat_lt result 2147483648 || result == 18446744073709551615) ≡ true }
{
    let w = next_word(tape);
    if w < 0 {
        return 18446744073709551615;
    }
    words::num(w)
}

// The next word as a number of 32 bits, and the largest of them for a negative one.
pub fn next_id(tape: &mut Tape) -> u32
    ensures { (nat_lt result 2147483648 || result == 4294967295) ≡ true }
{
    let w = next_word(tape);
    if w < 0 {
        return 4294967295;
    }
    words::num(w) as u32
}

// The next three words as a number of 64 bits: its digits to the base 2^31, the highest first, of which no more than 64 bits are taken.
pub fn next_long(tape: &mut Tape) -> u64 {
    let high = next_count(tape) as u64;
    let middle = next_count(tape) as u64;
    let low = next_count(tape) as u64;
    (high << 62) | (middle << 31) | low
}

// The next word as a mark: whether it is above 0.
pub fn next_mark(tape: &mut Tape) -> bool {
    next_count(tape) > 0
}

// The next word as a byte, 255 for one beyond.
pub fn next_byte(tape: &mut Tape) -> u8 {
    next_up_to(tape, 255) as u8
}

// The next n words go to the first n places of `out`, each as `next` reads it. The others stay as they were.
pub fn fill<T: Copy, F: Fn(&mut Tape) -> T>(tape: &mut Tape, out: &mut [T], n: usize, next: F)
    requires within { n ≤ length out.old }
    requires callable { F.IsAlwaysCallable next }
    ensures { drop n out.new ≡ drop n out.old }
{
    for i in 0..n {
        out[i] = next(tape);
    }
}
