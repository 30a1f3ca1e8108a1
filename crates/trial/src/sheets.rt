// Sheets opened, points of them read, and point lists packed.
use crate::tape::Tape;
use crate::{say, tape};

// What every lent word holds before a sheet is packed into it.
const MARK: i32 = -77;

// The most words that a stored sheet has.
const MOST: usize = 8192;

fn opened(rt: &HostRuntime, s: &[i32]) {
    say::say(rt, b"open");
    say::number(rt, ring::open::open_no(s) as u64);
    say::end_line(rt);
}

// A length and a sheet of so many words.
pub fn open_case(rt: &HostRuntime, tape: &mut Tape) {
    let n = tape::next_up_to(tape, MOST);
    let mut space = [0i32; MOST];
    tape::fill(tape, &mut space, n, tape::next_word);
    opened(rt, &space[..n]);
}

pub fn print_point(rt: &HostRuntime, r: Result<ring::Asset, u32>) {
    match r {
        Ok(a) => {
            say::number(rt, a.id as u64);
            say::signed(rt, words::wide(a.x));
            say::signed(rt, words::wide(a.y));
        }
        Err(number) => {
            say::refused(rt, number);
        }
    }
}

fn read(rt: &HostRuntime, s: &[i32], position: usize) {
    say::say(rt, b"point");
    say::number(rt, position as u64);
    say::say(rt, b":");
    print_point(rt, ring::reader::point(s, position));
    say::end_line(rt);
}

// A length, a sheet of so many words, and a position.
pub fn point_case(rt: &HostRuntime, tape: &mut Tape) {
    let n = tape::next_up_to(tape, MOST);
    let mut space = [0i32; MOST];
    tape::fill(tape, &mut space, n, tape::next_word);
    read(rt, &space[..n], tape::next_or_largest(tape));
}

fn print_words(rt: &HostRuntime, s: &[i32]) {
    for w in s {
        say::signed(rt, words::wide(*w));
    }
}

fn is_marked(s: &[i32]) -> bool {
    s.iter().all(|w| *w == MARK)
}

// A packed sheet is printed and opened; of a refused one it is said whether each lent word is as it was.
fn print_packed(rt: &HostRuntime, number: u32, out: &[i32]) {
    say::say(rt, b"pack");
    say::number(rt, number as u64);
    if number == 0 {
        say::say(rt, b" open");
        say::number(rt, ring::open::open_no(out) as u64);
        say::say(rt, b":");
        print_words(rt, out);
    } else if is_marked(out) {
        say::say(rt, b" as it was");
    } else {
        say::say(rt, b" changed");
    }
    say::end_line(rt);
}

fn packed(
    rt: &HostRuntime,
    form: u32,
    n: usize,
    points: &[i32],
    order: &[i32],
    edition: u32,
    out: &mut [i32],
) {
    let number = pack::pack(form, n, points, order, edition, out);
    print_packed(rt, number, out);
}

// A number of 64 bits, from three words.
fn next_long(tape: &mut Tape) -> usize {
    let low = tape::next_up_to(tape, 16777215);
    let middle = tape::next_up_to(tape, 16777215);
    let high = tape::next_up_to(tape, 65535);
    low + 16777216 * middle + 281474976710656 * high
}

// A form, n, how many point words and order words there are, an edition, the length of the lent output, the point words and the order words.
pub fn pack_case(rt: &HostRuntime, tape: &mut Tape) {
    let form = tape::next_id(tape);
    let n = next_long(tape);
    let np = tape::next_up_to(tape, MOST);
    let no = tape::next_up_to(tape, MOST);
    let edition = tape::next_id(tape);
    let lent = tape::next_up_to(tape, MOST);
    let mut points = [0i32; MOST];
    let mut order = [0i32; MOST];
    let mut out = [MARK; MOST];
    tape::fill(tape, &mut points, np, tape::next_word);
    tape::fill(tape, &mut order, no, tape::next_word);
    packed(
        rt,
        form,
        n,
        &points[..np],
        &order[..no],
        edition,
        &mut out[..lent],
    );
}
