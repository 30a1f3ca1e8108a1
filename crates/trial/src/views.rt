// Calls through views: over sheets, over changed sheets, over parts of a sheet and no words, and of views that claim counts which are not their sheet's.
ghost use Rattle.std.specs.Prelude.{◌≤◌};

use crate::tape::Tape;
use crate::{say, tape};
use list::{Key, Page, Request};
use nearest::Found;
use ring::{Asset, Filtered, Head, Paged};
use view::Sheet;
use walk::Answer;

fn show_head(rt: &HostRuntime, h: Head) {
    say::say(rt, b"open");
    say::number(rt, h.number as u64);
    say::number(rt, h.len as u64);
    say::number(rt, h.n as u64);
    say::number(rt, h.m as u64);
}

fn show_filter(rt: &HostRuntime, f: Filtered) {
    say::say(rt, b"filter");
    say::number(rt, f.number as u64);
    say::number(rt, f.count as u64);
    say::number(rt, f.opened);
}

fn show_answer(rt: &HostRuntime, a: Answer) {
    let h = a.hit;
    crate::walks::print_hit(rt, h);
    say::say(rt, b", opened");
    say::number(rt, a.opened);
}

fn show_point(rt: &HostRuntime, a: Result<Asset, u32>) {
    say::say(rt, b"point");
    crate::sheets::print_point(rt, a);
}

fn show_walk(rt: &HostRuntime, w: Result<Answer, u32>) {
    say::say(rt, b"ring");
    match w {
        Ok(a) => show_answer(rt, a),
        Err(no) => say::refused(rt, no),
    }
}

fn show_pairs(rt: &HostRuntime, g: Page) {
    say::number(rt, g.count as u64);
    say::say(rt, b" of");
    say::number(rt, g.source.terms.contractor as u64);
    if g.source.terms.grid {
        say::say(rt, b" grid");
    }
    if g.end {
        say::say(rt, b" end");
    }
    say::pair(rt, g.pairs[0]);
    say::pair(rt, g.pairs[1]);
    say::pair(rt, g.pairs[15]);
}

fn show_page(rt: &HostRuntime, a: Paged) {
    say::say(rt, b"page");
    say::number(rt, a.number as u64);
    say::number(rt, a.opened);
    show_pairs(rt, a.page);
}

fn show_found(rt: &HostRuntime, f: Found) {
    say::say(rt, b"nearest");
    say::number(rt, f.number as u64);
    say::number(rt, f.count as u64);
    crate::near::print_near(rt, f.points[0]);
    crate::near::print_near(rt, f.points[1]);
    crate::near::print_near(rt, f.points[15]);
}

fn show_waiting(rt: &HostRuntime, numbers: [u64; 4]) {
    say::say(rt, b" numbers");
    for n in &numbers {
        say::number(rt, *n);
    }
}

// The pump houses nearest to a chamber where so many of four numbers are lent, then all four.
fn ask_near(rt: &HostRuntime, p: Sheet, q: Sheet, id: u32, size: usize, lent: usize)
    requires { lent ≤ 4 }
{
    let mut waiting: [u64; 4] = [7, 8, 9, 10];
    show_found(rt, view::nearest_at(p, q, id, size, &mut waiting[..lent]));
    show_waiting(rt, waiting);
}

// A page from a key: its contractor, how many owner bytes there are, and these.
fn ask_page(
    rt: &HostRuntime,
    tape: &mut Tape,
    p: Sheet,
    q: Sheet,
    key: Key,
    size: usize,
    grid: bool,
    bits: &mut [u64],
) {
    let contractor = tape::next_id(tape);
    let n = tape::next_up_to(tape, crate::pages::OWNERS);
    let mut owners = [0u8; crate::pages::OWNERS];
    tape::fill(tape, &mut owners, n, |t| tape::next_byte(t));
    let request = Request {
        key,
        size,
        threshold: 0,
        contractor,
        grid,
    };
    show_page(rt, view::page_at(p, q, &owners[..n], request, bits));
}

// The counts that a view of the words claims.
fn next_sheet<'a>(tape: &mut Tape, words: &'a [i32]) -> Sheet<'a> {
    let n = tape::next_or_largest(tape);
    let m = tape::next_or_largest(tape);
    Sheet { words, n, m }
}

// Which call, the counts that the views of P and of Q claim, two positions or ids, a size, and a profile. A call that does not take one of these reads it all the same. The answers
// on these views are those of the words alone, whatever the views claim.
pub fn view_case(rt: &HostRuntime, tape: &mut Tape, p: &[i32], q: &[i32], bits: &mut [u64]) {
    let call = tape::next_count(tape);
    let of_p = next_sheet(tape, p);
    let of_q = next_sheet(tape, q);
    let a = tape::next_id(tape);
    let b = tape::next_id(tape);
    let size = tape::next_or_largest(tape);
    let grid = tape::next_mark(tape);
    let (j, i) = (a as usize, b as usize);
    match call {
        1 => show_head(rt, view::open_head(p)),
        2 => show_point(rt, view::point_opened(p, j)),
        3 => show_point(rt, view::point_at(of_p, j)),
        4 => show_filter(rt, view::filter_walk_at(of_p, of_q, j, bits)),
        5 => show_walk(rt, view::ring_walk_at(of_p, of_q, j, i, grid)),
        6 => {
            let key = Key { q: a, p: b };
            ask_page(rt, tape, of_p, of_q, key, size, grid, bits);
        }
        7 => ask_near(rt, of_p, of_q, a, size, 4),
        _ => ask_near(rt, of_p, of_q, a, size, 2),
    }
}
