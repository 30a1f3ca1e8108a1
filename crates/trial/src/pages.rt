// Pages of two sheets and of a self join, and whether a chamber has so many partners.
use crate::tape::Tape;
use crate::{say, tape};
use list::Request;

// The most owner bytes that a request has.
pub const OWNERS: usize = 2048;

pub fn print_key(rt: &HostRuntime, k: list::Key) {
    say::number(rt, k.q as u64);
    say::number(rt, k.p as u64);
}

pub fn print_mark(rt: &HostRuntime, set: bool) {
    say::number(rt, u64::from(set));
}

fn print_page(rt: &HostRuntime, page: list::Page) {
    let source = page.source;
    say::number(rt, source.p_edition as u64);
    say::number(rt, source.q_edition as u64);
    say::number(rt, source.terms.threshold as u64);
    say::number(rt, source.terms.contractor as u64);
    print_mark(rt, source.terms.own);
    print_mark(rt, source.terms.grid);
    print_key(rt, page.key);
    say::number(rt, page.count as u64);
    print_mark(rt, page.end);
    say::pairs(rt, &page.pairs);
}

// A request, the number of its owner bytes, and the page that it asks for.
fn paged(
    rt: &HostRuntime,
    p: &[i32],
    q: &[i32],
    owners: &[u8],
    request: Request,
    bits: &mut [u64],
) {
    say::say(rt, b"page");
    print_key(rt, request.key);
    say::number(rt, request.size as u64);
    say::number(rt, request.threshold as u64);
    print_mark(rt, request.grid);
    say::number(rt, request.contractor as u64);
    say::number(rt, owners.len() as u64);
    say::say(rt, b":");
    let r = ring::pages::page(p, q, owners, request, bits);
    say::number(rt, r.number as u64);
    say::number(rt, r.opened);
    print_page(rt, r.page);
}

// A key, a size, a threshold, a profile and a contractor, how many owner bytes there are, and these.
pub fn page_case(rt: &HostRuntime, tape: &mut Tape, p: &[i32], q: &[i32], bits: &mut [u64]) {
    let key_q = tape::next_id(tape);
    let key_p = tape::next_id(tape);
    let size = tape::next_or_largest(tape);
    let threshold = tape::next_id(tape);
    let grid = tape::next_mark(tape);
    let contractor = tape::next_id(tape);
    let n = tape::next_up_to(tape, OWNERS);
    let mut owners = [0u8; OWNERS];
    tape::fill(tape, &mut owners, n, |t| tape::next_byte(t));
    let key = list::Key { q: key_q, p: key_p };
    let request = Request {
        key,
        size,
        threshold,
        contractor,
        grid,
    };
    paged(rt, p, q, &owners[..n], request, bits);
}

// A key, a size and a profile, and the page of the self join that they ask for.
pub fn own_case(rt: &HostRuntime, tape: &mut Tape, s: &[i32], bits: &mut [u64]) {
    let key_q = tape::next_id(tape);
    let key_p = tape::next_id(tape);
    let size = tape::next_or_largest(tape);
    let grid = tape::next_mark(tape);
    let key = list::Key { q: key_q, p: key_p };
    say::say(rt, b"own");
    print_key(rt, key);
    say::number(rt, size as u64);
    print_mark(rt, grid);
    say::say(rt, b":");
    let r = ring::own::own_page(s, key, size, grid, bits);
    say::number(rt, r.number as u64);
    say::number(rt, r.opened);
    print_page(rt, r.page);
}

// The id of a chamber and a t, and whether it has so many partners.
pub fn partners_case(rt: &HostRuntime, tape: &mut Tape, p: &[i32], q: &[i32], bits: &mut [u64]) {
    let id = tape::next_id(tape);
    let t = tape::next_id(tape);
    say::say(rt, b"partners");
    say::number(rt, id as u64);
    say::number(rt, t as u64);
    say::say(rt, b":");
    let r = ring::least::partners(p, q, id, t, bits);
    say::number(rt, r.number as u64);
    say::number(rt, r.count as u64);
    print_mark(rt, r.enough);
}
