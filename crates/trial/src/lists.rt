// Many pairs of a list at once, and how many a list has: what each answers, and what the slots hold after it.
ghost use Rattle.std.specs.Prelude.{◌≡◌, length, take};
ghost use Rattle.list.specs.Lent.{lent_of};
ghost use Rattle.many.specs.Many.{pairs_answer, own_pairs_answer};

use crate::tape::Tape;
use crate::{leaves, pages, say, tape};
use list::{Key, Pair};
use many::{Counted, Many, Wanted, Which};

// The slots of a case, and what was answered of those lent.
#[derive(Clone, Copy)]
struct Lot {
    slots: [Pair; 256],
    many: Many,
}

fn lent_of(len: usize) -> usize
    ensures { result ≡ lent_of 256 len }
{
    list::lent_of(256, len)
}

fn with_slots(slots: [Pair; 256], many: Many) -> Lot
    ensures { result.many ≡ many }
{
    Lot { slots, many }
}

// Of the slots the first `len` are lent for the call, and come back.
fn found(
    p: &[i32],
    q: &[i32],
    owners: &[u8],
    wanted: Wanted,
    slots: [Pair; 256],
    len: usize,
    bits: &mut [u64],
) -> Lot
    ensures { result.many ≡ pairs_answer p.now q.now owners.now wanted (length (take (lent_of 256 len) slots)) (length bits.old) }
{
    let mut own = slots;
    let n = lent_of(len);
    let many = many::batch::pairs(p, q, owners, wanted, &mut own[..n], bits);
    with_slots(own, many)
}

// The same of a self join.
fn own_found(
    s: &[i32],
    key: Key,
    largest: u64,
    grid: bool,
    slots: [Pair; 256],
    len: usize,
    bits: &mut [u64],
) -> Lot
    ensures { result.many ≡ own_pairs_answer s.now key largest grid (length (take (lent_of 256 len) slots)) (length bits.old) }
{
    let mut own = slots;
    let n = lent_of(len);
    let many = many::batch::own_pairs(s, key, largest, grid, &mut own[..n], bits);
    with_slots(own, many)
}

// What was answered, how many of the slots hold their mark, and the pairs that were stored.
fn print_lot(rt: &HostRuntime, lot: Lot) {
    let r = lot.many;
    say::number(rt, r.number as u64);
    say::number(rt, r.count as u64);
    pages::print_mark(rt, r.more);
    say::number(rt, leaves::marks(&lot.slots));
    say::first_pairs(rt, &lot.slots, r.count);
}

fn print_wanted(rt: &HostRuntime, wanted: Wanted, bytes: usize, n: usize) {
    let key = wanted.key;
    say::say(rt, b"pairs");
    pages::print_key(rt, key);
    print_which(
        rt,
        wanted.largest,
        wanted.threshold,
        wanted.grid,
        wanted.contractor,
        bytes,
    );
    say::number(rt, n as u64);
    say::say(rt, b":");
}

fn print_which(
    rt: &HostRuntime,
    largest: u64,
    threshold: u32,
    grid: bool,
    contractor: u32,
    bytes: usize,
) {
    say::number(rt, largest);
    say::number(rt, threshold as u64);
    pages::print_mark(rt, grid);
    say::number(rt, contractor as u64);
    say::number(rt, bytes as u64);
}

fn pairs_asked(
    rt: &HostRuntime,
    p: &[i32],
    q: &[i32],
    owners: &[u8],
    wanted: Wanted,
    n: usize,
    bits: &mut [u64],
) {
    print_wanted(rt, wanted, owners.len(), n);
    print_lot(rt, found(p, q, owners, wanted, leaves::marked(), n, bits));
}

// A key, how many slots are lent, the largest size, a threshold, a profile and a contractor, how many owner bytes there are, and these.
pub fn pairs_case(rt: &HostRuntime, tape: &mut Tape, p: &[i32], q: &[i32], bits: &mut [u64]) {
    let key_q = tape::next_id(tape);
    let key_p = tape::next_id(tape);
    let n = tape::next_up_to(tape, 256);
    let largest = tape::next_long(tape);
    let threshold = tape::next_id(tape);
    let grid = tape::next_mark(tape);
    let contractor = tape::next_id(tape);
    let len = tape::next_up_to(tape, pages::OWNERS);
    let mut owners = [0u8; pages::OWNERS];
    tape::fill(tape, &mut owners, len, |t| tape::next_byte(t));
    let key = Key { q: key_q, p: key_p };
    let wanted = Wanted {
        key,
        largest,
        threshold,
        contractor,
        grid,
    };
    pairs_asked(rt, p, q, &owners[..len], wanted, n, bits);
}

// A key, how many slots are lent, the largest size and a profile, of a self join.
pub fn own_pairs_case(rt: &HostRuntime, tape: &mut Tape, s: &[i32], bits: &mut [u64]) {
    let key_q = tape::next_id(tape);
    let key_p = tape::next_id(tape);
    let n = tape::next_up_to(tape, 256);
    let largest = tape::next_long(tape);
    let grid = tape::next_mark(tape);
    let key = Key { q: key_q, p: key_p };
    say::say(rt, b"own pairs");
    pages::print_key(rt, key);
    say::number(rt, largest);
    pages::print_mark(rt, grid);
    say::number(rt, n as u64);
    say::say(rt, b":");
    print_lot(
        rt,
        own_found(s, key, largest, grid, leaves::marked(), n, bits),
    );
}

fn print_counted(rt: &HostRuntime, r: Counted) {
    say::say(rt, b":");
    say::number(rt, r.number as u64);
    say::number(rt, r.count);
}

// The largest size, a threshold, a profile and a contractor, how many owner bytes there are, and these.
pub fn count_case(rt: &HostRuntime, tape: &mut Tape, p: &[i32], q: &[i32], bits: &mut [u64]) {
    let largest = tape::next_long(tape);
    let threshold = tape::next_id(tape);
    let grid = tape::next_mark(tape);
    let contractor = tape::next_id(tape);
    let len = tape::next_up_to(tape, pages::OWNERS);
    let mut owners = [0u8; pages::OWNERS];
    tape::fill(tape, &mut owners, len, |t| tape::next_byte(t));
    let which = Which {
        largest,
        threshold,
        contractor,
        grid,
    };
    say::say(rt, b"count");
    print_which(rt, largest, threshold, grid, contractor, len);
    print_counted(rt, many::tally::count(p, q, &owners[..len], which, bits));
}

// The largest size and a profile, of a self join.
pub fn own_count_case(rt: &HostRuntime, tape: &mut Tape, s: &[i32], bits: &mut [u64]) {
    let largest = tape::next_long(tape);
    let grid = tape::next_mark(tape);
    say::say(rt, b"own count");
    say::number(rt, largest);
    pages::print_mark(rt, grid);
    print_counted(rt, many::tally::own_count(s, largest, grid, bits));
}
