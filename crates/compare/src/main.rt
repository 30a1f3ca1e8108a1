// Random pairs of sets, packed in random orders and listed page by page through the page request of either profile, key after key: every page is held to what the second
// join (`brute`) finds on the points alone, pair by pair, with its order, its number and its end mark. The same sets, divided between two contractors by random owner bytes: each
// contractor's list is held to the pairs of its own chambers, so the two together are the undivided list. And the blind test: two runs that differ in the ids of the other's chambers
// alone, packed anew, give equal requests equal pages or refusals, and leave equal words.
#![tactic(auto)]

ghost use Rattle.std.specs.Prelude.{◌<◌, ◌≤◌, length};

use brute::Found;
use chance::{drawn, line, mixed, one_more};
use list::{Key, Pair, Request, Source, Terms};

// Pairs of sets of 0 to 60 points.
const SMALL: u64 = 1200;

// Pairs of sets of 1,000 points.
const LARGE: u64 = 7;

// Pairs of sets of 0 to 60 points, one of form 2 at least.
const WIDE: u64 = 500;

// Pairs of runs of the blind test.
const BLIND: u64 = 2000;

// Requests made of each pair of runs.
const REQUESTS: u64 = 8;

// What was compared: pairs of sets with no ring pair, ring pairs, pages, last pages with no place left, and pairs of sets that went otherwise than they should.
#[derive(Clone, Copy)]
struct Tally {
    none: u64,
    pairs: u64,
    pages: u64,
    full: u64,
    wrong: u64,
}

// What list is asked for: its profile, and whether it is divided between two contractors.
#[derive(Clone, Copy)]
struct Kinds {
    grid: bool,
    divided: bool,
}

// What is counted over so many draws: each has its number, and a state of the generator that is its own.
fn over_draws<T: Copy, F: Fn(u64, u64, T) -> T>(count: u64, seed: u64, none: T, draw: F) -> T
    requires { F.IsAlwaysCallable draw }
{
    let mut all = none;
    let mut x = seed;
    for k in 0..count {
        x = mixed(x);
        all = draw(k, x, all);
    }
    all
}

// ---- points

// What the points of a set look like: how x, y and the ids are drawn; and the form of its sheet.
#[derive(Clone, Copy)]
struct Kind {
    x: usize,
    y: usize,
    id: usize,
    form: u32,
}

// A coordinate of form 2 alone: drawn from the whole range, from its ends and the middle, or always the same.
fn wide(kind: usize, v: u64) -> i32 {
    match kind {
        6 => (v % 2000000001) as i32 - 1000000000,
        7 => 500000000 * (v % 5) as i32 - 1000000000,
        _ => -1000000000,
    }
}

// A coordinate drawn from the whole range, from a small grid, from its ends and the middle, or always the same.
fn coordinate(kind: usize, x: u64) -> i32 {
    let v = x >> 20;
    match kind {
        0 => (v % 2000001) as i32 - 1000000,
        1 => (v % 6) as i32,
        2 => (v % 41) as i32 - 20,
        3 => 500000 * (v % 5) as i32 - 1000000,
        4 => (v % 1001) as i32,
        5 => -1000000,
        _ => wide(kind, v),
    }
}

// The id of position k of n: from 1 on, up to 2,000,000,000, from 1 in even steps and 2,000,000,000 the last, or anywhere.
fn id_of(kind: usize, k: usize, n: usize, x: u64) -> i32 {
    let at = (k % 1000) as i32;
    let left = (n.wrapping_sub(k) % 1001) as i32;
    match kind {
        0 => at + 1,
        1 => 2000000001 - left,
        _ if left == 1 => 2000000000,
        2 => 1 + 1900000 * at,
        _ => 1 + 1900000 * at + (x % 1900000) as i32,
    }
}

// Writes a value where there is a place for it.
fn put<T: Copy>(out: &mut [T], i: usize, v: T) {
    if i < out.len() {
        out[i] = v;
    }
}

// A point: its id, x and y.
fn put_point(out: &mut [i32], k: usize, n: usize, kind: Kind, seed: u64) -> u64
    requires { k < 1000 }
{
    let at = 3 * k;
    let a = mixed(seed);
    let b = mixed(a);
    let c = mixed(b);
    put(out, at, id_of(kind.id, k, n, a));
    put(out, at + 1, coordinate(kind.x, b));
    put(out, at + 2, coordinate(kind.y, c));
    c
}

// The points of a set of n: id, x, y, and again.
fn make_points(out: &mut [i32], n: usize, kind: Kind, seed: u64)
    requires { n ≤ 1000 }
{
    let mut x = seed;
    for k in 0..n {
        x = put_point(out, k, n, kind, x);
    }
}

// ---- sheets

// The positions as they come, or from the last.
fn put_positions(out: &mut [i32], n: usize, back: bool) {
    for k in 0..n {
        let at = if back { n - 1 - k } else { k };
        put(out, k, (at % 1000) as i32);
    }
}

// Two places exchange what they hold, where there are both.
fn exchange<T>(out: &mut [T], i: usize, j: usize) {
    if (i < out.len()) & (j < out.len()) {
        out.swap(i, j);
    }
}

fn shuffle(out: &mut [i32], n: usize, seed: u64) {
    let mut x = seed;
    for k in 0..n {
        x = mixed(x);
        exchange(out, k, drawn(x, n));
    }
}

// An order list: the positions as they come, from the last, or mixed up.
fn make_order(out: &mut [i32], n: usize, seed: u64) {
    let way = drawn(seed, 4);
    put_positions(out, n, way == 1);
    if way > 1 {
        shuffle(out, n, seed);
    }
}

// How many words a sheet of n points has, of at most 1,000.
fn sheet_len(n: usize) -> usize
    ensures { result ≤ 5482 }
{
    pack::sheet_len(n).min(5482)
}

// Packs a set into the first words of `out`, and answers the packer's number.
fn packed(form: u32, points: &[i32], n: usize, edition: u32, seed: u64, out: &mut [i32]) -> u32
    requires { (n ≤ 1000) × (5482 ≤ length out.old) }
{
    let len = sheet_len(n);
    let mut order = [0i32; 1000];
    make_order(&mut order, n, seed);
    pack::pack(form, n, points, &order[..n], edition, &mut out[..len])
}

// ---- owners

// Whether the chamber at position k is the contractor's, by its byte; for 2 all are.
fn is_mine(owners: &[u8], contractor: u32, k: usize) -> bool {
    (contractor == 2)
        | owners
            .get(k)
            .is_some_and(|b| *b == u8::from(contractor != 0))
}

// An owner: always the first contractor, always the second, or either.
fn some_owner(way: usize, x: u64) -> u8 {
    if way == 0 {
        return 0;
    }
    if (way == 1) | (drawn(x, 2) == 1) {
        return 1;
    }
    0
}

// An owner byte for each of n chambers.
fn make_owners(out: &mut [u8], n: usize, seed: u64) {
    let way = drawn(seed, 10);
    let mut x = seed;
    for owner in out.iter_mut().take(n) {
        x = mixed(x);
        *owner = some_owner(way, x);
    }
}

// ---- a page held to the second join

// The profile, the contractor, the next pair of the second join, how many a page showed, the key of the last of them, and whether all agreed.
#[derive(Clone, Copy)]
struct Turn {
    grid: bool,
    contractor: u32,
    at: Found,
    count: usize,
    last: Key,
    good: bool,
}

// The id at position k, 0 where there is none.
fn id_at(points: &[i32], k: usize) -> u32 {
    if k < points.len() / 3 {
        return words::num(points[3 * k]) as u32;
    }
    0
}

// The first pair of the second join from position j of Q and position i of P on whose chamber is the contractor's: those of the other's chambers are passed over.
fn next_mine(
    grid: bool,
    p: &[i32],
    q: &[i32],
    owners: &[u8],
    contractor: u32,
    j: usize,
    i: usize,
) -> Found {
    let n = q.len() / 3;
    let mut at = brute::next(grid, p, q, j, i);
    for _ in 0..n {
        if (n <= at.q) | is_mine(owners, contractor, at.q) {
            break;
        }
        at = brute::next(grid, p, q, at.q.wrapping_add(1), 0);
    }
    at
}

// One of the sixteen pairs of a page: the next one of the second join, or three zeros where the page is full or the list has ended.
fn paired(p: &[i32], q: &[i32], owners: &[u8], size: usize, t: Turn, shown: Pair) -> Turn {
    let at = t.at;
    if (t.count < size) & (at.q < q.len() / 3) {
        let due = Pair {
            q: id_at(q, at.q),
            p: id_at(p, at.p),
            size: brute::size_of(t.grid, p, q, at),
        };
        let from = at.p.wrapping_add(1);
        return Turn {
            at: next_mine(t.grid, p, q, owners, t.contractor, at.q, from),
            count: t.count.wrapping_add(1),
            last: list::key_of(shown),
            good: t.good & (shown == due),
            ..t
        };
    }
    let none = Pair {
        q: 0,
        p: 0,
        size: 0,
    };
    Turn {
        good: t.good & (shown == none),
        ..t
    }
}

// What list the pages are of: P's sheet has edition 7, and Q's has 9.
fn source_of(contractor: u32, grid: bool) -> Source {
    Source {
        p_edition: 7,
        q_edition: 9,
        terms: Terms {
            threshold: 0,
            contractor,
            own: false,
            grid,
        },
    }
}

// ---- a list

// Where a list stands: its profile, its contractor, the second join's next pair, the key of the next request, and what was seen so far.
#[derive(Clone, Copy)]
struct Listing {
    grid: bool,
    contractor: u32,
    at: Found,
    key: Key,
    seed: u64,
    ended: bool,
    good: bool,
    pairs: u64,
    pages: u64,
    full: bool,
}

// The next page, of a size from 1 to 16, and all that is held to the second join. Sixteen words hold the kept bits of a thousand points.
fn next_page(p: &[i32], q: &[i32], owners: &[u8], ps: &[i32], qs: &[i32], l: Listing) -> Listing {
    let size = drawn(l.seed, 16) + 1;
    let request = Request {
        key: l.key,
        size,
        threshold: 0,
        contractor: l.contractor,
        grid: l.grid,
    };
    let mut bits = [0u64; 16];
    let r = ring::pages::page(ps, qs, owners, request, &mut bits);
    let page = r.page;
    let none = Turn {
        grid: l.grid,
        contractor: l.contractor,
        at: l.at,
        count: 0,
        last: l.key,
        good: r.number == 0,
    };
    let t = page
        .pairs
        .iter()
        .fold(none, |t, v| paired(p, q, owners, size, t, *v));
    let told = (page.source == source_of(l.contractor, l.grid))
        & (page.key == l.key)
        & (page.count == t.count);
    Listing {
        at: t.at,
        key: t.last,
        seed: mixed(l.seed),
        ended: page.end,
        good: t.good & told & (page.end == (q.len() / 3 <= t.at.q)),
        pairs: l.pairs.wrapping_add(t.count as u64),
        pages: one_more(l.pages),
        full: t.count == size,
        ..l
    }
}

// The whole list, page by page, up to its end mark or the first page that is not as it should be.
fn listed(
    grid: bool,
    p: &[i32],
    q: &[i32],
    owners: &[u8],
    contractor: u32,
    ps: &[i32],
    qs: &[i32],
    seed: u64,
) -> Listing {
    let mut l = Listing {
        grid,
        contractor,
        at: next_mine(grid, p, q, owners, contractor, 0, 0),
        key: Key { q: 0, p: 0 },
        seed,
        ended: false,
        good: true,
        pairs: 0,
        pages: 0,
        full: false,
    };
    for _ in 0..1000000 {
        if l.ended | !l.good {
            break;
        }
        l = next_page(p, q, owners, ps, qs, l);
    }
    l
}

fn plus_if(n: u64, more: bool) -> u64 {
    n.wrapping_add(u64::from(more))
}

fn counted(t: Tally, l: Listing) -> Tally {
    Tally {
        none: plus_if(t.none, l.pairs == 0),
        pairs: t.pairs.wrapping_add(l.pairs),
        pages: t.pages.wrapping_add(l.pages),
        full: plus_if(t.full, l.full),
        wrong: plus_if(t.wrong, !(l.ended & l.good)),
    }
}

// ---- a pair of sets

// The undivided list of two sheets, or each contractor's.
fn all_listed(
    kinds: Kinds,
    p: &[i32],
    q: &[i32],
    nq: usize,
    ps: &[i32],
    qs: &[i32],
    seed: u64,
    t: Tally,
) -> Tally
    requires { nq ≤ 1000 }
{
    if !kinds.divided {
        return counted(t, listed(kinds.grid, p, q, b"", 2, ps, qs, seed));
    }
    let mut owners = [0u8; 1000];
    make_owners(&mut owners, nq, mixed(seed ^ 55));
    let first = listed(kinds.grid, p, q, &owners[..nq], 0, ps, qs, seed);
    let second = listed(kinds.grid, p, q, &owners[..nq], 1, ps, qs, seed);
    counted(counted(t, first), second)
}

fn compared(
    kinds: Kinds,
    p: &[i32],
    np: usize,
    p_form: u32,
    q: &[i32],
    nq: usize,
    q_form: u32,
    seed: u64,
    t: Tally,
) -> Tally
    requires { (np ≤ 1000) × (nq ≤ 1000) }
{
    let lp = sheet_len(np);
    let lq = sheet_len(nq);
    let mut ps = [0i32; 5482];
    let mut qs = [0i32; 5482];
    let a = packed(p_form, p, np, 7, seed, &mut ps);
    let b = packed(q_form, q, nq, 9, mixed(seed), &mut qs);
    if (a != 0) | (b != 0) {
        return Tally {
            wrong: one_more(t.wrong),
            ..t
        };
    }
    all_listed(kinds, p, q, nq, &ps[..lp], &qs[..lq], seed, t)
}

fn made(
    kinds: Kinds,
    np: usize,
    p_kind: Kind,
    nq: usize,
    q_kind: Kind,
    seed: u64,
    t: Tally,
) -> Tally
    requires { (np ≤ 1000) × (nq ≤ 1000) }
{
    let lp = 3 * np;
    let lq = 3 * nq;
    let p_form = p_kind.form;
    let q_form = q_kind.form;
    let mut p = [0i32; 3000];
    let mut q = [0i32; 3000];
    make_points(&mut p, np, p_kind, seed);
    make_points(&mut q, nq, q_kind, mixed(seed ^ 77));
    compared(kinds, &p[..lp], np, p_form, &q[..lq], nq, q_form, seed, t)
}

// Sets of 0 to 60 points of any kind: one in three has the coordinates of both drawn alike.
fn small(kinds: Kinds, seed: u64, t: Tally) -> Tally {
    let a = mixed(seed);
    let b = mixed(a);
    let c = mixed(b);
    let x = drawn(a >> 7, 6);
    let y = drawn(b >> 7, 6);
    let p_kind = Kind {
        x,
        y,
        id: drawn(c >> 7, 4),
        form: 1,
    };
    let other = drawn(c >> 17, 3) > 0;
    let q_kind = Kind {
        x: if other { drawn(a >> 27, 6) } else { x },
        y: if other { drawn(b >> 27, 6) } else { y },
        id: drawn(c >> 27, 4),
        form: 1,
    };
    made(kinds, drawn(a, 61), p_kind, drawn(b, 61), q_kind, c, t)
}

// Sets of 1,000 points: all over the map, on grids, and on a line.
fn large(kinds: Kinds, number: u64, seed: u64, t: Tally) -> Tally {
    let way = (number % 7) as usize;
    let x = if way < 3 { way * 2 } else { 0 };
    let y = if way == 6 { 5 } else { x };
    let p_kind = Kind {
        x,
        y,
        id: way % 4,
        form: 1,
    };
    let q_kind = Kind {
        x: if way == 5 { 4 } else { x },
        y,
        id: way / 2,
        form: 1,
    };
    made(kinds, 1000, p_kind, 1000, q_kind, mixed(seed), t)
}

// A set of form 2 that has coordinates to the ends of its range, or a set of form 1.
fn kind_of(form: u32, seed: u64) -> Kind {
    let a = mixed(seed);
    let b = mixed(a);
    let c = mixed(b);
    let second = form == 2;
    Kind {
        x: if second { drawn(a, 3) + 6 } else { drawn(a, 6) },
        y: if second { drawn(b, 3) + 6 } else { drawn(b, 6) },
        id: drawn(c, 4),
        form,
    }
}

// Sets of 0 to 60 points: both of form 2, or one of them.
fn two_forms(number: u64, seed: u64, t: Tally) -> Tally {
    let a = mixed(seed);
    let b = mixed(a);
    let c = mixed(b);
    let p_form = if number % 4 == 1 { 1 } else { 2 };
    let q_form = if number % 4 == 2 { 1 } else { 2 };
    let circle = Kinds {
        grid: false,
        divided: false,
    };
    made(
        circle,
        drawn(a, 61),
        kind_of(p_form, b),
        drawn(b, 61),
        kind_of(q_form, c),
        c,
        t,
    )
}

fn all_small(kinds: Kinds, seed: u64, t: Tally) -> Tally {
    over_draws(SMALL, seed, t, |_, x, u| small(kinds, x, u))
}

fn all_large(kinds: Kinds, seed: u64, t: Tally) -> Tally {
    over_draws(LARGE, seed, t, |k, x, u| large(kinds, k, x, u))
}

fn all_wide(seed: u64, t: Tally) -> Tally {
    over_draws(WIDE, seed, t, two_forms)
}

// ---- the blind test

// What two runs gave: pages that are equal, the pairs in them, those of a key that names a chamber of the other's, refusals that are equal by their number, runs in which positions
// moved, and requests or runs that went otherwise than they should.
#[derive(Clone, Copy)]
struct Blind {
    served: u64,
    pairs: u64,
    named: u64,
    refused: [u64; 32],
    moved: u64,
    wrong: u64,
}

// The position of the record with an id among the first n, or n.
fn position_of(points: &[i32], n: usize, id: u32) -> usize {
    (0..n).find(|&k| id_at(points, k) == id).unwrap_or(n)
}

// An id: near the lowest, near the highest, or anywhere.
fn any_id(x: u64) -> u32 {
    let v = x >> 20;
    match drawn(x, 3) {
        0 => 1 + (v % 130) as u32,
        1 => 2000000000 - (v % 130) as u32,
        _ => 1 + (v % 2000000000) as u32,
    }
}

// A new id that no record has, or where two that were drawn are met, the old one.
fn new_id(points: &[i32], n: usize, old: i32, x: u64) -> i32 {
    let first = any_id(mixed(x));
    let second = any_id(mixed(mixed(x)));
    [first, second]
        .iter()
        .find(|&id| position_of(points, n, *id) == n)
        .map_or(old, |id| id.cast_signed())
}

// A new id for the chamber at position k, where it is not the contractor's.
fn rename(points: &mut [i32], owners: &[u8], n: usize, contractor: u32, k: usize, x: u64)
    requires { k < 1000 }
{
    if !is_mine(owners, contractor, k) {
        let at = 3 * k;
        let id = new_id(points, n, words::at(points, at), x);
        put(points, at, id);
    }
}

// New ids for the chambers that are not the contractor's.
fn rename_all(points: &mut [i32], owners: &[u8], n: usize, contractor: u32, seed: u64)
    requires { n ≤ 1000 }
{
    let mut x = seed;
    for k in 0..n {
        x = mixed(x);
        rename(points, owners, n, contractor, k, x);
    }
}

// Two records that stand beside each other change places, each with its owner.
fn exchange_records(points: &mut [i32], owners: &mut [u8], k: usize)
    requires { k < 1000 }
{
    let at = 3 * k;
    exchange(points, at, at + 3);
    exchange(points, at + 1, at + 4);
    exchange(points, at + 2, at + 5);
    exchange(owners, k, k + 1);
}

// Two records that stand the wrong way round change places.
fn settle(points: &mut [i32], owners: &mut [u8], k: usize)
    requires { k < 1000 }
{
    if id_at(points, k + 1) < id_at(points, k) {
        exchange_records(points, owners, k);
    }
}

// Once through the first n records.
fn sort_once(points: &mut [i32], owners: &mut [u8], n: usize)
    requires { n ≤ 1000 }
{
    for k in 1..n {
        settle(points, owners, k - 1);
    }
}

// The first n records by their ids, each with its place and its owner.
fn sort(points: &mut [i32], owners: &mut [u8], n: usize)
    requires { n ≤ 1000 }
{
    for _ in 0..n {
        sort_once(points, owners, n);
    }
}

// The chamber's id of a key: none, one of either run, one beside it, or anything up to one past the last.
fn some_q(qs: &[i32], qt: &[i32], n: usize, x: u64) -> u32 {
    let k = drawn(mixed(x), n);
    match drawn(x, 8) {
        0 | 1 => 0,
        2..=4 => id_at(qs, k),
        5 => id_at(qt, k),
        6 => (id_at(qs, k) % 2000000001) + 1,
        _ => ((x >> 20) % 2000000002) as u32,
    }
}

fn some_threshold(x: u64) -> u32 {
    match drawn(x, 16) {
        0 => 60001,
        1..=7 => 0,
        way => (way % 4) as u32,
    }
}

fn some_request(
    ps: &[i32],
    np: usize,
    qs: &[i32],
    qt: &[i32],
    nq: usize,
    contractor: u32,
    grid: bool,
    x: u64,
) -> Request {
    let a = mixed(x);
    let b = mixed(a);
    let size = drawn(b >> 9, 20);
    Request {
        key: Key {
            q: some_q(qs, qt, nq, a),
            p: if drawn(b, 2) == 0 {
                0
            } else {
                id_at(ps, drawn(a, np))
            },
        },
        size: if size < 18 { size } else { 16 },
        threshold: some_threshold(b >> 5),
        contractor,
        grid,
    }
}

// How many of two words are lent: sometimes none, which is too few for a P that has points.
fn some_lent(x: u64) -> usize
    ensures { result ≤ 2 }
{
    if drawn(x, 9) == 0 {
        return 0;
    }
    drawn(x, 2) + 1
}

// One request, made of both runs on equal words: what is handed on, and the words after it.
fn tried(
    ps: &[i32],
    qs: &[i32],
    owners: &[u8],
    pt: &[i32],
    qt: &[i32],
    moved: &[u8],
    request: Request,
    seed: u64,
    b: Blind,
) -> Blind {
    let lent = some_lent(seed);
    let mut one = [seed; 2];
    let mut two = [seed; 2];
    let r = ring::pages::page(ps, qs, owners, request, &mut one[..lent]);
    let s = ring::pages::page(pt, qt, moved, request, &mut two[..lent]);
    let good = (r.number == s.number) & (r.page == s.page) & (one == two);
    let n = owners.len();
    let at = position_of(qs, n, request.key.q);
    let mut c = b;
    let number = r.number as usize;
    if !good {
        c.wrong = one_more(b.wrong);
    } else if r.number == 0 {
        c.served = one_more(b.served);
        c.pairs = b.pairs.wrapping_add(r.page.count as u64);
        c.named = plus_if(b.named, (at < n) & !is_mine(owners, request.contractor, at));
    } else if number < 32 {
        c.refused[number] = one_more(b.refused[number]);
    }
    c
}

// Requests of both runs, one after the other.
fn all_tried(
    ps: &[i32],
    np: usize,
    qs: &[i32],
    owners: &[u8],
    pt: &[i32],
    qt: &[i32],
    moved: &[u8],
    contractor: u32,
    grid: bool,
    seed: u64,
    b: Blind,
) -> Blind {
    let mut c = b;
    c.moved = plus_if(b.moved, owners != moved);
    over_draws(REQUESTS, seed, c, |_, x, c| {
        let request = some_request(ps, np, qs, qt, owners.len(), contractor, grid, x);
        tried(ps, qs, owners, pt, qt, moved, request, mixed(x ^ 7), c)
    })
}

// Both runs packed, each in an order of its own.
fn packed_twice(
    p: &[i32],
    np: usize,
    p_form: u32,
    q: &[i32],
    owners: &[u8],
    r: &[i32],
    moved: &[u8],
    nq: usize,
    q_form: u32,
    contractor: u32,
    grid: bool,
    seed: u64,
    b: Blind,
) -> Blind
    requires { (np ≤ 1000) × (nq ≤ 1000) }
{
    let lp = sheet_len(np);
    let lq = sheet_len(nq);
    let mut ps = [0i32; 5482];
    let mut qs = [0i32; 5482];
    let mut pt = [0i32; 5482];
    let mut qt = [0i32; 5482];
    let first = packed(p_form, p, np, 7, seed, &mut ps)
        | packed(q_form, q, nq, 9, mixed(seed), &mut qs);
    let second = packed(p_form, p, np, 7, mixed(seed ^ 3), &mut pt)
        | packed(q_form, r, nq, 9, mixed(seed ^ 9), &mut qt);
    if (first | second) != 0 {
        return Blind {
            wrong: one_more(b.wrong),
            ..b
        };
    }
    all_tried(
        &ps[..lp],
        np,
        &qs[..lq],
        owners,
        &pt[..lp],
        &qt[..lq],
        moved,
        contractor,
        grid,
        mixed(seed ^ 11),
        b,
    )
}

// The owners of both runs; now and then one is nobody.
fn share_out(out: &mut [u8], n: usize, seed: u64) {
    make_owners(out, n, mixed(seed ^ 55));
    if drawn(seed, 24) == 0 {
        put(out, drawn(mixed(seed), n), 2);
    }
}

// The ids of the other's chambers drawn anew, and the records by their ids.
fn renumber(
    points: &mut [i32],
    moved: &mut [u8],
    owners: &[u8],
    n: usize,
    contractor: u32,
    seed: u64,
)
    requires { n ≤ 1000 }
{
    rename_all(points, owners, n, contractor, seed);
    sort(points, moved, n);
}

// The second run: the same chambers and owners, with the other's ids drawn anew.
fn second_run(
    p: &[i32],
    np: usize,
    p_form: u32,
    q: &[i32],
    owners: &[u8],
    nq: usize,
    q_kind: Kind,
    contractor: u32,
    grid: bool,
    seed: u64,
    b: Blind,
) -> Blind
    requires { (np ≤ 1000) × (nq ≤ 1000) }
{
    let lq = 3 * nq;
    let q_form = q_kind.form;
    let mut r = [0i32; 3000];
    let mut moved = [0u8; 1000];
    make_points(&mut r, nq, q_kind, mixed(seed ^ 77));
    share_out(&mut moved, nq, seed);
    renumber(&mut r, &mut moved, owners, nq, contractor, mixed(seed ^ 33));
    packed_twice(
        p,
        np,
        p_form,
        q,
        owners,
        &r[..lq],
        &moved[..nq],
        nq,
        q_form,
        contractor,
        grid,
        seed,
        b,
    )
}

// The first run: sets that are divided between the contractors.
fn first_run(
    np: usize,
    p_kind: Kind,
    nq: usize,
    q_kind: Kind,
    contractor: u32,
    grid: bool,
    seed: u64,
    b: Blind,
) -> Blind
    requires { (np ≤ 1000) × (nq ≤ 1000) }
{
    let lp = 3 * np;
    let lq = 3 * nq;
    let p_form = p_kind.form;
    let mut p = [0i32; 3000];
    let mut q = [0i32; 3000];
    let mut owners = [0u8; 1000];
    make_points(&mut p, np, p_kind, seed);
    make_points(&mut q, nq, q_kind, mixed(seed ^ 77));
    share_out(&mut owners, nq, seed);
    second_run(
        &p[..lp],
        np,
        p_form,
        &q[..lq],
        &owners[..nq],
        nq,
        q_kind,
        contractor,
        grid,
        seed,
        b,
    )
}

// Either contractor, either profile, and now and then a sheet of form 2.
fn some_runs(number: u64, seed: u64, b: Blind) -> Blind {
    let x = mixed(seed);
    let y = mixed(x);
    let z = mixed(y);
    let p_form = if number % 16 == 5 { 2 } else { 1 };
    let q_form = if number % 16 == 10 { 2 } else { 1 };
    let contractor = if number % 2 == 0 { 0 } else { 1 };
    first_run(
        drawn(x, 61),
        kind_of(p_form, y),
        drawn(y, 61),
        kind_of(q_form, z),
        contractor,
        drawn(z, 2) == 1,
        z,
        b,
    )
}

fn all_blind(seed: u64) -> Blind {
    let none = Blind {
        served: 0,
        pairs: 0,
        named: 0,
        refused: [0; 32],
        moved: 0,
        wrong: 0,
    };
    over_draws(BLIND, seed, none, some_runs)
}

// ---- what is written

fn print_tally(rt: &impl Print, t: Tally) {
    line(rt, b"without a ring pair", t.none);
    line(rt, b"ring pairs", t.pairs);
    line(rt, b"pages", t.pages);
    line(rt, b"last pages that are full", t.full);
    if t.wrong == 0 {
        let _ = rt.write_all(b"agree\n");
        return;
    }
    line(rt, b"otherwise", t.wrong);
}

fn print_blind(rt: &impl Print, b: Blind) {
    line(rt, b"pages that are equal", b.served);
    line(rt, b"pairs in them", b.pairs);
    line(rt, b"of keys that name a chamber of the other's", b.named);
    line(rt, b"equal refusals 26", b.refused[26]);
    line(rt, b"equal refusals 29", b.refused[29]);
    line(rt, b"equal refusals 9", b.refused[9]);
    line(rt, b"equal refusals 10", b.refused[10]);
    line(rt, b"equal refusals 21", b.refused[21]);
    line(rt, b"equal refusals 24", b.refused[24]);
    line(rt, b"runs in which positions moved", b.moved);
    line(rt, b"otherwise", b.wrong);
}

fn main(rt: HostRuntime) {
    let none = Tally {
        none: 0,
        pairs: 0,
        pages: 0,
        full: 0,
        wrong: 0,
    };
    let circle = Kinds {
        grid: false,
        divided: false,
    };
    let streets = Kinds {
        grid: true,
        divided: false,
    };
    let two_circles = Kinds {
        grid: false,
        divided: true,
    };
    let two_streets = Kinds {
        grid: true,
        divided: true,
    };
    line(&rt, b"pairs of sets of 0 to 60 points", SMALL);
    print_tally(&rt, all_small(circle, 88172645463325252, none));
    line(&rt, b"pairs of sets of 1,000 points", LARGE);
    print_tally(&rt, all_large(circle, 2463534242, none));
    line(
        &rt,
        b"pairs of sets of 0 to 60 points, of form 2 and mixed",
        WIDE,
    );
    print_tally(&rt, all_wide(362436069, none));
    line(&rt, b"street grid: pairs of sets of 0 to 60 points", SMALL);
    print_tally(&rt, all_small(streets, 521288629, none));
    line(&rt, b"street grid: pairs of sets of 1,000 points", LARGE);
    print_tally(&rt, all_large(streets, 88675123, none));
    line(
        &rt,
        b"two contractors: the first pairs of sets of 0 to 60 points",
        SMALL,
    );
    print_tally(&rt, all_small(two_circles, 88172645463325252, none));
    line(
        &rt,
        b"two contractors, street grid: the pairs of sets of 0 to 60 points there",
        SMALL,
    );
    print_tally(&rt, all_small(two_streets, 521288629, none));
    line(
        &rt,
        b"two runs that differ in the ids of the other's chambers",
        BLIND,
    );
    print_blind(&rt, all_blind(5783321));
}
