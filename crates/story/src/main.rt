// Histories of a book of either profile, of a contractor or undivided, played through `take` and `next_key` on slices of many lengths: pages early, late, repeated, of another kind,
// contractor, profile, edition, threshold and key, and broken by hand. After each call the number, the state, every slot and the next key are held to a plain list and to a second reading of the rules.
#![tactic(auto)]

use book::Book;
use chance::{drawn, line, mixed, one_more};
use list::{Key, Page, Pair, Source, Terms};

const HISTORIES: u64 = 1000;

const CALLS: u64 = 40;

// How often each number was answered, how many books closed, how many of them full before and by an empty page, and how many calls went otherwise than they should.
#[derive(Clone, Copy)]
struct Tally {
    counts: [u64; 32],
    closed: u64,
    full: u64,
    wrong: u64,
}

// One history: the list and how long it is, the slots and how many are lent, the book, a page from before, and the generator's state.
#[derive(Clone, Copy)]
struct Game {
    list: [Pair; 64],
    n: usize,
    slots: [Pair; 64],
    len: usize,
    book: Book,
    kept: Page,
    seed: u64,
    tally: Tally,
}

// ---- the list and its pages

fn source_of(
    p_edition: u32,
    q_edition: u32,
    threshold: u32,
    contractor: u32,
    own: bool,
    grid: bool,
) -> Source {
    Source {
        p_edition,
        q_edition,
        terms: Terms {
            threshold,
            contractor,
            own,
            grid,
        },
    }
}

// The largest size of a pair of the circle, and of the street grid.
fn most_of(grid: bool) -> u64 {
    if grid {
        16000000000000
    } else {
        8000000000000000000
    }
}

// The next pair, of a size of its own: every ninth has the largest.
fn pair_after(v: Pair, step: u32, most: u64) -> Pair {
    let size = if v.size < most {
        v.size.wrapping_add(most / 8)
    } else {
        0
    };
    if v.p < step {
        return Pair {
            p: v.p + 1,
            size,
            ..v
        };
    }
    Pair {
        q: v.q.wrapping_add(3),
        p: 1,
        size,
    }
}

// n pairs, ascending, of at most `step` to a chamber.
fn made_list(n: usize, step: u32, grid: bool) -> [Pair; 64] {
    let most = most_of(grid);
    let mut l = [Pair {
        q: 0,
        p: 0,
        size: 0,
    }; 64];
    let mut v = Pair {
        q: 5,
        p: 1,
        size: 0,
    };
    for w in l.iter_mut().take(n) {
        *w = v;
        v = pair_after(v, step, most);
    }
    l
}

fn empty_page(source: Source, key: Key) -> Page {
    let none = Pair {
        q: 0,
        p: 0,
        size: 0,
    };
    Page {
        source,
        key,
        count: 0,
        end: true,
        pairs: [none; 16],
    }
}

// A page with one pair more, if that follows its key: the end mark goes where there is no place left for it.
fn with_pair(g: Page, v: Pair, size: usize) -> Page {
    if !list::is_after(g.key, list::key_of(v)) {
        return g;
    }
    let mut h = g;
    let n = g.count;
    if (n < size) & (n < 16) {
        h.pairs[n] = v;
        h.count = n + 1;
    } else {
        h.end = false;
    }
    h
}

// The page of the first n pairs of a list.
fn page_after(l: &[Pair; 64], n: usize, source: Source, key: Key, size: usize) -> Page {
    l.iter()
        .take(n)
        .fold(empty_page(source, key), |g, v| with_pair(g, *v, size))
}

// ---- what should be answered

// The key of the last held pair.
fn last_key(slots: &[Pair; 64], held: usize) -> Key {
    slots
        .get(held.wrapping_sub(1))
        .map_or(Key { q: 0, p: 0 }, |v| list::key_of(*v))
}

fn rank(k: Key) -> u64 {
    (k.q as u64) * 4294967296 + (k.p as u64)
}

fn is_id(k: u32) -> bool {
    (k != 0) & (k <= 2000000000)
}

// Whether the pairs that a page counts have a bad id or size, or do not ascend from its key.
fn has_bad(g: Page) -> bool {
    let most = most_of(g.source.terms.grid);
    let mut last = rank(g.key);
    for v in g.pairs.iter().take(g.count) {
        let k = list::key_of(*v);
        if !is_id(k.q) | !is_id(k.p) | (most < v.size) | (rank(k) <= last) {
            return true;
        }
        last = rank(k);
    }
    false
}

fn is_edition(a: Source, b: Source) -> bool {
    (a.p_edition == b.p_edition) & (a.q_edition == b.q_edition)
}

// The number of refusal, read from the rules a second time.
fn expected(b: Book, len: usize, last: Key, g: Page) -> u32 {
    let held = b.held;
    let own = b.source;
    let other = g.source;
    if held > len {
        return 11;
    }
    if b.closed {
        return 12;
    }
    if own.terms.own != other.terms.own {
        return 22;
    }
    if own.terms.contractor != other.terms.contractor {
        return 28;
    }
    if own.terms.grid != other.terms.grid {
        return 30;
    }
    if !is_edition(own, other) {
        return 13;
    }
    if own != other {
        return 31;
    }
    if rank(g.key) != rank(last) {
        return 14;
    }
    if (g.count > 16) | has_bad(g) | ((g.count == 0) & !g.end) {
        return 15;
    }
    if g.count > len - held {
        return 16;
    }
    0
}

// ---- what should stand

// Whether two rows of slots are the same from `from` up to `to`.
fn is_same(old: &[Pair; 64], new: &[Pair; 64], from: usize, to: usize) -> bool {
    old.iter()
        .zip(new.iter())
        .take(to)
        .skip(from)
        .all(|(a, b)| a == b)
}

fn is_book(b: Book, held: usize, closed: bool, source: Source) -> bool {
    (b.held == held) & (b.closed == closed) & (b.source == source)
}

// Whether a page left the book as it should.
fn is_on(b: Book, c: Book, number: u32, g: Page) -> bool {
    if number == 0 {
        return is_book(c, b.held.wrapping_add(g.count), g.end, b.source);
    }
    is_book(c, b.held, b.closed, b.source)
}

// Whether the next key is the last held pair, and the book comes back.
fn is_next(slots: [Pair; 64], len: usize, b: Book) -> bool {
    let a = book::next_array(slots, len, b);
    let c = a.book;
    let back = is_book(c, b.held, b.closed, b.source);
    let next = a.next;
    match next {
        Ok(k) => back & (b.held <= len) & (rank(k) == rank(last_key(&slots, b.held))),
        Err(m) => back & (b.held > len) & (m == 11),
    }
}

// ---- a call

fn plus_if(n: u64, more: bool) -> u64 {
    n.wrapping_add(u64::from(more))
}

fn counted(t: Tally, number: u32, good: bool, closes: bool, full: bool) -> Tally {
    let mut u = t;
    if let Some(n) = u.counts.get_mut(number as usize) {
        *n = one_more(*n);
    }
    u.wrong = plus_if(u.wrong, !good);
    u.closed = plus_if(u.closed, closes);
    u.full = plus_if(u.full, closes & full);
    u
}

// A page handed to the book with `lent` slots, and all that is then checked.
fn called(g: Game, lent: usize, page: Page) -> Game {
    let b = g.book;
    let number = expected(b, lent, last_key(&g.slots, b.held), page);
    let r = book::take_array(g.slots, lent, b, page);
    let t = r.taken;
    let c = t.book;
    let told = (t.number == number) & is_on(b, c, number, page);
    let kept = is_same(&g.slots, &r.slots, 0, b.held) & is_same(&g.slots, &r.slots, c.held, 64);
    let stands = is_same(&r.slots, &g.list, 0, c.held);
    let good = told & kept & stands & is_next(r.slots, lent, c);
    Game {
        slots: r.slots,
        book: c,
        kept: page,
        seed: mixed(g.seed),
        tally: counted(
            g.tally,
            t.number,
            good,
            c.closed & !b.closed,
            b.held == lent,
        ),
        ..g
    }
}

// ---- pages of each kind

// The page that answers the book's own next request.
fn own_page(g: Game) -> Page {
    let key = last_key(&g.slots, g.book.held);
    page_after(&g.list, g.n, g.book.source, key, drawn(g.seed, 7) + 1)
}

// A page after some pair of the list, or after (0, 0).
fn other_page(g: Game) -> Page {
    let key = last_key(&g.list, drawn(g.seed, 61));
    page_after(&g.list, g.n, g.book.source, key, drawn(g.seed, 16) + 1)
}

// One of the other two of 0, 1 and 2: the next, or the one after it.
fn another(contractor: u32, step: u32) -> u32 {
    (contractor % 3 + step % 3) % 3
}

// Another list, in one of eight ways: of the other kind, also with the rest other; of another contractor, alone and with another profile and edition; of the other profile, alone and
// with another edition; of another edition and threshold; of a threshold that no book here has.
fn other_source(s: Source, way: usize) -> Source {
    let t = s.terms;
    let c = t.contractor;
    match way {
        0 => source_of(8, 8, 0, another(c, 1), !t.own, !t.grid),
        1 => source_of(8, 8, 0, 2, !t.own, t.grid),
        2 => source_of(7, 9, t.threshold, another(c, 1), t.own, t.grid),
        3 => source_of(8, 9, t.threshold, another(c, 2), t.own, !t.grid),
        4 => source_of(7, 9, t.threshold, c, t.own, !t.grid),
        5 => source_of(8, 9, t.threshold, c, t.own, !t.grid),
        6 => source_of(8, 9, 1, c, t.own, t.grid),
        _ => source_of(7, 9, 3, c, t.own, t.grid),
    }
}

fn of_other_list(g: Page, way: usize) -> Page {
    Page {
        source: other_source(g.source, way),
        ..g
    }
}

// A page that shows pairs and hides the end mark.
fn unmarked(g: Page) -> Page {
    Page {
        end: g.end & (g.count == 0),
        ..g
    }
}

// A page broken by hand, in one of eight ways.
fn broken(g: Page, way: usize) -> Page {
    let mut h = g;
    match way {
        0 => h.count = 17,
        1 => {
            h.pairs[0] = Pair {
                q: 0,
                p: 1,
                size: 2,
            }
        }
        2 => {
            h.pairs[0] = Pair {
                q: 2000000001,
                p: 1,
                size: 2,
            }
        }
        3 => {
            h.pairs[0] = Pair {
                q: g.key.q,
                p: g.key.p,
                size: 2,
            }
        }
        4 => h.pairs[0].size = most_of(g.source.terms.grid).wrapping_add(1),
        5 => h.pairs[1] = h.pairs[0],
        6 => h.pairs[0].size = 8000000000000000001,
        _ => {
            h.count = 0;
            h.end = false;
        }
    }
    h
}

// The page of a kind: the book's own, one from before, one of another key, and the faults by themselves and in pairs.
fn page_of(g: Game, kind: usize) -> Page {
    let way = drawn(mixed(g.seed), 8);
    match kind {
        0..=2 => unmarked(own_page(g)),
        8 => of_other_list(own_page(g), way),
        9 => other_page(g),
        10 => g.kept,
        11 | 14 => broken(own_page(g), way),
        12 => broken(other_page(g), way),
        13 => of_other_list(broken(other_page(g), way), way),
        _ => own_page(g),
    }
}

// How many slots are lent: those of the history, or fewer than the page needs, or fewer than are held.
fn lent_to(g: Game, kind: usize) -> usize {
    let held = g.book.held;
    match kind {
        6 | 14 => held.wrapping_add(drawn(g.seed, 2)),
        7 if 0 < held => drawn(g.seed, held),
        _ => g.len,
    }
}

// A longer slice from now on, where the kind says so.
fn grown(g: Game, kind: usize) -> Game {
    let mut h = g;
    if kind == 15 {
        h.len = g.len.wrapping_add(drawn(g.seed, 12)).min(64);
    }
    h
}

fn stepped(g: Game) -> Game {
    let kind = drawn(g.seed, 16);
    let h = grown(g, kind);
    called(h, lent_to(h, kind), page_of(h, kind))
}

// ---- a history

fn is_refused(source: Source, number: u32) -> bool {
    match Book::begin(source) {
        Ok(_) => false,
        Err(m) => m == number,
    }
}

// A book begun, with nothing held: one begun before changes nothing of that.
fn begun(source: Source) -> Book {
    match Book::begin(source) {
        Ok(b) => b,
        Err(_) => Book {
            held: 64,
            closed: true,
            source,
        },
    }
}

// The length of the first slice: any, or just that of the list.
fn first_len(seed: u64, n: usize) -> usize {
    if drawn(seed, 3) == 0 {
        return n;
    }
    drawn(mixed(seed), 65)
}

fn some_threshold(seed: u64) -> u32 {
    match drawn(seed, 3) {
        0 => 0,
        1 => 2,
        _ => 60000,
    }
}

// Whether a book is begun of a self join that is undivided, and the first number that applies is given else: 3, then 21, then 27.
fn is_begin(grid: bool) -> bool {
    let whole = source_of(7, 7, 0, 2, true, grid);
    is_book(begun(whole), 0, false, whole)
        & is_refused(source_of(1000000001, 9, 60001, 3, false, grid), 3)
        & is_refused(source_of(7, 9, 60001, 3, false, grid), 21)
        & is_refused(source_of(7, 9, 0, 3, false, grid), 27)
        & is_refused(source_of(7, 9, 1, 0, true, grid), 3)
        & is_refused(source_of(7, 7, 1, 0, true, grid), 21)
        & is_refused(source_of(7, 7, 0, 0, true, grid), 27)
        & is_refused(source_of(7, 7, 0, 1, true, grid), 27)
        & is_refused(source_of(7, 7, 0, 3, true, grid), 27)
}

fn opened(seed: u64, tally: Tally) -> Game {
    let n = drawn(seed, 61);
    let grid = drawn(mixed(seed) >> 9, 2) == 1;
    let threshold = some_threshold(mixed(seed));
    let contractor = drawn(mixed(seed) >> 5, 3) as u32;
    let source = source_of(7, 9, threshold, contractor, false, grid);
    let b = begun(source);
    let good = is_book(b, 0, false, source) & is_begin(grid);
    Game {
        list: made_list(n, 4, grid),
        n,
        slots: [Pair {
            q: 77,
            p: 77,
            size: 77,
        }; 64],
        len: first_len(mixed(seed), n),
        book: b,
        kept: empty_page(source, Key { q: 0, p: 0 }),
        seed: mixed(mixed(seed)),
        tally: Tally {
            wrong: plus_if(tally.wrong, !good),
            ..tally
        },
    }
}

fn played(seed: u64, tally: Tally) -> Game {
    let mut g = opened(seed, tally);
    for _ in 0..CALLS {
        g = stepped(g);
    }
    g
}

// ---- what is written

// All that was counted.
fn report(rt: &impl Print, t: Tally) {
    line(rt, b"histories", HISTORIES);
    line(rt, b"taken", t.counts[0]);
    line(rt, b"refused 11", t.counts[11]);
    line(rt, b"refused 12", t.counts[12]);
    line(rt, b"refused 22", t.counts[22]);
    line(rt, b"refused 28", t.counts[28]);
    line(rt, b"refused 30", t.counts[30]);
    line(rt, b"refused 13", t.counts[13]);
    line(rt, b"refused 31", t.counts[31]);
    line(rt, b"refused 14", t.counts[14]);
    line(rt, b"refused 15", t.counts[15]);
    line(rt, b"refused 16", t.counts[16]);
    line(rt, b"closed", t.closed);
    line(rt, b"closed when full", t.full);
    line(rt, b"otherwise", t.wrong);
}

fn main(rt: HostRuntime) {
    let mut t = Tally {
        counts: [0; 32],
        closed: 0,
        full: 0,
        wrong: 0,
    };
    let mut seed: u64 = 88172645463325252;
    for _ in 0..HISTORIES {
        let g = played(seed, t);
        t = g.tally;
        seed = mixed(g.seed);
    }
    report(&rt, t);
}
