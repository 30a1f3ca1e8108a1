// Histories of a depot, played through `forms` and `take` on slices of many lengths: forms of six books lost, repeated and reordered, in depots that are full or lent too few slots,
// forms that differ in one part of the key or in the size alone, and two faults together. After each call the outcome, the state and every slot are held to a plain list and to a
// second reading of the rules.
#![tactic(auto)]

use book::Book;
use chance::{drawn, line, mixed, one_more};
use depot::{Depot, Form, Receipt};
use list::{Pair, Source, Terms};

const HISTORIES: u64 = 500;

const CALLS: u64 = 60;

// The books of a history.
const BOOKS: usize = 6;

// How often each outcome was answered, how many forms were made and how often making was refused, and how many calls went otherwise than they should.
#[derive(Clone, Copy)]
struct Tally {
    issued: u64,
    known: u64,
    refused: [u64; 32],
    made: u64,
    unmade: [u64; 32],
    wrong: u64,
}

// One history: how many pairs each book holds, the slots and how many are lent, the depot, the plain list beside it, and the generator's state.
#[derive(Clone, Copy)]
struct Game {
    n: usize,
    slots: [Form; 64],
    len: usize,
    depot: Depot,
    plain: [Form; 64],
    many: usize,
    seed: u64,
    tally: Tally,
}

// ---- the books' pairs

fn pair_after(v: Pair, step: u32) -> Pair {
    let size = v.size.wrapping_add(1000000000000000000) % 9000000000000000000;
    if v.p < step {
        return Pair {
            p: v.p + 1,
            size,
            ..v
        };
    }
    Pair {
        q: v.q.wrapping_add(3),
        p: 1,
        size,
    }
}

// 64 pairs, ascending, of at most `step` to a chamber.
fn made_pairs(step: u32) -> [Pair; 64] {
    let mut l = [Pair {
        q: 0,
        p: 0,
        size: 0,
    }; 64];
    let mut v = Pair {
        q: 5,
        p: 1,
        size: 0,
    };
    for w in l.iter_mut() {
        *w = v;
        v = pair_after(v, step);
    }
    l
}

fn blank() -> Form {
    Form {
        p_edition: 77,
        q_edition: 77,
        own: true,
        contractor: 77,
        grid: true,
        q: 77,
        p: 77,
        size: 77,
    }
}

// ---- the key, read a second time

// All but the size.
fn is_key(a: Form, b: Form) -> bool {
    a == (Form { size: a.size, ..b })
}

fn is_out(f: Form) -> bool {
    !(1..=1000000000).contains(&f.p_edition)
        | !(1..=1000000000).contains(&f.q_edition)
        | (2 < f.contractor)
        | !(1..=2000000000).contains(&f.q)
        | !(1..=2000000000).contains(&f.p)
}

// Whether one of the first forms of a list has the key.
fn has_key(l: &[Form; 64], many: usize, f: Form) -> bool {
    l.iter().take(many).any(|g| is_key(*g, f))
}

// Whether two rows of forms are the same from `from` up to `to`.
fn is_same(old: &[Form; 64], new: &[Form; 64], from: usize, to: usize) -> bool {
    old.iter()
        .zip(new.iter())
        .take(to)
        .skip(from)
        .all(|(a, b)| a == b)
}

// ---- making forms

// The form of a pair, read from the rules a second time.
fn made_of(s: Source, v: Pair) -> Form {
    Form {
        p_edition: s.p_edition,
        q_edition: s.q_edition,
        own: s.terms.own,
        contractor: s.terms.contractor,
        grid: s.terms.grid,
        q: v.q,
        p: v.p,
        size: v.size,
    }
}

// Whether the first forms are those of the first pairs.
fn are_made(l: &[Form; 64], s: Source, pairs: &[Pair; 64], many: usize) -> bool {
    l.iter()
        .zip(pairs.iter())
        .take(many)
        .all(|(f, v)| *f == made_of(s, *v))
}

fn unmade_no(held: usize, len: usize, room: usize) -> u32 {
    if held > len {
        return 11;
    }
    if held > room {
        return 16;
    }
    0
}

fn plus_if(n: u64, more: bool) -> u64 {
    n.wrapping_add(u64::from(more))
}

// One more of a number of refusal, where there is a place for it.
fn tell(refused: &mut [u64; 32], number: u32) {
    if let Some(n) = refused.get_mut(number as usize) {
        *n = one_more(*n);
    }
}

fn with_made(t: Tally, number: u32, good: bool) -> Tally {
    let mut u = t;
    match number {
        0 => u.made = one_more(u.made),
        _ => tell(&mut u.unmade, number),
    }
    u.wrong = plus_if(u.wrong, !good);
    u
}

// The forms of a book with so many slots and places lent: what is answered, and what stands then.
fn made_forms(b: Book, pairs: [Pair; 64], len: usize, room: usize, tally: Tally) -> Tally {
    let out = [blank(); 64];
    let r = depot::forms_array(pairs, len, out, room, b);
    let m = r.made;
    let number = unmade_no(b.held, len, room);
    let count = if number == 0 { b.held } else { 0 };
    let good = (m.number == number)
        & (m.count == count)
        & are_made(&r.out, b.source, &pairs, count)
        & is_same(&out, &r.out, count, 64);
    with_made(tally, m.number, good)
}

fn forms_of(b: Book, pairs: [Pair; 64]) -> [Form; 64] {
    depot::forms_array(pairs, 64, [blank(); 64], 64, b).out
}

// ---- the books

fn contractor_of(way: usize) -> u32 {
    match way {
        3 => 0,
        4 => 1,
        _ => 2,
    }
}

// The books by number: 0 undivided, 1 a self join, 2 undivided with a threshold, 3 and 4 a contractor's each, 5 undivided along the streets. All but the self join hold the same pairs
// of the same editions: the keys of 0, 3 and 4 differ in the contractor alone, those of 0 and 5 in the profile alone, and those of 0 and 2 are the same.
fn book_of(way: usize, held: usize, closed: bool) -> Book {
    let own = way == 1;
    Book {
        held,
        closed,
        source: Source {
            p_edition: 7,
            q_edition: if own { 7 } else { 9 },
            terms: Terms {
                threshold: if way == 2 { 3 } else { 0 },
                contractor: contractor_of(way),
                own,
                grid: way == 5,
            },
        },
    }
}

fn pairs_of(way: usize) -> [Pair; 64] {
    made_pairs(if way == 1 { 2 } else { 4 })
}

// How many slots or places are lent to a book that holds n: just as many, all, or any number.
fn some_len(n: usize, seed: u64) -> usize {
    match drawn(seed, 3) {
        0 => n,
        1 => 64,
        _ => drawn(mixed(seed), 65),
    }
}

// The forms of one of the books, of up to 30 pairs.
fn made_some(way: usize, seed: u64, tally: Tally) -> Tally {
    let a = mixed(seed);
    let b = mixed(a);
    let n = drawn(seed, 30) + 1;
    made_forms(
        book_of(way, n, drawn(b, 2) == 0),
        pairs_of(way),
        some_len(n, a),
        some_len(n, b),
        tally,
    )
}

// The forms of each of the books.
fn all_made(seed: u64, tally: Tally) -> Tally {
    let mut t = tally;
    let mut x = seed;
    for way in 0..BOOKS {
        x = mixed(x);
        t = made_some(way, x, t);
    }
    t
}

// ---- a form handed in

// What is answered of a form, read from the rules a second time: 0 for a new key, 1 for one that is held, or the number of refusal.
fn expected(held: usize, len: usize, known: bool, f: Form) -> u32 {
    if held > len {
        return 11;
    }
    if is_out(f) {
        return 15;
    }
    if known {
        return 1;
    }
    if held >= len {
        return 16;
    }
    0
}

fn said(o: Result<Receipt, u32>) -> u32 {
    match o {
        Ok(Receipt::Issued) => 0,
        Ok(Receipt::Known) => 1,
        Err(n) => n,
    }
}

fn counted(t: Tally, told: u32, good: bool) -> Tally {
    let mut u = t;
    match told {
        0 => u.issued = one_more(u.issued),
        1 => u.known = one_more(u.known),
        _ => tell(&mut u.refused, told),
    }
    u.wrong = plus_if(u.wrong, !good);
    u
}

// A form handed in with `lent` slots, and all that is then checked.
fn called(g: Game, lent: usize, f: Form) -> Game {
    let due = expected(g.depot.held, lent, has_key(&g.plain, g.many, f), f);
    let r = depot::take_array(g.slots, lent, g.depot, f);
    let told = said(r.stored.outcome);
    let mut plain = g.plain;
    let mut many = g.many;
    if due == 0 {
        if let Some(place) = plain.get_mut(many) {
            *place = f;
        }
        many = many.wrapping_add(1);
    }
    let good = (told == due)
        & (r.stored.depot.held == many)
        & is_same(&r.slots, &plain, 0, many)
        & is_same(&g.slots, &r.slots, many, 64);
    Game {
        slots: r.slots,
        depot: r.stored.depot,
        plain,
        many,
        seed: mixed(g.seed),
        tally: counted(g.tally, told, good),
        ..g
    }
}

// ---- forms of each kind

// One of the forms of the books.
fn some_form(g: Game) -> Form {
    let i = drawn(g.seed, g.n);
    let way = drawn(mixed(g.seed), BOOKS);
    let forms = forms_of(book_of(way, g.n, true), pairs_of(way));
    forms.get(i).copied().unwrap_or(blank())
}

// The form with one part of its key other, or its size.
fn altered(f: Form, way: usize) -> Form {
    match way {
        0 => Form { p_edition: 8, ..f },
        1 => Form { q_edition: 10, ..f },
        2 => Form { own: !f.own, ..f },
        3 => Form { contractor: 0, ..f },
        4 => Form { contractor: 1, ..f },
        5 => Form { grid: !f.grid, ..f },
        6 => Form { size: 3, ..f },
        _ => Form {
            q: f.p,
            p: f.q,
            ..f
        },
    }
}

// The form with one part of its key out of range.
fn broken(f: Form, way: usize) -> Form {
    match way {
        0 => Form { p_edition: 0, ..f },
        1 => Form {
            q_edition: 1000000001,
            ..f
        },
        2 => Form { contractor: 3, ..f },
        3 => Form { q: 0, ..f },
        4 => Form { q: 2000000001, ..f },
        5 => Form { p: 0, ..f },
        6 => Form { p: 2000000001, ..f },
        _ => Form { q_edition: 0, ..f },
    }
}

fn form_of(g: Game, kind: usize) -> Form {
    let way = drawn(mixed(mixed(g.seed)), 8);
    let f = some_form(g);
    match kind {
        8 | 9 => altered(f, way),
        10 | 13 | 14 => broken(f, way),
        _ => f,
    }
}

// How many slots are lent: those of the history, just as many as are held, or fewer.
fn lent_to(g: Game, kind: usize) -> usize {
    let held = g.depot.held;
    match kind {
        11 | 13 => held,
        12 | 14 if 0 < held => drawn(g.seed, held),
        _ => g.len,
    }
}

// A longer slice from now on, where the kind says so.
fn grown(g: Game, kind: usize) -> Game {
    let mut h = g;
    if kind == 15 {
        h.len = g.len.wrapping_add(drawn(g.seed, 9)).min(64);
    }
    h
}

fn stepped(g: Game) -> Game {
    let kind = drawn(g.seed, 16);
    let h = grown(g, kind);
    called(h, lent_to(h, kind), form_of(h, kind))
}

// ---- a history

fn opened(seed: u64, tally: Tally) -> Game {
    let d = Depot::begin();
    let mut t = all_made(seed, tally);
    t.wrong = plus_if(t.wrong, d.held != 0);
    Game {
        n: drawn(seed, 12) + 1,
        slots: [blank(); 64],
        len: drawn(mixed(seed), 49),
        depot: d,
        plain: [blank(); 64],
        many: 0,
        seed: mixed(mixed(seed)),
        tally: t,
    }
}

fn played(seed: u64, tally: Tally) -> Game {
    let mut g = opened(seed, tally);
    for _ in 0..CALLS {
        g = stepped(g);
    }
    g
}

// ---- what is written

// All that was counted.
fn report(rt: &impl Print, t: Tally) {
    line(rt, b"histories", HISTORIES);
    line(rt, b"forms made", t.made);
    line(rt, b"not made 11", t.unmade[11]);
    line(rt, b"not made 16", t.unmade[16]);
    line(rt, b"issued", t.issued);
    line(rt, b"known", t.known);
    line(rt, b"refused 11", t.refused[11]);
    line(rt, b"refused 15", t.refused[15]);
    line(rt, b"refused 16", t.refused[16]);
    line(rt, b"otherwise", t.wrong);
}

fn main(rt: HostRuntime) {
    let mut t = Tally {
        issued: 0,
        known: 0,
        refused: [0; 32],
        made: 0,
        unmade: [0; 32],
        wrong: 0,
    };
    let mut seed: u64 = 88172645463325252;
    for _ in 0..HISTORIES {
        let g = played(seed, t);
        t = g.tally;
        seed = mixed(g.seed);
    }
    report(&rt, t);
}
