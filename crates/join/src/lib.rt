// The page maker, on the words of two sheets that open, each with its size. For a self join both are the one sheet.
#![tactic(auto)]

ghost use Rattle.std.specs.Prelude.{◌≡◌, ℕ, ◌+◌, ◌*◌, ◌≤◌, ◌<◌, length, false, ◌&&◌};
ghost use Rattle.bits.specs.Set.{kept, Holds};
ghost use Rattle.plane.specs.Point.{id_at};
ghost use Rattle.sheet.specs.Places.{points_of};
ghost use Rattle.walk.specs.RingWalk.{clear};
ghost use Rattle.list.specs.Pairs.{key_of, follows};
ghost use Rattle.list.specs.RingList.{pair_at};
ghost use Rattle.join.specs.Walks.{Agrees};
ghost use Rattle.join.specs.Work.{first_from};
ghost use Rattle.join.specs.Maker.{found, tried, partners, chamber, page_made, page_from};
ghost use Rattle.join.specs.Sheets.{start_for, Alone, walks_by};
ghost use Rattle.list.specs.Terms.{profile_for};
ghost use Rattle.join.specs.Threshold.{found_for, ring_opened, walks_for, on_words};
ghost use Rattle.join.specs.Only.{page_walks};

use list::{Key, Page, Pair, Source, Terms};
use sheet::Sheet;
use walk::Answer;
use walk::filter::ROOM;

// What is asked for: the pairs after a key, how many, and of which list.
#[derive(Clone, Copy)]
pub struct Ask {
    pub key: Key,
    pub size: usize,
    pub terms: Terms,
}

// A page in the making: the pairs found, how many they are, whether a pair beyond the size was found, and the nodes opened.
#[derive(Clone, Copy)]
pub struct Draft {
    pub pairs: [Pair; 16],
    pub count: usize,
    pub more: bool,
    pub opened: u64,
}

// What trying a kept partner gave: whether it makes a ring pair after the key, and the nodes opened.
#[derive(Clone, Copy)]
pub struct Tried {
    pub finds: bool,
    pub opened: u64,
}

// What walking all kept partners of a chamber gave: how many are ring partners, and the nodes opened.
#[derive(Clone, Copy)]
pub struct Sifted {
    pub count: usize,
    pub opened: u64,
}

// A pair was found: it is shown, or it is the first beyond the size.
fn with_found(d: Draft, size: usize, v: Pair) -> Draft
    requires { size ≤ 16 }
    ensures { result ≡ found size v d }
{
    let at = d.count;
    let mut r = d;
    if at < size {
        r.pairs[at] = v;
        r.count = at + 1;
        return r;
    }
    r.more = true;
    r
}

// Whether the pair of position j of Q and position i of P is after the key.
pub fn is_late(p: Sheet<'_>, q: Sheet<'_>, key: Key, j: usize, i: usize) -> bool
    requires { (j < q.n) × (i < p.n) }
    ensures { result ≡ follows key (key_of (pair_at (points_of p.entry.words.now) (points_of q.entry.words.now) j i)) }
{
    let v = Key {
        q: q.id_at(j),
        p: p.id_at(i),
    };
    list::is_after(key, v)
}

// The ring walk of position j of Q and position i of P: over both sheets, or of a self join once over the one.
fn walked(p: Sheet<'_>, q: Sheet<'_>, terms: Terms, j: usize, i: usize) -> Answer
    requires { (j < q.n) × (i < p.n) × Alone terms p.words.now q.words.now }
    ensures { (words : ℕ) → (clear result.hit ≡ (walks_by terms words p.entry.words.now q.entry.words.now).clear j i) × (result.opened ≡ (walks_by terms words p.entry.words.now q.entry.words.now).clear_opened j i) }
{
    if terms.own {
        let a = q.spot_at(j);
        let b = p.spot_at(i);
        return walk::ring::ring_on(p, 0, a, b, 0, terms.grid);
    }
    walk::ring::pair_walk_by(p, q, j, i, terms.grid)
}

// The kept partner at position i of P, for the q at position j: ring-walked if it is after the key.
fn try_partner(p: Sheet<'_>, q: Sheet<'_>, ask: Ask, j: usize, i: usize) -> Tried
    requires { (j < q.n) × (i < p.n) × Alone ask.terms p.words.now q.words.now }
    ensures { (words : ℕ) → result ≡ tried (walks_by ask.terms words p.entry.words.now q.entry.words.now) ask.key j i }
{
    let key = ask.key;
    if !is_late(p, q, key, j, i) {
        return Tried {
            finds: false,
            opened: 0,
        };
    }
    let terms = ask.terms;
    let a = walked(p, q, terms, j, i);
    Tried {
        finds: walk::clear_after(a),
        opened: a.opened,
    }
}

// The kept partners of the q at position j, in id order from position `from` on, until a pair beyond the size is found.
fn with_partners(
    p: Sheet<'_>,
    q: Sheet<'_>,
    ask: Ask,
    j: usize,
    from: usize,
    bits: &[u64],
    d: Draft,
) -> Draft
    requires { (j < q.n) × (ask.size ≤ 16) × Holds bits.now p.n × (d.opened + p.n * (p.m + q.m) < 9223372036854775808) × Alone ask.terms p.words.now q.words.now × Agrees (walks_by ask.terms (length bits.now) p.words.now q.words.now) j from bits.now }
    ensures { result ≡ partners (walks_by ask.terms (length bits.now) p.entry.words.now q.entry.words.now) ask.key ask.size j p.entry.n 0 d }
{
    let n = p.n;
    let mut r = d;
    let mut i = bits::next_from(bits, from);
    // Kept: each step goes to the next kept bit: the loop counts no index.
    while i < n {
        if r.more {
            return r;
        }
        let t = try_partner(p, q, ask, j, i);
        r.opened = r.opened + t.opened;
        if t.finds {
            let v = walk::pair::pair_by(p, q, j, i, ask.terms.grid);
            r = with_found(r, ask.size, v);
        }
        i = bits::next_from(bits, i + 1);
    }
    r
}

// Of the kept partners of the q at position j those stay kept whose ring walk is clear: how many they are, and the nodes opened.
fn keep_clear(p: Sheet<'_>, q: Sheet<'_>, terms: Terms, j: usize, bits: &mut [u64]) -> Sifted
    requires { (j < q.n) × Holds bits.old p.n × (terms.own ≡ false) × Agrees (walks_by terms (length bits.old) p.words.now q.words.now) j 0 bits.old }
    ensures { ((i : ℕ) → kept bits.new i ≡ ((walks_by terms (length bits.old) p.entry.words.now q.entry.words.now).kept j i && (walks_by terms (length bits.old) p.entry.words.now q.entry.words.now).clear j i)) × (result.count ≡ found_for (walks_by terms (length bits.old) p.entry.words.now q.entry.words.now) p.entry.n j) × (result.opened ≡ ring_opened (walks_by terms (length bits.old) p.entry.words.now q.entry.words.now) p.entry.n j) }
{
    let n = p.n;
    let mut opened: u64 = 0;
    let mut count: usize = 0;
    let mut i = bits::next_from(bits, 0);
    // Kept: each step goes to the next kept bit: the loop counts no index.
    while i < n {
        let a = walk::ring::pair_walk_by(p, q, j, i, terms.grid);
        opened += a.opened;
        if walk::clear_after(a) {
            count += 1;
        } else {
            bits::remove(bits, i);
        }
        i = bits::next_from(bits, i + 1);
    }
    Sifted { count, opened }
}

// The pairs of the q at position j with the kept positions, in id order, after the key, until a pair beyond the size is found. No partner is walked.
fn with_kept(p: Sheet<'_>, q: Sheet<'_>, ask: Ask, j: usize, bits: &[u64], d: Draft) -> Draft
    requires { (j < q.n) × (ask.size ≤ 16) × Holds bits.now p.n }
    ensures { result ≡ partners (on_words (profile_for ask.terms) bits.now p.entry.words.now q.entry.words.now) ask.key ask.size j p.entry.n 0 d }
{
    let n = p.n;
    let key = ask.key;
    let mut r = d;
    let mut i = bits::next_from(bits, 0);
    // Kept: each step goes to the next kept bit: the loop counts no index.
    while i < n {
        if r.more {
            return r;
        }
        if is_late(p, q, key, j, i) {
            let v = walk::pair::pair_by(p, q, j, i, ask.terms.grid);
            r = with_found(r, ask.size, v);
        }
        i = bits::next_from(bits, i + 1);
    }
    r
}

// The position that the partners of the q at position j start from. Ids rise with positions, so that those of higher id stand after j.
fn start_for(terms: Terms, j: usize) -> usize
    requires { j < 60000 }
    ensures { result ≡ start_for terms j }
{
    if terms.own { j + 1 } else { 0 }
}

fn wide(t: u32) -> usize
    ensures { result ≡ t }
{
    t as usize
}

// The q at position j: filtered, on the words lent, and its kept partners tried; for a page of t above 0 all of them, and shown where at least t are ring partners.
// The filter of a self join meets q too, which changes the bit of q alone. What it tries first stands in the list lent.
fn with_chamber(
    p: Sheet<'_>,
    q: Sheet<'_>,
    ask: Ask,
    j: usize,
    bits: &mut [u64],
    latest: &mut [u32],
    d: Draft,
) -> Draft
    requires { (j < q.n) × (ask.size ≤ 16) × Holds bits.old p.n × (d.opened + (p.m + p.n * (p.m + q.m)) < 9223372036854775808) × Alone ask.terms p.words.now q.words.now }
    ensures { result ≡ chamber (walks_for (walks_by ask.terms (length bits.old) p.entry.words.now q.entry.words.now) p.entry.n ask.terms.threshold) ask.key ask.size p.entry.n j d }
{
    let z = q.spot_at(j);
    let opened = walk::filter::kept_by(p, z, bits, latest, ask.terms.grid);
    let mut r = d;
    r.opened = d.opened + opened;
    let terms = ask.terms;
    let t = wide(terms.threshold);
    if t == 0 {
        let from = start_for(terms, j);
        return with_partners(p, q, ask, j, from, bits, r);
    }
    let s = keep_clear(p, q, terms, j, bits);
    r.opened = r.opened + s.opened;
    if s.count < t {
        return r;
    }
    with_kept(p, q, ask, j, bits, r)
}

// The first position of Q whose id is not below the key's, or the number of its points.
fn first_from(q: Sheet<'_>, key: Key) -> usize
    ensures { result ≡ first_from (id_at (points_of q.entry.words.now)) key q.entry.n }
{
    for j in 0..q.n {
        if q.id_at(j) >= key.q {
            return j;
        }
    }
    q.n
}

// The page maker's work, the kept sets on the words lent. Only chambers of the contractor, by the owner bytes, are filtered and counted.
pub fn made_on(p: Sheet<'_>, q: Sheet<'_>, owners: &[u8], ask: Ask, bits: &mut [u64]) -> Draft
    requires { (ask.size ≤ 16) × Holds bits.old p.n × Alone ask.terms p.words.now q.words.now }
    ensures { result ≡ page_made (page_walks ask.terms owners.now (length bits.old) p.entry.words.now q.entry.words.now p.entry.n) ask.key ask.size p.entry.n q.entry.n }
{
    let mut r = Draft {
        pairs: [Pair {
            q: 0,
            p: 0,
            size: 0,
        }; 16],
        count: 0,
        more: false,
        opened: 0,
    };
    let mut latest = [0u32; ROOM];
    let n = q.n;
    let key = ask.key;
    let c = ask.terms.contractor;
    for j in first_from(q, key)..n {
        if r.more {
            return r;
        }
        if list::is_mine(owners, c, j) {
            r = with_chamber(p, q, ask, j, bits, &mut latest, r);
        }
    }
    r
}

// The page of what was made.
pub fn page_from(source: Source, key: Key, d: Draft) -> Page
    ensures { result ≡ page_from source key d }
{
    let pairs = d.pairs;
    Page {
        source,
        key,
        count: d.count,
        end: !d.more,
        pairs,
    }
}
