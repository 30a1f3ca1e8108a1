// The order book: its state by value, and what a page does to it. Its pairs are records in a slice that the caller lends.
#![tactic(auto)]

ghost use Rattle.std.specs.Prelude.{◌≡◌, ◌≢◌, ◌&&◌, take as taking, MatchResult};
ghost use Rattle.list.specs.Pairs.{ascends};
ghost use Rattle.list.specs.Lent.{lent_of};
ghost use Rattle.book.specs.Rules.{begun_for, last_key, asked, pair_ok, pairs_ok, page_bad, take_no_at, decided_at, taken, taken_slots, taken_array};

use list::{Key, Page, Pair, Source};

// How many pairs are held, whether all are, and of what list. [F4]
#[repr(C)]
#[derive(Clone, Copy)]
pub struct Book {
    pub held: usize,
    pub closed: bool,
    pub source: Source,
}

// The answer of `next_key`: the key to ask for next, or the number of refusal, and the book as it went in.
#[derive(Clone, Copy)]
pub struct Asked {
    pub next: Result<Key, u32>,
    pub book: Book,
}

// The answer of `take`: the number of refusal, 0 where the page was taken, and the book from now on.
// Kept: the number beside the book, which `ring_book_take` of crate ffi hands to C as it stands.
#[repr(C)]
#[derive(Clone, Copy)]
pub struct Taken {
    pub number: u32,
    pub book: Book,
}

// What is decided of a page: how many of its pairs are appended, and the answer.
#[derive(Clone, Copy)]
pub struct Decided {
    pub n: usize,
    pub taken: Taken,
}

// Whether the ids and the size of a pair are in range, of the circle or of the street grid.
fn is_pair(grid: bool, v: Pair) -> bool
    ensures { result ≡ pair_ok grid v }
{
    words::is_id(v.q) & words::is_id(v.p) & plane::profile::is_size(grid, v.size)
}

// Whether these pairs have ids and sizes in range, of the circle or of the street grid, and ascend strictly after a key.
fn pairs_rise(grid: bool, key: Key, pairs: &[Pair]) -> bool
    ensures { result ≡ (pairs_ok grid pairs.now && ascends key pairs.now) }
{
    let mut last = key;
    for v in pairs {
        let at = list::key_of(*v);
        if !(is_pair(grid, *v) & list::is_after(last, at)) {
            return false;
        }
        last = at;
    }
    true
}

// Whether a page is refused by 15.
fn is_bad(g: Page) -> bool
    ensures { result ≡ page_bad g }
{
    let n = g.count;
    if 16 < n {
        return true;
    }
    !pairs_rise(g.source.terms.grid, g.key, &g.pairs[..n]) | ((n == 0) & !g.end)
}

// The number of refusal, 0 where the page is taken, for a slice of `len` slots of which the last held one has this key.
fn take_number(b: Book, len: usize, key: Key, g: Page) -> u32
    ensures { result ≡ take_no_at b len key g }
{
    if len < b.held {
        return 11;
    }
    if b.closed {
        return 12;
    }
    let no = list::source_no(b.source, g.source);
    if no != 0 {
        return no;
    }
    if g.key != key {
        return 14;
    }
    if is_bad(g) {
        return 15;
    }
    if len - b.held < g.count {
        return 16;
    }
    0
}

// The core of `take`, on plain values: all that is decided of a page, for a slice of `len` slots of which the last held one has this key. [F8]
fn decide(b: Book, len: usize, key: Key, g: Page) -> Decided
    ensures { result ≡ decided_at b len key g }
{
    let number = take_number(b, len, key, g);
    if number != 0 {
        return Decided {
            n: 0,
            taken: Taken { number, book: b },
        };
    }
    let book = Book {
        held: b.held + g.count,
        closed: g.end,
        source: b.source,
    };
    Decided {
        n: g.count,
        taken: Taken { number: 0, book },
    }
}

// The key of the last of `held` pairs; (0, 0) where nothing is held, and where it has no slot.
fn last_key(held: usize, slots: &[Pair]) -> Key
    ensures { result ≡ last_key held slots.now }
{
    if (held == 0) | (slots.len() < held) {
        return Key { q: 0, p: 0 };
    }
    list::key_of(slots[held - 1])
}

// Passes 0, and refuses by any other number.
fn pass(no: u32) -> Result<(), u32>
    ensures { MatchResult result (λ _. no ≡ 0) (λ n. (n ≡ no) × (no ≢ 0)) }
{
    if no == 0 {
        return Ok(());
    }
    Err(no)
}

impl Book {
    // A book of a list, with nothing held; 3 where an edition is out of range or a self join is of two, then 21 where the threshold is, or a self join has one, then 27 where the
    // contractor is, or a self join's is not 2.
    pub fn begin(source: Source) -> Result<Book, u32>
        ensures { result ≡ begun_for source }
    {
        if !(words::is_edition(source.p_edition)
            & words::is_edition(source.q_edition)
            & (!source.terms.own | (source.p_edition == source.q_edition)))
        {
            return Err(3);
        }
        if source.terms.own & (source.terms.threshold != 0) {
            return Err(21);
        }
        pass(list::threshold_no(source.terms.threshold))?;
        pass(list::contractor_no(source.terms.own, source.terms.contractor))?;
        Ok(Book {
            held: 0,
            closed: false,
            source,
        })
    }

    // The key to ask for next: that of the last held pair, read from its slot, and (0, 0) where nothing is held; 11 where more is held than there are slots.
    pub fn next_key(self, slots: &[Pair]) -> Asked
        ensures { result ≡ asked self slots.now }
    {
        let key = last_key(self.held, slots);
        let next = if slots.len() < self.held {
            Err(11)
        } else {
            Ok(key)
        };
        Asked { next, book: self }
    }

    // The page's pairs are appended in the slots and the book goes on, or the page is refused and nothing changes: no slot, and no part of the book. [F8]
    pub fn take(self, slots: &mut [Pair], page: Page) -> Taken
        ensures { (result ≡ taken self slots.old page) × (slots.new ≡ taken_slots self slots.old page) }
    {
        let d = decide(self, slots.len(), last_key(self.held, slots), page);
        if d.taken.number == 0 {
            words::copy(&page.pairs[..d.n], &mut slots[self.held..self.held + d.n]);
        }
        d.taken
    }
}

// 64 slots, and what `take` answered of those lent to it.
#[derive(Clone, Copy)]
pub struct TakenArray {
    pub slots: [Pair; 64],
    pub taken: Taken,
}

// `Book::take` on the first `len` of 64 slots, which are lent for the call and come back; on all 64 where `len` exceeds that. For callers that keep their slots by value.
pub fn take_array(slots: [Pair; 64], len: usize, b: Book, page: Page) -> TakenArray
    ensures { result ≡ taken_array slots len b page }
{
    let mut own = slots;
    let n = list::lent_of(64, len);
    let taken = b.take(&mut own[..n], page);
    TakenArray { slots: own, taken }
}

// `Book::next_key` on the first `len` of 64 slots, which are lent for the call; on all 64 where `len` exceeds that.
pub fn next_array(slots: [Pair; 64], len: usize, b: Book) -> Asked
    ensures { result ≡ asked b (taking (lent_of 64 len) slots) }
{
    let n = list::lent_of(64, len);
    b.next_key(&slots[..n])
}
