// Every call over C: slices as pointer and length, answers as structs of numbers by value, each with its number of refusal first.
// Every input is answered. A refused answer is its number and zeros, and what was lent is as it was. include/ring.h is the same for a C compiler.
#![tactic(auto)]

ghost use Rattle.std.specs.Prelude.{◌≡◌, length};
ghost use Rattle.pack.specs.Pack.{pack_no, pack_out, length_for};
ghost use Rattle.ring.specs.Answers.{pointed, filtered, filtered_bits, walked};
ghost use Rattle.ring.specs.Page.{page_answer, page_bits};
ghost use Rattle.ring.specs.Own.{own_answer, own_bits};
ghost use Rattle.shortest.specs.Answer.{short_answer, short_bits};
ghost use Rattle.ring.specs.Partners.{partners_answer, partners_bits};
ghost use Rattle.ring.specs.Position.{placed};
ghost use Rattle.book.specs.Rules.{begun_for, asked, taken, taken_slots};
ghost use Rattle.depot.specs.Forms.{forms_answer, forms_out};
ghost use Rattle.depot.specs.Depot.{begun_depot, stored, stored_slots};
ghost use Rattle.runs.specs.Run.{run_answer, run_slots, run_bits};
ghost use Rattle.many.specs.Many.{pairs_answer, pairs_slots, pairs_bits, own_pairs_answer, own_pairs_slots, own_pairs_bits, count_answer, count_bits, own_count_answer, own_count_bits};
ghost use Rattle.ranked.specs.Busiest.{busy_answer, busy_bits, pump_answer, pump_bits};
ghost use Rattle.ranked.specs.Urgent.{urgent_answer, urgent_bits};
ghost use Rattle.nearest.specs.Nearest.{nearest_no, near_filter_no, nearest_answer, near_filtered, near_filtered_bits, waited_by};
ghost use Rattle.ffi.specs.Over.{head_over, point_over, hit_over, walk_over, book_over, next_over, key_over, outcome_over, store_over, mark_over, marked_at};

use book::{Book, Taken};
use depot::{Depot, Form, Made, Receipt};
use list::{Key, Page, Pair, Request, Source, Terms};
use many::{Counted, Many, Wanted, Which};
use marker::Marker;
use nearest::Found;
use ranked::{Busy, Question, Urgent};
use ring::{Filtered, Paged, Partnered, Placed};
use runs::Run;
use shortest::Shortlist;

// What a check of words finds: the sheet's length, points, nodes, edition and form, or zeros.
#[repr(C)]
#[derive(Clone, Copy)]
pub struct HeadAnswer {
    pub number: u32,
    pub len: usize,
    pub n: usize,
    pub m: usize,
    pub edition: u32,
    pub form: u32,
}

// The point reader's answer: the record, or zeros.
#[repr(C)]
#[derive(Clone, Copy)]
pub struct PointAnswer {
    pub number: u32,
    pub id: u32,
    pub x: i32,
    pub y: i32,
}

// The ring walk's answer. The kind is 0 clear, 1 blocked by a point, 2 blocked by a box side; the set is 0 for P, 1 for Q; the side is 0 left, 1 bottom,
// 2 right, 3 top, and 0 where no side blocks; `at` is the point's position or the node's number.
#[repr(C)]
#[derive(Clone, Copy)]
pub struct WalkAnswer {
    pub number: u32,
    pub kind: u32,
    pub set: u32,
    pub side: u32,
    pub at: usize,
    pub opened: u64,
}

// The answer of begin: an open book that holds nothing, or zeros.
#[repr(C)]
#[derive(Clone, Copy)]
pub struct BookAnswer {
    pub number: u32,
    pub book: Book,
}

// The answer of next key: the key to ask for, or (0, 0), and the book as it went in.
#[repr(C)]
#[derive(Clone, Copy)]
pub struct KeyAnswer {
    pub number: u32,
    pub key: Key,
    pub book: Book,
}

// The depot's answer to a form: whether it was new, and the depot from now on. 0 and `issued` where the key is new, 0 alone where it is known.
#[repr(C)]
#[derive(Clone, Copy)]
pub struct StoreAnswer {
    pub number: u32,
    pub issued: bool,
    pub depot: Depot,
}

// The marker's answer: its two numbers, or zeros.
#[repr(C)]
#[derive(Clone, Copy)]
pub struct MarkAnswer {
    pub number: u32,
    pub x: f64,
    pub y: f64,
}

fn of_pointed(v: Result<ring::Asset, u32>) -> PointAnswer
    ensures { result ≡ point_over v }
{
    match v {
        Ok(a) => PointAnswer {
            number: 0,
            id: a.id,
            x: a.x,
            y: a.y,
        },
        Err(k) => PointAnswer {
            number: k,
            id: 0,
            x: 0,
            y: 0,
        },
    }
}

fn of_hit(h: walk::Hit, opened: u64) -> WalkAnswer
    ensures { result ≡ hit_over h opened }
{
    match h {
        walk::Hit::Clear => WalkAnswer {
            number: 0,
            kind: 0,
            set: 0,
            side: 0,
            at: 0,
            opened,
        },
        walk::Hit::Point(b) => WalkAnswer {
            number: 0,
            kind: 1,
            set: b.set,
            side: 0,
            at: b.position,
            opened,
        },
        walk::Hit::Side(e) => WalkAnswer {
            number: 0,
            kind: 2,
            set: e.set,
            side: e.side,
            at: e.node,
            opened,
        },
    }
}

fn of_walked(v: Result<walk::Answer, u32>) -> WalkAnswer
    ensures { result ≡ walk_over v }
{
    match v {
        Ok(a) => {
            let h = a.hit;
            of_hit(h, a.opened)
        }
        Err(k) => WalkAnswer {
            number: k,
            kind: 0,
            set: 0,
            side: 0,
            at: 0,
            opened: 0,
        },
    }
}

fn of_begun(v: Result<Book, u32>) -> BookAnswer
    ensures { result ≡ book_over v }
{
    match v {
        Ok(b) => BookAnswer { number: 0, book: b },
        Err(k) => BookAnswer {
            number: k,
            book: Book {
                held: 0,
                closed: false,
                source: Source {
                    p_edition: 0,
                    q_edition: 0,
                    terms: Terms {
                        threshold: 0,
                        contractor: 0,
                        own: false,
                        grid: false,
                    },
                },
            },
        },
    }
}

fn of_next(v: Result<Key, u32>, b: Book) -> KeyAnswer
    ensures { result ≡ next_over v b }
{
    match v {
        Ok(k) => KeyAnswer {
            number: 0,
            key: k,
            book: b,
        },
        Err(n) => KeyAnswer {
            number: n,
            key: Key { q: 0, p: 0 },
            book: b,
        },
    }
}

fn of_asked(a: book::Asked) -> KeyAnswer
    ensures { result ≡ key_over a }
{
    let v = a.next;
    let b = a.book;
    of_next(v, b)
}

fn of_outcome(v: Result<Receipt, u32>, d: Depot) -> StoreAnswer
    ensures { result ≡ outcome_over v d }
{
    match v {
        Ok(Receipt::Issued) => StoreAnswer {
            number: 0,
            issued: true,
            depot: d,
        },
        Ok(Receipt::Known) => StoreAnswer {
            number: 0,
            issued: false,
            depot: d,
        },
        Err(n) => StoreAnswer {
            number: n,
            issued: false,
            depot: d,
        },
    }
}

fn of_stored(a: depot::Stored) -> StoreAnswer
    ensures { result ≡ store_over a }
{
    let v = a.outcome;
    let d = a.depot;
    of_outcome(v, d)
}

fn of_marked(v: Result<Marker, u32>) -> MarkAnswer
    ensures { result ≡ mark_over v }
{
    match v {
        Ok(m) => MarkAnswer {
            number: 0,
            x: m.x,
            y: m.y,
        },
        Err(k) => MarkAnswer {
            number: k,
            x: 0.0,
            y: 0.0,
        },
    }
}

// Opens words: 0 with the sheet's length and counts, its edition and its form, or 1 to 8.
#[unsafe(no_mangle)]
pub extern "C" fn ring_open(words: &[i32]) -> HeadAnswer
    ensures { result ≡ head_over words.now }
{
    let h = ring::open::head_of(words);
    if h.number != 0 {
        return HeadAnswer {
            number: h.number,
            len: 0,
            n: 0,
            m: 0,
            edition: 0,
            form: 0,
        };
    }
    let len = words.len();
    HeadAnswer {
        number: 0,
        len,
        n: h.n,
        m: h.m,
        edition: words::num_at(words, len - 2) as u32,
        form: words::num_at(words, len - 1) as u32,
    }
}

// Packs a sheet of this form into the lent words: 0, or 18, 2, 3, 5, 6, 17 with the words as they were.
#[unsafe(no_mangle)]
pub extern "C" fn ring_pack(
    form: u32,
    n: usize,
    points: &[i32],
    order: &[i32],
    edition: u32,
    out: &mut [i32],
) -> u32
    ensures value { result ≡ pack_no form n points.now order.now edition (length out.old) }
    ensures out_after { out.new ≡ pack_out form n points.now order.now edition out.old }
{
    pack::pack(form, n, points, order, edition, out)
}

// How many words a packed sheet of n points has; 0 where n is over 60,000.
#[unsafe(no_mangle)]
pub extern "C" fn ring_sheet_len(n: usize) -> usize
    ensures { result ≡ length_for n }
{
    pack::sheet_len(n)
}

// The position of the record with this id: 0, or 1 to 8, 20.
#[unsafe(no_mangle)]
pub extern "C" fn ring_position(words: &[i32], id: u32) -> Placed
    ensures { result ≡ placed words.now id }
{
    ring::finder::position(words, id)
}

// The record at a position: 0, or 1 to 8, 9.
#[unsafe(no_mangle)]
pub extern "C" fn ring_point(words: &[i32], position: usize) -> PointAnswer
    ensures { result ≡ point_over (pointed words.now position) }
{
    of_pointed(ring::reader::point(words, position))
}

// The filter walk for position j of Q over P, its kept set in the lent words: 0, or 1 to 8 of P, of Q, 9, 24 with the words as they were.
#[unsafe(no_mangle)]
pub extern "C" fn ring_filter_walk(p: &[i32], q: &[i32], j: usize, bits: &mut [u64]) -> Filtered
    ensures { (result ≡ filtered p.now q.now j (length bits.old)) × (bits.new ≡ filtered_bits p.now q.now j bits.old) }
{
    ring::filter::filter_walk(p, q, j, bits)
}

// The ring walk for position j of Q and position i of P, of a profile: 0, or 1 to 8 of P, of Q, 29, 9.
#[unsafe(no_mangle)]
pub extern "C" fn ring_pair_walk(p: &[i32], q: &[i32], j: usize, i: usize, grid: bool) -> WalkAnswer
    ensures { result ≡ walk_over (walked p.now q.now j i grid) }
{
    of_walked(ring::ringwalk::ring_walk(p, q, j, i, grid))
}

// The page of the first `size` ring pairs after a key, of chambers with at least so many as the threshold says, of a profile, and of a contractor, whose chambers the owner bytes say, or with none of
// all: 0, or 1 to 8 of P, of Q, 27, 26, 29, 9, 10, 21, 24.
#[unsafe(no_mangle)]
pub extern "C" fn ring_page(
    p: &[i32],
    q: &[i32],
    owners: &[u8],
    request: Request,
    bits: &mut [u64],
) -> Paged
    ensures { (result ≡ page_answer p.now q.now owners.now request (length bits.old)) × (bits.new ≡ page_bits p.now q.now owners.now request bits.old) }
{
    ring::pages::page(p, q, owners, request, bits)
}

// The k ring pairs with the smallest squared size, in order: 0, or 1 to 8 of P, of Q, 10, 24.
#[unsafe(no_mangle)]
pub extern "C" fn ring_shortest(p: &[i32], q: &[i32], k: usize, bits: &mut [u64]) -> Shortlist
    ensures { (result ≡ short_answer p.now q.now k (length bits.old)) × (bits.new ≡ short_bits p.now q.now k bits.old) }
{
    shortest::shortest(p, q, k, bits)
}

// The page of the first `size` pairs after a key of the self join of one sheet, lower id first, of a profile: 0, or 1 to 8, 29, 9, 10, 24.
#[unsafe(no_mangle)]
pub extern "C" fn ring_own_page(
    words: &[i32],
    key: Key,
    size: usize,
    grid: bool,
    bits: &mut [u64],
) -> Paged
    ensures { (result ≡ own_answer words.now key size grid (length bits.old)) × (bits.new ≡ own_bits words.now key size grid bits.old) }
{
    ring::own::own_page(words, key, size, grid, bits)
}

// The smaller of t and the number of ring partners of the chamber with this id, and whether that is t: 0, or 1 to 8 of P, of Q, 20, 21, 24.
#[unsafe(no_mangle)]
pub extern "C" fn ring_partners(
    p: &[i32],
    q: &[i32],
    id: u32,
    t: u32,
    bits: &mut [u64],
) -> Partnered
    ensures { (result ≡ partners_answer p.now q.now id t (length bits.old)) × (bits.new ≡ partners_bits p.now q.now id t bits.old) }
{
    ring::least::partners(p, q, id, t, bits)
}

// The pump houses nearest to the chamber with this id, at most `size`, in order: 0, or 1 to 8 of P, of Q, 20, 10, 25 with the lent numbers as they were.
#[unsafe(no_mangle)]
pub extern "C" fn ring_nearest(
    p: &[i32],
    q: &[i32],
    id: u32,
    size: usize,
    waiting: &mut [u64],
) -> Found
    ensures { (result ≡ nearest_answer p.now q.now id size (length waiting.old)) × (waiting.new ≡ waited_by (nearest_no p.now q.now id size (length waiting.old)) p.now waiting.old) }
{
    nearest::nearest(p, q, id, size, waiting)
}

// The filter walk for the chamber with this id that goes nearest first: 0, or 1 to 8 of P, of Q, 20, 24, 25 with all that is lent as it was.
#[unsafe(no_mangle)]
pub extern "C" fn ring_near_filter(
    p: &[i32],
    q: &[i32],
    id: u32,
    waiting: &mut [u64],
    bits: &mut [u64],
) -> Filtered
    ensures { (result ≡ near_filtered p.now q.now id (length bits.old) (length waiting.old)) × (waiting.new ≡ waited_by (near_filter_no p.now q.now id (length bits.old) (length waiting.old)) p.now waiting.old) × (bits.new ≡ near_filtered_bits p.now q.now id (length waiting.old) bits.old) }
{
    nearest::near_filter(p, q, id, waiting, bits)
}

// A book of two editions, a threshold, a contractor and a kind with nothing held: 0, or 3, 21, 27.
#[unsafe(no_mangle)]
pub extern "C" fn ring_book_begin(source: Source) -> BookAnswer
    ensures { result ≡ book_over (begun_for source) }
{
    of_begun(Book::begin(source))
}

// The marker of (ax, ay) and (bx, by): 0, or 5.
#[unsafe(no_mangle)]
pub extern "C" fn ring_marker(ax: i32, ay: i32, bx: i32, by: i32) -> MarkAnswer
    ensures { result ≡ mark_over (marked_at ax ay bx by) }
{
    of_marked(marker::mark(ax, ay, bx, by))
}

// The key to ask for next, the last held pair's: 0, or 11.
#[unsafe(no_mangle)]
pub extern "C" fn ring_book_next_key(b: Book, slots: &[Pair]) -> KeyAnswer
    ensures { result ≡ key_over (asked b slots.now) }
{
    of_asked(b.next_key(slots))
}

// A page's pairs are appended in the lent slots and the book goes on: 0, or 11, 12, 22, 28, 30, 13, 31, 14 to 16 with the slots and the book as they were.
#[unsafe(no_mangle)]
pub extern "C" fn ring_book_take(b: Book, slots: &mut [Pair], page: Page) -> Taken
    ensures { (result ≡ taken b slots.old page) × (slots.new ≡ taken_slots b slots.old page) }
{
    b.take(slots, page)
}

// One order form for each held pair of a book, in the first of the lent places: 0, or 11, 16 with the places as they were.
#[unsafe(no_mangle)]
pub extern "C" fn ring_forms(b: Book, slots: &[Pair], out: &mut [Form]) -> Made
    ensures { (result ≡ forms_answer b slots.now out.old) × (out.new ≡ forms_out b slots.now out.old) }
{
    depot::forms(b, slots, out)
}

// A depot that holds nothing.
#[unsafe(no_mangle)]
pub extern "C" fn ring_depot_begin() -> Depot
    ensures { result ≡ begun_depot }
{
    Depot::begin()
}

// A form handed to the depot: 0, issued where its key is new and known where it is held, or 11, 15, 16; the slots are as they were where it is not issued.
#[unsafe(no_mangle)]
pub extern "C" fn ring_depot_take(d: Depot, slots: &mut [Form], form: Form) -> StoreAnswer
    ensures { (result ≡ store_over (stored d slots.old form)) × (slots.new ≡ stored_slots d slots.old form) }
{
    of_stored(d.take(slots, form))
}

// The ring pairs of the chambers of a leaf of Q, by place, then p id, in the lent slots: 0, or 1 to 8 of P, of Q, 19, 24, 16 with all that is lent as it was.
#[unsafe(no_mangle)]
pub extern "C" fn ring_leaf_run(
    p: &[i32],
    q: &[i32],
    leaf: usize,
    slots: &mut [Pair],
    bits: &mut [u64],
) -> Run
    ensures { (result ≡ run_answer p.now q.now leaf (length slots.old) (length bits.old)) × (slots.new ≡ run_slots p.now q.now leaf slots.old (length bits.old)) × (bits.new ≡ run_bits p.now q.now leaf (length slots.old) bits.old) }
{
    runs::leaf_run(p, q, leaf, slots, bits)
}

// Of a list, to a size, the pairs strictly after a key, the first so many as there are slots, in the lent slots, and whether more follow: 0, or 1 to 8 of P, of Q, 27, 26, 29, 9, 21, 40, 24
// with all that is lent as it was.
#[unsafe(no_mangle)]
pub extern "C" fn ring_pairs(
    p: &[i32],
    q: &[i32],
    owners: &[u8],
    wanted: Wanted,
    slots: &mut [Pair],
    bits: &mut [u64],
) -> Many
    ensures { (result ≡ pairs_answer p.now q.now owners.now wanted (length slots.old) (length bits.old)) × (slots.new ≡ pairs_slots p.now q.now owners.now wanted slots.old (length bits.old)) × (bits.new ≡ pairs_bits p.now q.now owners.now wanted bits.old) }
{
    many::batch::pairs(p, q, owners, wanted, slots, bits)
}

// The same of the self join of one sheet, lower id first: 0, or 1 to 8, 29, 9, 40, 24 with all that is lent as it was.
#[unsafe(no_mangle)]
pub extern "C" fn ring_own_pairs(
    words: &[i32],
    key: Key,
    largest: u64,
    grid: bool,
    slots: &mut [Pair],
    bits: &mut [u64],
) -> Many
    ensures { (result ≡ own_pairs_answer words.now key largest grid (length slots.old) (length bits.old)) × (slots.new ≡ own_pairs_slots words.now key largest grid slots.old (length bits.old)) × (bits.new ≡ own_pairs_bits words.now key largest grid bits.old) }
{
    many::batch::own_pairs(words, key, largest, grid, slots, bits)
}

// How many pairs such a list has: 0, or 1 to 8 of P, of Q, 27, 26, 29, 21, 40, 24 with the words as they were.
#[unsafe(no_mangle)]
pub extern "C" fn ring_count(
    p: &[i32],
    q: &[i32],
    owners: &[u8],
    which: Which,
    bits: &mut [u64],
) -> Counted
    ensures { (result ≡ count_answer p.now q.now owners.now which (length bits.old)) × (bits.new ≡ count_bits p.now q.now owners.now which bits.old) }
{
    many::tally::count(p, q, owners, which, bits)
}

// The same of the self join of one sheet: 0, or 1 to 8, 29, 40, 24 with the words as they were.
#[unsafe(no_mangle)]
pub extern "C" fn ring_own_count(
    words: &[i32],
    largest: u64,
    grid: bool,
    bits: &mut [u64],
) -> Counted
    ensures { (result ≡ own_count_answer words.now largest grid (length bits.old)) × (bits.new ≡ own_count_bits words.now largest grid bits.old) }
{
    many::tally::own_count(words, largest, grid, bits)
}

// Of the contractor's chambers the k that are in the most pairs of the list to a size, in order, ties by the lower id: 0, or 1 to 8 of P, of Q, 27, 26, 29, 10, 40, 24 with the words as they
// were.
#[unsafe(no_mangle)]
pub extern "C" fn ring_busiest(
    p: &[i32],
    q: &[i32],
    owners: &[u8],
    asked: Question,
    bits: &mut [u64],
) -> Busy
    ensures { (result ≡ busy_answer p.now q.now owners.now asked (length bits.old)) × (bits.new ≡ busy_bits p.now q.now owners.now asked bits.old) }
{
    ranked::busiest::busiest(p, q, owners, asked, bits)
}

// The same of pump houses, of the undivided list, with as many words as the points of Q need: 0, or 1 to 8 of P, of Q, 29, 10, 40, 24 with the words as they were.
#[unsafe(no_mangle)]
pub extern "C" fn ring_busiest_pumps(
    p: &[i32],
    q: &[i32],
    k: usize,
    largest: u64,
    grid: bool,
    bits: &mut [u64],
) -> Busy
    ensures { (result ≡ pump_answer p.now q.now k largest grid (length bits.old)) × (bits.new ≡ pump_bits p.now q.now k largest grid bits.old) }
{
    ranked::busiest::busiest_pumps(p, q, k, largest, grid, bits)
}

// The k pairs of the contractor's list to a size with the highest sum of the scores of their two ends, in order, ties by q id and then p id: 0, or 1 to 8 of P, of Q, 27, 26, 29, 10, 40, 41,
// 42, 24 with the words as they were.
#[unsafe(no_mangle)]
pub extern "C" fn ring_urgent(
    p: &[i32],
    q: &[i32],
    owners: &[u8],
    p_scores: &[u32],
    q_scores: &[u32],
    asked: Question,
    bits: &mut [u64],
) -> Urgent
    ensures { (result ≡ urgent_answer p.now q.now owners.now p_scores.now q_scores.now asked (length bits.old)) × (bits.new ≡ urgent_bits p.now q.now owners.now p_scores.now q_scores.now asked bits.old) }
{
    ranked::visits::urgent(p, q, owners, p_scores, q_scores, asked, bits)
}
