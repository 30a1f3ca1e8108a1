// An opened sheet: a view of the words where the caller keeps them, with the sheet's counts. No copy is made.
// Whoever is handed a view checks it like any slice: its counts are read anew from its words, and its own are never trusted.
#![tactic(auto)]

ghost use Rattle.std.specs.Prelude.{◌≡◌, ◌≤◌, length, take};
ghost use Rattle.ring.specs.Answers.{head_of, pointed, filtered, filtered_bits, walked};
ghost use Rattle.ring.specs.Page.{page_answer, page_bits};
ghost use Rattle.ring.specs.Own.{own_answer, own_bits};
ghost use Rattle.ring.specs.Partners.{partners_answer, partners_bits};
ghost use Rattle.runs.specs.Run.{run_answer, run_slots, run_bits};
ghost use Rattle.shortest.specs.Answer.{short_answer, short_bits};
ghost use Rattle.many.specs.Many.{pairs_answer, pairs_slots, pairs_bits, own_pairs_answer, own_pairs_slots, own_pairs_bits, count_answer, count_bits, own_count_answer, own_count_bits};
ghost use Rattle.ranked.specs.Busiest.{busy_answer, busy_bits, pump_answer, pump_bits};
ghost use Rattle.ranked.specs.Urgent.{urgent_answer, urgent_bits};
ghost use Rattle.nearest.specs.Nearest.{nearest_no, nearest_answer, near_filter_no, near_filtered, near_filtered_bits, waited_by};
ghost use Rattle.view.specs.Shown.{shown, open_of};

use list::{Key, Pair, Request};
use many::{Counted, Many, Wanted, Which};
use nearest::Found;
use ranked::{Busy, Question, Urgent};
use ring::{Asset, Filtered, Head, Paged, Partnered};
use runs::Run;
use shortest::Shortlist;
use walk::Answer;

// The words that the view covers, and the numbers of points and nodes that it claims for them. [F9]
#[derive(Clone, Copy)]
pub struct Sheet<'a> {
    pub words: &'a [i32],
    pub n: usize,
    pub m: usize,
}

// 0 and a view of the sheet's words, or the number of refusal and a view that covers no words.
#[derive(Clone, Copy)]
pub struct Opened<'a> {
    pub number: u32,
    pub sheet: Sheet<'a>,
}

// The first `len` words.
fn keep<'a>(words: &'a [i32], len: usize) -> &'a [i32]
    requires { len ≤ length words.now }
    ensures { (result.now ≡ take len words.now) × (result.ref_ptr ≡ words.entry.ref_ptr) }
{
    &words[..len]
}

// Opens a sheet: a view of the caller's own words, from the first to the last, with the counts that stand in them. Refused by 1 to 8, and then the view
// covers no words and its counts are 0.
pub fn open<'a>(words: &'a [i32]) -> Opened<'a>
    ensures { shown result ≡ open_of words.entry }
{
    let h = ring::open::head_of(words);
    let len = h.len;
    let part = keep(words, len);
    Opened {
        number: h.number,
        sheet: Sheet {
            words: part,
            n: h.n,
            m: h.m,
        },
    }
}

// The record at a position of a view's sheet; refused by 1 to 8 of its words, then by 9.
pub fn point_at<'a>(sheet: Sheet<'a>, position: usize) -> Result<Asset, u32>
    ensures { result ≡ pointed sheet.entry.words.now position }
{
    ring::reader::point(sheet.words, position)
}

// The filter walk for position j of Q over P, its kept set in the words lent; refused by 1 to 8 of P's words, then of Q's, then by 9, then by 24.
pub fn filter_walk_at<'a, 'b, 'c>(
    p: Sheet<'a>,
    q: Sheet<'b>,
    j: usize,
    bits: &'c mut [u64],
) -> Filtered
    ensures { (result ≡ filtered p.entry.words.now q.entry.words.now j (length bits.old)) × (bits.new ≡ filtered_bits p.entry.words.now q.entry.words.now j bits.old) }
{
    ring::filter::filter_walk(p.words, q.words, j, bits)
}

// The ring walk for position j of Q and position i of P, of a profile; refused by 1 to 8 of P's words, then of Q's, then by 29, then by 9.
pub fn ring_walk_at<'a, 'b>(
    p: Sheet<'a>,
    q: Sheet<'b>,
    j: usize,
    i: usize,
    grid: bool,
) -> Result<Answer, u32>
    ensures { result ≡ walked p.entry.words.now q.entry.words.now j i grid }
{
    ring::ringwalk::ring_walk(p.words, q.words, j, i, grid)
}

// The page that follows a key, of the contractor's list or of the undivided one; refused by 1 to 8 of P's words, then of Q's, then by 27 for the contractor, by 26 for the owner bytes, by 29, by 9 for
// the key, by 10 for the size, by 21 for the threshold, by 24 for the words lent.
pub fn page_at<'a, 'b, 'c, 'd>(
    p: Sheet<'a>,
    q: Sheet<'b>,
    owners: &'c [u8],
    request: Request,
    bits: &'d mut [u64],
) -> Paged
    ensures { (result ≡ page_answer p.entry.words.now q.entry.words.now owners.now request (length bits.old)) × (bits.new ≡ page_bits p.entry.words.now q.entry.words.now owners.now request bits.old) }
{
    ring::pages::page(p.words, q.words, owners, request, bits)
}

// The page of a self join that follows a key; of a profile; refused by 1 to 8 of the words, then by 29, by 9 for the key, by 10 for the size, by 24 for the words lent.
pub fn own_page_at<'a, 'b>(
    sheet: Sheet<'a>,
    key: Key,
    size: usize,
    grid: bool,
    bits: &'b mut [u64],
) -> Paged
    ensures { (result ≡ own_answer sheet.entry.words.now key size grid (length bits.old)) × (bits.new ≡ own_bits sheet.entry.words.now key size grid bits.old) }
{
    ring::own::own_page(sheet.words, key, size, grid, bits)
}

// Whether the chamber with an id has at least t partners; refused by 1 to 8 of P's words, then of Q's, then by 20, then by 21, then by 24.
pub fn partners_at<'a, 'b, 'c>(
    p: Sheet<'a>,
    q: Sheet<'b>,
    id: u32,
    t: u32,
    bits: &'c mut [u64],
) -> Partnered
    ensures { (result ≡ partners_answer p.entry.words.now q.entry.words.now id t (length bits.old)) × (bits.new ≡ partners_bits p.entry.words.now q.entry.words.now id t bits.old) }
{
    ring::least::partners(p.words, q.words, id, t, bits)
}

// The ring pairs of the chambers of a leaf of Q, in the lent slots; refused by 1 to 8 of P's words, then of Q's, then by 19, then by 24, then by 16.
pub fn leaf_run_at<'a, 'b, 'c, 'd>(
    p: Sheet<'a>,
    q: Sheet<'b>,
    leaf: usize,
    slots: &'c mut [Pair],
    bits: &'d mut [u64],
) -> Run
    ensures { (result ≡ run_answer p.entry.words.now q.entry.words.now leaf (length slots.old) (length bits.old)) × (slots.new ≡ run_slots p.entry.words.now q.entry.words.now leaf slots.old (length bits.old)) × (bits.new ≡ run_bits p.entry.words.now q.entry.words.now leaf (length slots.old) bits.old) }
{
    runs::leaf_run(p.words, q.words, leaf, slots, bits)
}

// The k ring pairs with the smallest squared size, in order; refused by 1 to 8 of P's words, then of Q's, then by 10, then by 24.
pub fn shortest_at<'a, 'b, 'c>(
    p: Sheet<'a>,
    q: Sheet<'b>,
    k: usize,
    bits: &'c mut [u64],
) -> Shortlist
    ensures { (result ≡ short_answer p.entry.words.now q.entry.words.now k (length bits.old)) × (bits.new ≡ short_bits p.entry.words.now q.entry.words.now k bits.old) }
{
    shortest::shortest(p.words, q.words, k, bits)
}

// The pump houses nearest to the chamber with an id, the nearest first; the lent numbers are left as `nearest` leaves them. Refused by 1 to 8 of P's words, then
// of Q's, then by 20, then by 10 for the size, then by 25 where fewer numbers are lent than P has points and nodes.
pub fn nearest_at<'a, 'b, 'c>(
    p: Sheet<'a>,
    q: Sheet<'b>,
    id: u32,
    size: usize,
    waiting: &'c mut [u64],
) -> Found
    ensures { (result ≡ nearest_answer p.entry.words.now q.entry.words.now id size (length waiting.old)) × (waiting.new ≡ waited_by (nearest_no p.entry.words.now q.entry.words.now id size (length waiting.old)) p.entry.words.now waiting.old) }
{
    nearest::nearest(p.words, q.words, id, size, waiting)
}

// The filter walk that goes nearest first, its kept set in the words lent; refused by 1 to 8 of P's words, then of Q's, then by 20, then by 24, then by 25.
pub fn near_filter_at<'a, 'b, 'c, 'd>(
    p: Sheet<'a>,
    q: Sheet<'b>,
    id: u32,
    waiting: &'c mut [u64],
    bits: &'d mut [u64],
) -> Filtered
    ensures { (result ≡ near_filtered p.entry.words.now q.entry.words.now id (length bits.old) (length waiting.old)) × (waiting.new ≡ waited_by (near_filter_no p.entry.words.now q.entry.words.now id (length bits.old) (length waiting.old)) p.entry.words.now waiting.old) × (bits.new ≡ near_filtered_bits p.entry.words.now q.entry.words.now id (length waiting.old) bits.old) }
{
    nearest::near_filter(p.words, q.words, id, waiting, bits)
}

// Of a list, to a size, the pairs strictly after a key, in the lent slots, and whether more follow; refused by 1 to 8 of P's words, then of Q's, then by 27 for the contractor, by 26 for the owner bytes,
// by 29, by 9 for the key, by 21 for the threshold, by 40 for the largest size, by 24 for the words lent.
pub fn pairs_at<'a, 'b, 'c, 'd, 'e>(
    p: Sheet<'a>,
    q: Sheet<'b>,
    owners: &'c [u8],
    wanted: Wanted,
    slots: &'d mut [Pair],
    bits: &'e mut [u64],
) -> Many
    ensures { (result ≡ pairs_answer p.entry.words.now q.entry.words.now owners.now wanted (length slots.old) (length bits.old)) × (slots.new ≡ pairs_slots p.entry.words.now q.entry.words.now owners.now wanted slots.old (length bits.old)) × (bits.new ≡ pairs_bits p.entry.words.now q.entry.words.now owners.now wanted bits.old) }
{
    many::batch::pairs(p.words, q.words, owners, wanted, slots, bits)
}

// The same of a self join; refused by 1 to 8 of the words, then by 29, by 9 for the key, by 40 for the largest size, by 24 for the words lent.
pub fn own_pairs_at<'a, 'b, 'c>(
    sheet: Sheet<'a>,
    key: Key,
    largest: u64,
    grid: bool,
    slots: &'b mut [Pair],
    bits: &'c mut [u64],
) -> Many
    ensures { (result ≡ own_pairs_answer sheet.entry.words.now key largest grid (length slots.old) (length bits.old)) × (slots.new ≡ own_pairs_slots sheet.entry.words.now key largest grid slots.old (length bits.old)) × (bits.new ≡ own_pairs_bits sheet.entry.words.now key largest grid bits.old) }
{
    many::batch::own_pairs(sheet.words, key, largest, grid, slots, bits)
}

// How many pairs such a list has; refused by 1 to 8 of P's words, then of Q's, then by 27, by 26, by 29, by 21, by 40, by 24.
pub fn count_at<'a, 'b, 'c, 'd>(
    p: Sheet<'a>,
    q: Sheet<'b>,
    owners: &'c [u8],
    which: Which,
    bits: &'d mut [u64],
) -> Counted
    ensures { (result ≡ count_answer p.entry.words.now q.entry.words.now owners.now which (length bits.old)) × (bits.new ≡ count_bits p.entry.words.now q.entry.words.now owners.now which bits.old) }
{
    many::tally::count(p.words, q.words, owners, which, bits)
}

// The same of a self join; refused by 1 to 8 of the words, then by 29, by 40, by 24.
pub fn own_count_at<'a, 'b>(
    sheet: Sheet<'a>,
    largest: u64,
    grid: bool,
    bits: &'b mut [u64],
) -> Counted
    ensures { (result ≡ own_count_answer sheet.entry.words.now largest grid (length bits.old)) × (bits.new ≡ own_count_bits sheet.entry.words.now largest grid bits.old) }
{
    many::tally::own_count(sheet.words, largest, grid, bits)
}

// The busiest chambers of a list to a size; refused by 1 to 8 of P's words, then of Q's, then by 27 for the contractor, by 26 for the owner bytes, by 29, by 10 for k, by 40 for the largest size,
// by 24 for the words lent.
pub fn busiest_at<'a, 'b, 'c, 'd>(
    p: Sheet<'a>,
    q: Sheet<'b>,
    owners: &'c [u8],
    ask: Question,
    bits: &'d mut [u64],
) -> Busy
    ensures { (result ≡ busy_answer p.entry.words.now q.entry.words.now owners.now ask (length bits.old)) × (bits.new ≡ busy_bits p.entry.words.now q.entry.words.now owners.now ask bits.old) }
{
    ranked::busiest::busiest(p.words, q.words, owners, ask, bits)
}

// The busiest pump houses; refused by 1 to 8 of P's words, then of Q's, then by 29, by 10, by 40, by 24.
pub fn busiest_pumps_at<'a, 'b, 'c>(
    p: Sheet<'a>,
    q: Sheet<'b>,
    k: usize,
    largest: u64,
    grid: bool,
    bits: &'c mut [u64],
) -> Busy
    ensures { (result ≡ pump_answer p.entry.words.now q.entry.words.now k largest grid (length bits.old)) × (bits.new ≡ pump_bits p.entry.words.now q.entry.words.now k largest grid bits.old) }
{
    ranked::busiest::busiest_pumps(p.words, q.words, k, largest, grid, bits)
}

// The most urgent visits of a list to a size; refused as the busiest chambers are, and before 24 by 41 for the scores of P, by 42 for those of Q.
pub fn urgent_at<'a, 'b, 'c, 'd, 'e, 'f>(
    p: Sheet<'a>,
    q: Sheet<'b>,
    owners: &'c [u8],
    ps: &'d [u32],
    qs: &'e [u32],
    ask: Question,
    bits: &'f mut [u64],
) -> Urgent
    ensures { (result ≡ urgent_answer p.entry.words.now q.entry.words.now owners.now ps.now qs.now ask (length bits.old)) × (bits.new ≡ urgent_bits p.entry.words.now q.entry.words.now owners.now ps.now qs.now ask bits.old) }
{
    ranked::visits::urgent(p.words, q.words, owners, ps, qs, ask, bits)
}

// For callers that hold no view: what `open` shows of the words.
pub fn open_head(words: &[i32]) -> Head
    ensures { result ≡ head_of words.now }
{
    let o = open(words);
    Head {
        number: o.number,
        len: o.sheet.words.len(),
        n: o.sheet.n,
        m: o.sheet.m,
    }
}

// The record at a position, through the view that `open` gives: of words that are no sheet it covers none, and the reader refuses by 1.
pub fn point_opened(words: &[i32], position: usize) -> Result<Asset, u32>
    ensures { result ≡ pointed (open_of words.entry).covers position }
{
    let o = open(words);
    point_at(o.sheet, position)
}
