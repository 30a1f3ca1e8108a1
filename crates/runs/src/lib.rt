// One run per leaf: the ring pairs of a leaf's chambers, stored in a slice that the caller lends, over words that the caller lends.
#![tactic(auto)]

ghost use Rattle.std.specs.Prelude.{◌≡◌, ◌*◌, [], ◌∷◌, ◌++◌, ◌≤◌, length, take, drop};
ghost use Rattle.sheet.specs.Layout.{points, nodes};
ghost use Rattle.sheet.specs.Open.{Opens};
ghost use Rattle.list.specs.Lent.{lent_of};
ghost use Rattle.ring.specs.Lent.{wiped_by};
ghost use Rattle.runs.specs.Run.{leaf_no, run_need, run_refused, run_answer, run_slots, run_bits, with_slots, run_array};
ghost use Rattle.runs.specs.Ready.{Handed, MadeOn, run_left, Ready, Worked};

use leaf::run::Step;
use list::Pair;
use sheet::Sheet;

// What a leaf run answers: 0, how many pairs it stored and the nodes opened; or the number of refusal and zeros.
// Kept: the C interface; `ring_leaf_run` of ffi hands it to C as it stands.
#[repr(C)]
#[derive(Clone, Copy)]
pub struct Run {
    pub number: u32,
    pub count: usize,
    pub opened: u64,
}

// A refused run: its number, and zeros.
fn refused(number: u32) -> Run
    ensures { result ≡ run_refused number }
{
    Run {
        number,
        count: 0,
        opened: 0,
    }
}

// 19 where a sheet that opens has no such leaf, else 0.
fn leaf_no(q: Sheet<'_>, leaf: usize) -> u32
    ensures { result ≡ leaf_no q.entry.words.now leaf }
{
    if q.m <= leaf {
        return 19;
    }
    if q.level_at(leaf) != 0 {
        return 19;
    }
    0
}

// The first k words of `from`, to the first k of `to`.
fn copy_words(from: &[u64], to: &mut [u64], k: usize)
    requires { (k ≤ length from.now) × (k ≤ length to.old) }
    ensures { to.new ≡ take k from.now ++ drop k to.old }
{
    for i in 0..k {
        to[i] = from[i];
    }
}

// The run for `len` slots, on just the words that it needs. That its pairs outnumber the slots is known only when they stand there:
// the words are put back from their copy then.
fn made_saved(
    p: Sheet<'_>,
    q: Sheet<'_>,
    leaf: usize,
    words: usize,
    len: usize,
    saved: &mut [u64],
    bits: &mut [u64],
) -> Run
    requires { Handed q.words.now p.n q.n q.m leaf words bits.old × (length bits.old ≤ length saved.old) }
    ensures { MadeOn p.entry.words.now q.entry.words.now leaf words len result bits.old bits.new }
{
    let k = bits.len();
    copy_words(bits, saved, k);
    let made = leaf::run::run_made(p, q, leaf, words, bits);
    if len < made.count {
        copy_words(saved, bits, k);
        return refused(16);
    }
    Run {
        number: 0,
        count: made.count,
        opened: made.opened,
    }
}

// The same, with room for a copy of N words.
fn made_in<const N: usize>(
    p: Sheet<'_>,
    q: Sheet<'_>,
    leaf: usize,
    words: usize,
    len: usize,
    bits: &mut [u64],
) -> Run
    requires { Handed q.words.now p.n q.n q.m leaf words bits.old × (16 * words ≤ N) × (N ≤ 15008) }
    ensures { MadeOn p.entry.words.now q.entry.words.now leaf words len result bits.old bits.new }
{
    let mut saved = [0u64; N];
    made_saved(p, q, leaf, words, len, &mut saved, bits)
}

// The same, with no more room for the copy than the size of the sheet asks for: for sixteen kept sets of 1,024 positions, as many as form 1 has, or of 60,000.
fn made_on(
    p: Sheet<'_>,
    q: Sheet<'_>,
    leaf: usize,
    words: usize,
    len: usize,
    bits: &mut [u64],
) -> Run
    requires { Handed q.words.now p.n q.n q.m leaf words bits.old }
    ensures { MadeOn p.entry.words.now q.entry.words.now leaf words len result bits.old bits.new }
{
    if words <= 16 {
        return made_in::<256>(p, q, leaf, words, len, bits);
    }
    made_in::<15008>(p, q, leaf, words, len, bits)
}

// All that is decided of a run for `len` slots: its answer, and its pairs kept on the first of the lent words.
// A refusal leaves the words as they stood.
fn decide(p: &[i32], q: &[i32], leaf: usize, len: usize, bits: &mut [u64]) -> Run
    ensures { (result ≡ run_answer p.now q.now leaf len (length bits.old)) × Worked p.now q.now leaf result.number bits.old bits.new }
{
    let ps = match Sheet::open(p) {
        Ok(ps) => ps,
        Err(no) => return refused(no),
    };
    let qs = match Sheet::open(q) {
        Ok(qs) => qs,
        Err(no) => return refused(no),
    };
    let no = leaf_no(qs, leaf);
    if no != 0 {
        return refused(no);
    }
    let words = bits::words_for(ps.n);
    let w = 16 * words;
    if bits.len() < w {
        return refused(24);
    }
    made_on(ps, qs, leaf, words, len, &mut bits[..w])
}

// The next pair of a run from bit `at` on, and the bit after it.
fn next_pair(p: &[i32], q: &[i32], leaf: usize, bits: &[u64], at: usize) -> Step
    requires { Ready p.now q.now leaf bits.now × (run_left p.now q.now leaf bits.now at ≡ [] → ⊥) }
    ensures { run_left p.now q.now leaf bits.now at ≡ result.pair ∷ run_left p.now q.now leaf bits.now result.next }
{
    let ps = Sheet::known(p);
    let qs = Sheet::known(q);
    let each = bits::words_for(ps.n);
    let w = 16 * each;
    leaf::run::pair_from(ps, qs, leaf, each, &bits[..w], at)
}

// The answer, with zeros in the first of the lent words where it is one.
fn finish(r: Run, p: &[i32], bits: &mut [u64]) -> Run
    requires { r.number ≡ 0 → Opens p.now (points p.now) (nodes p.now) × (run_need p.now ≤ length bits.old) }
    ensures { (result ≡ r) × (bits.new ≡ wiped_by r.number (run_need p.now) bits.old) }
{
    if r.number != 0 {
        return r;
    }
    let ps = Sheet::known(p);
    let w = 16 * bits::words_for(ps.n);
    bits::clear(&mut bits[..w]);
    r
}

// The ring pairs of the chambers of a leaf of Q, by place, then p id, stored from the first slot on; the slots past them are not touched.
// The words lent for kept sets, sixteen times as many as the points of P need, are zeros after an answer; the words past them are not touched.
// Refused by 1 to 8 of P, then of Q, then by 19 where Q has no such leaf, then by 24 where fewer words are lent, then by 16 exactly where the
// pairs outnumber the slots; no slot and no word is changed then.
pub fn leaf_run(p: &[i32], q: &[i32], leaf: usize, slots: &mut [Pair], bits: &mut [u64]) -> Run
    ensures { (result ≡ run_answer p.now q.now leaf (length slots.old) (length bits.old)) × (slots.new ≡ run_slots p.now q.now leaf slots.old (length bits.old)) × (bits.new ≡ run_bits p.now q.now leaf (length slots.old) bits.old) }
{
    let len = slots.len();
    let r = decide(p, q, leaf, len, bits);
    let mut at: usize = 0;
    for k in 0..r.count {
        let s = next_pair(p, q, leaf, bits, at);
        slots[k] = s.pair;
        at = s.next;
    }
    finish(r, p, bits)
}

// 256 slots, and what `leaf_run` answered of those lent to it.
#[derive(Clone, Copy)]
pub struct RunArray {
    pub slots: [Pair; 256],
    pub run: Run,
}

// How many of 256 slots are lent.
fn lent_of(len: usize) -> usize
    ensures { result ≡ lent_of 256 len }
{
    list::lent_of(256, len)
}

fn with_slots(slots: [Pair; 256], run: Run) -> RunArray
    ensures { result ≡ with_slots slots run }
{
    RunArray { slots, run }
}

// `leaf_run` on the first `len` of 256 slots, which are lent for the call and come back; on all 256 where `len` exceeds that.
// For callers that keep their slots by value.
pub fn run_array(
    p: &[i32],
    q: &[i32],
    leaf: usize,
    slots: [Pair; 256],
    len: usize,
    bits: &mut [u64],
) -> RunArray
    ensures { (result ≡ run_array p.now q.now leaf slots len (length bits.old)) × (bits.new ≡ run_bits p.now q.now leaf (length (take (lent_of 256 len) slots)) bits.old) }
{
    let mut own = slots;
    let n = lent_of(len);
    let run = leaf_run(p, q, leaf, &mut own[..n], bits);
    with_slots(own, run)
}
