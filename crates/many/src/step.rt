// The work of `pairs`, a pair at a time: what is decided before the first, after each, and at the end. What stores the pairs only goes from one to the next.
ghost use Rattle.std.specs.Prelude.{◌≡◌, ◌≢◌, [], ◌∷◌, ◌+◌, ◌≤◌, ◌<◌, length, drop, MatchResult};
ghost use Rattle.bits.specs.Set.{wiped};
ghost use Rattle.many.specs.Many.{pairs_no, own_pairs_no};
ghost use Rattle.many.specs.Step.{Able, Stand, left_of, Ahead, Started, Begun, OwnBegun};

use crate::cursor::Cursor;
use crate::{Many, Wanted};
use list::{Key, Pair, Terms};
use sheet::{Sheet, Size};

// What is to be done: the sheets' counts, the words needed, and which pairs of which list.
#[derive(Clone, Copy)]
pub(crate) struct Task {
    pub hp: Size,
    pub hq: Size,
    pub words: usize,
    pub key: Key,
    pub largest: u64,
    pub terms: Terms,
}

// So many pairs are stored, and where the next is to go on; the pair at hand is to be stored where there are more to come than that; and whether a pair is left with no slot for it.
#[derive(Clone, Copy)]
pub(crate) struct Step {
    pub task: Task,
    pub count: usize,
    pub to: usize,
    pub more: bool,
    pub pair: Pair,
    pub at: usize,
    pub i: usize,
    pub next: usize,
}

// On to the next pair, from where the step stands, for so many slots.
fn step_from(p: &[i32], q: &[i32], owners: &[u8], len: usize, bits: &mut [u64], s: Step) -> Step
    requires { Stand p.now q.now owners.now bits.old s × (s.count ≤ len) }
    ensures { Stand p.now q.now owners.now bits.new result × Ahead p.now q.now owners.now len result × (result.task ≡ s.task) × (result.count ≡ s.count) × (left_of p.now q.now owners.now s.task s.at s.i s.next ≡ left_of p.now q.now owners.now result.task result.at result.i result.next) × (drop s.task.words bits.new ≡ drop s.task.words bits.old) }
{
    let task = s.task;
    let hp = task.hp;
    let hq = task.hq;
    let ps = Sheet {
        words: p,
        n: hp.n,
        m: hp.m,
    };
    let qs = Sheet {
        words: q,
        n: hq.n,
        m: hq.m,
    };
    let terms = task.terms;
    let key = task.key;
    let w = task.words;
    let from = Cursor {
        at: s.at,
        i: s.i,
        next: s.next,
    };
    let c = crate::cursor::advance(
        ps,
        qs,
        owners,
        terms,
        task.largest,
        key,
        from,
        &mut bits[..w],
    );
    let count = s.count;
    if hp.n <= c.i {
        return Step {
            task,
            count,
            to: count,
            more: false,
            pair: Pair {
                q: 0,
                p: 0,
                size: 0,
            },
            at: c.at,
            i: c.i,
            next: c.next,
        };
    }
    let pair = walk::pair::pair_by(ps, qs, c.at, c.i, terms.grid);
    if count < len {
        return Step {
            task,
            count,
            to: count + 1,
            more: false,
            pair,
            at: c.at,
            i: c.i,
            next: c.next,
        };
    }
    Step {
        task,
        count,
        to: count,
        more: true,
        pair,
        at: c.at,
        i: c.i,
        next: c.next,
    }
}

// The step to the first pair, or the number that the call is refused by, and no word is touched then.
pub(crate) fn first_step(
    p: &[i32],
    q: &[i32],
    owners: &[u8],
    wanted: Wanted,
    len: usize,
    bits: &mut [u64],
) -> Result<Step, u32>
    ensures { MatchResult result (λ s. Begun p.now q.now owners.now wanted len bits.old bits.new s) (λ k. (k ≡ pairs_no p.now q.now owners.now wanted (length bits.old)) × (k ≢ 0) × (bits.new ≡ bits.old)) }
{
    let c = crate::check::checked_both(p, q, owners, wanted, bits.len())?;
    let task = Task {
        hp: Size { n: c.p.n, m: c.p.m },
        hq: Size { n: c.q.n, m: c.q.m },
        words: c.words,
        key: wanted.key,
        largest: wanted.largest,
        terms: Terms {
            threshold: wanted.threshold,
            contractor: wanted.contractor,
            own: false,
            grid: wanted.grid,
        },
    };
    Ok(started(p, q, owners, len, bits, task))
}

// The same of a self join.
pub(crate) fn own_first(
    s: &[i32],
    key: Key,
    largest: u64,
    grid: bool,
    len: usize,
    bits: &mut [u64],
) -> Result<Step, u32>
    ensures { MatchResult result (λ st. OwnBegun s.now key largest grid len bits.old bits.new st) (λ k. (k ≡ own_pairs_no s.now key largest grid (length bits.old)) × (k ≢ 0) × (bits.new ≡ bits.old)) }
{
    let c = crate::check::checked_own(s, key, largest, grid, bits.len())?;
    let task = Task {
        hp: Size { n: c.p.n, m: c.p.m },
        hq: Size { n: c.q.n, m: c.q.m },
        words: c.words,
        key,
        largest,
        terms: Terms {
            threshold: 0,
            contractor: 2,
            own: true,
            grid,
        },
    };
    Ok(started(s, s, b"", len, bits, task))
}

// The step to the first pair of a task.
fn started(p: &[i32], q: &[i32], owners: &[u8], len: usize, bits: &mut [u64], task: Task) -> Step
    requires { Able p.now q.now task (length bits.old) }
    ensures { Started p.now q.now owners.now len bits.old bits.new task result }
{
    let qs = Sheet {
        words: q,
        n: task.hq.n,
        m: task.hq.m,
    };
    let first = crate::cursor::first_chamber(qs, task.key);
    let s = Step {
        task,
        count: 0,
        to: 0,
        more: false,
        pair: Pair {
            q: 0,
            p: 0,
            size: 0,
        },
        at: 0,
        i: task.hp.n,
        next: first,
    };
    step_from(p, q, owners, len, bits, s)
}

// The pair at hand is stored: on to the next.
pub(crate) fn another(
    p: &[i32],
    q: &[i32],
    owners: &[u8],
    len: usize,
    bits: &mut [u64],
    s: Step,
) -> Step
    requires { Stand p.now q.now owners.now bits.old s × Ahead p.now q.now owners.now len s × (s.count < s.to) }
    ensures { Stand p.now q.now owners.now bits.new result × Ahead p.now q.now owners.now len result × (result.task ≡ s.task) × (result.count ≡ s.count + 1) × (left_of p.now q.now owners.now s.task s.at s.i s.next ≡ s.pair ∷ left_of p.now q.now owners.now result.task result.at result.i result.next) × (drop s.task.words bits.new ≡ drop s.task.words bits.old) }
{
    let mut t = s;
    t.count = s.count + 1;
    t.i = s.i + 1;
    step_from(p, q, owners, len, bits, t)
}

// The same of a self join.
pub(crate) fn own_another(s: &[i32], len: usize, bits: &mut [u64], st: Step) -> Step
    requires { Stand s.now s.now [] bits.old st × Ahead s.now s.now [] len st × (st.count < st.to) }
    ensures { Stand s.now s.now [] bits.new result × Ahead s.now s.now [] len result × (result.task ≡ st.task) × (result.count ≡ st.count + 1) × (left_of s.now s.now [] st.task st.at st.i st.next ≡ st.pair ∷ left_of s.now s.now [] result.task result.at result.i result.next) × (drop st.task.words bits.new ≡ drop st.task.words bits.old) }
{
    another(s, s, b"", len, bits, st)
}

// At the end: the answer, with zeros in the words that were needed.
pub(crate) fn finish(s: Step, bits: &mut [u64]) -> Many
    requires { s.task.words ≤ length bits.old }
    ensures { (result ≡ record { number = 0; count = s.count; more = s.more }) × (bits.new ≡ wiped s.task.words bits.old) }
{
    let w = s.task.words;
    bits::clear(&mut bits[..w]);
    Many {
        number: 0,
        count: s.count,
        more: s.more,
    }
}
