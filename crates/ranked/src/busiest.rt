// The chambers, or the pump houses, that are in the most pairs of a list.
ghost use Rattle.std.specs.Prelude.{◌≡◌, true, ◌≤◌, ◌<◌, length};
ghost use Rattle.plane.specs.Point.{id_at};
ghost use Rattle.sheet.specs.Places.{points_of};
ghost use Rattle.bits.specs.Set.{words_for, none, Holds, Numbered, card};
ghost use Rattle.list.specs.Contractor.{mine};
ghost use Rattle.join.specs.Sheets.{Alone};
ghost use Rattle.sorting.specs.Ranking.{first_by, gathered};
ghost use Rattle.ranked.specs.Orders.{busier_order};
ghost use Rattle.ranked.specs.Busiest.{busier, no_rank, ranks_from, busy_given, busy_refused, busy_answer, busy_bits, pump_answer, pump_bits};
ghost use Rattle.ranked.specs.Ranks.{ranks_of, held_ranks, HeldRanks, Below, Idle, row_rank};

use crate::{Busy, Question, Rank};
use list::Terms;
use sheet::Sheet;
use sorting::{Comparison, Firsts};

// The busiest first: by the number of pairs, then by the lower id.
#[derive(Clone, Copy)]
struct ByPairs;

impl Comparison<Rank> for ByPairs {
    ghost unused = { no_rank };

    ghost before = { busier };

    ghost lawful = { busier_order };

    #[tactic(auto, unfolding(crate::specs::Busiest::busier))]
    fn is_before(self, v: Rank, w: Rank) -> bool {
        (w.pairs < v.pairs) | ((v.pairs == w.pairs) & (v.id < w.id))
    }
}

// Whether no more than so many positions are kept: they are counted until one is too many.
fn has_at_most(bits: &[u64], most: usize) -> bool
    requires { Numbered bits.now }
    ensures { result ≡ true → card bits.now ≤ most }
{
    let n = 64 * bits.len();
    let mut left = most;
    let mut i = seeds::scan::next_from(bits, 0);
    // Kept: each step goes to the next kept bit: the loop counts no index.
    while i < n {
        if left == 0 {
            return false;
        }
        left -= 1;
        i = seeds::scan::next_from(bits, i + 1);
    }
    true
}

// Whether a chamber cannot be among the k busiest whose candidates are kept on the words: k are held, and the candidates are no more than the last of them has pairs. The chambers come in the
// order of their ids, so that with as many pairs it would stand behind that one.
fn is_idle(k: usize, g: Firsts<Rank>, bits: &[u64]) -> bool
    requires { Numbered bits.now × (1 ≤ k) × (k ≤ 16) }
    ensures { Idle (card bits.now) k g result }
{
    match g.last(k) {
        Some(last) => has_at_most(bits, last.pairs as usize),
        None => false,
    }
}

// The chamber at position j is ranked, where it is the contractor's and may be among the k busiest. Its candidates are found once: to be counted, and then to be judged.
fn of_chamber(
    p: Sheet<'_>,
    q: Sheet<'_>,
    owners: &[u8],
    terms: Terms,
    largest: u64,
    k: usize,
    j: usize,
    g: Firsts<Rank>,
    bits: &mut [u64],
) -> Firsts<Rank>
    requires { Alone terms p.words.now q.words.now × (j < q.n) × Holds bits.old p.n × (1 ≤ k) × (k ≤ 16) × HeldRanks k g × Below (id_at (points_of q.words.now) j) (held_ranks g) }
    ensures { result ≡ ranks_of (gathered busier k (ranks_from (mine terms.contractor owners.now) (row_rank largest terms (points_of p.entry.words.now) (points_of q.entry.words.now)) 1 j) (held_ranks g)) }
{
    if !list::is_mine(owners, terms.contractor, j) {
        return g;
    }
    seeds::candidates(p, q, j, bits, terms.grid);
    if is_idle(k, g, bits) {
        return g;
    }
    let found = chamber::keep_pairs(p, q, terms, largest, j, bits);
    // no sheet has more than 60,000 points
    let v = Rank {
        id: q.id_at(j),
        pairs: found as u32,
    };
    let mut r = g;
    r.offered(k, v, ByPairs);
    r
}

// The k busiest of all chambers, one after the other.
fn of_all(
    p: Sheet<'_>,
    q: Sheet<'_>,
    owners: &[u8],
    terms: Terms,
    largest: u64,
    k: usize,
    bits: &mut [u64],
) -> Firsts<Rank>
    requires { Alone terms p.words.now q.words.now × Holds bits.old p.n × (1 ≤ k) × (k ≤ 16) }
    ensures { result ≡ ranks_of (first_by busier k (ranks_from (mine terms.contractor owners.now) (row_rank largest terms (points_of p.entry.words.now) (points_of q.entry.words.now)) q.entry.n 0)) }
{
    let n = q.n;
    let mut g = sorting::Firsts::new(Rank { id: 0, pairs: 0 });
    for j in 0..n {
        g = of_chamber(p, q, owners, terms, largest, k, j, g, bits);
    }
    g
}

// The answer for sheets that open. The words lent are as many as are needed, and zeros after it.
fn given(
    p: Sheet<'_>,
    q: Sheet<'_>,
    owners: &[u8],
    terms: Terms,
    largest: u64,
    k: usize,
    bits: &mut [u64],
) -> Busy
    requires { Alone terms p.words.now q.words.now × (length bits.old ≡ words_for p.n) × (1 ≤ k) × (k ≤ 16) }
    ensures { (result ≡ busy_given (first_by busier k (ranks_from (mine terms.contractor owners.now) (row_rank largest terms (points_of p.entry.words.now) (points_of q.entry.words.now)) q.entry.n 0))) × (bits.new ≡ none (length bits.old)) }
{
    let g = of_all(p, q, owners, terms, largest, k, bits);
    bits::clear(bits);
    let rows = g.rows;
    Busy {
        number: 0,
        count: g.count,
        rows,
    }
}

// Refused: the number, and zeros.
fn refused(number: u32) -> Busy
    ensures { result ≡ busy_refused number }
{
    Busy {
        number,
        count: 0,
        rows: [Rank { id: 0, pairs: 0 }; 16],
    }
}

// Of the contractor's chambers the k that are in the most pairs of the list, in order, ties by the lower id, each with its number of pairs, those with none too; all of them where they are
// fewer. The words lent for kept sets, as many as the points of P need, are zeros after an answer.
// Refused by 1 to 8 of P, then of Q, then by 27 for the contractor, then by 26 for the owner bytes, then by 29 where the street grid is asked of a sheet of form 2, then by 10 where k is not
// 1 to 16, then by 40 for the largest size, then by 24 where fewer words are lent; no word is touched then, nor ever one past them.
pub fn busiest(p: &[i32], q: &[i32], owners: &[u8], asked: Question, bits: &mut [u64]) -> Busy
    ensures { (result ≡ busy_answer p.now q.now owners.now asked (length bits.old)) × (bits.new ≡ busy_bits p.now q.now owners.now asked bits.old) }
{
    let c = match crate::check::checked(p, q, owners, asked) {
        Ok(c) => c,
        Err(no) => return refused(no),
    };
    let w = bits::words_for(c.p.n);
    if bits.len() < w {
        return refused(24);
    }
    let terms = Terms {
        threshold: 0,
        contractor: asked.contractor,
        own: false,
        grid: asked.grid,
    };
    given(
        c.p,
        c.q,
        owners,
        terms,
        asked.largest,
        asked.k,
        &mut bits[..w],
    )
}

// The same of pump houses, of the undivided list: how many chambers each is listed with. The ring rule makes no difference between the two ends of a pair, so the sheets change places.
// The words lent for kept sets are as many as the points of Q need.
// Refused by 1 to 8 of P, then of Q, then by 29, 10, 40 and 24 as above.
pub fn busiest_pumps(
    p: &[i32],
    q: &[i32],
    k: usize,
    largest: u64,
    grid: bool,
    bits: &mut [u64],
) -> Busy
    ensures { (result ≡ pump_answer p.now q.now k largest grid (length bits.old)) × (bits.new ≡ pump_bits p.now q.now k largest grid bits.old) }
{
    let asked = Question {
        k,
        largest,
        contractor: 2,
        grid,
    };
    let c = match crate::check::checked(p, q, b"", asked) {
        Ok(c) => c,
        Err(no) => return refused(no),
    };
    let w = bits::words_for(c.q.n);
    if bits.len() < w {
        return refused(24);
    }
    let terms = Terms {
        threshold: 0,
        contractor: 2,
        own: false,
        grid,
    };
    given(c.q, c.p, b"", terms, largest, k, &mut bits[..w])
}
