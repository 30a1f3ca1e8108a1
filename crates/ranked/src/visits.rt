// The visits of a list with the highest sum of scores.
ghost use Rattle.std.specs.Prelude.{◌≡◌, ◌↔◌, false, [], ◌∷◌, map, ◌≤◌, ◌<◌, length, IsTrue, EachIndex, slice_index};
ghost use Rattle.plane.specs.Point.{id_at};
ghost use Rattle.sheet.specs.Places.{points_of};
ghost use Rattle.bits.specs.Set.{words_for, none, Holds};
ghost use Rattle.list.specs.Rows.{row};
ghost use Rattle.list.specs.RingList.{pair_by};
ghost use Rattle.list.specs.Terms.{profile_for};
ghost use Rattle.chamber.specs.Sized.{small_for, listed_to, list_to};
ghost use Rattle.words.specs.First.{first};
ghost use Rattle.ring.specs.Lent.{bits_no};
ghost use Rattle.sorting.specs.Ranking.{first_by, gathered};
ghost use Rattle.ranked.specs.Orders.{ahead_order};
ghost use Rattle.ranked.specs.Urgent.{ahead, no_visit, scores_ok, scores_no, visit_of, urgent_given, urgent_refused, urgent_answer, urgent_bits};
ghost use Rattle.ranked.specs.Visits.{tops_of, held_visits, HeldVisits, Past, Scored, Greatest, Late, Listed, scored, with_score};

use crate::{Question, Urgent, Visit};
use list::{Pair, Terms};
use sheet::Sheet;
use sorting::{Comparison, Firsts};

// The most urgent first: by the score, then q id, then p id.
#[derive(Clone, Copy)]
struct ByScore;

impl Comparison<Visit> for ByScore {
    ghost unused = { no_visit };

    ghost before = { ahead };

    ghost lawful = { ahead_order };

    #[tactic(auto, unfolding(crate::specs::Urgent::ahead))]
    fn is_before(self, v: Visit, w: Visit) -> bool {
        let later = list::is_after(list::key_of(v.pair), list::key_of(w.pair));
        (w.score < v.score) | ((v.score == w.score) & later)
    }
}

// Whether each score is one of 0 to 1,000,000,000.
fn are_scores(scores: &[u32]) -> bool
    ensures { IsTrue result ↔ EachIndex scores.now (λ i. slice_index scores.now i ≤ 1000000000) }
{
    scores.iter().all(|x| *x <= 1_000_000_000)
}

// Whether the scores are one of 0 to 1,000,000,000 for each of n points.
fn scores_ok(scores: &[u32], n: usize) -> bool
    ensures { result ≡ scores_ok scores.now n }
{
    scores.len() == n && are_scores(scores)
}

// The number for scores that are not, or 0.
fn scores_no(number: u32, scores: &[u32], n: usize) -> u32
    ensures { result ≡ scores_no number scores.now n }
{
    if !scores_ok(scores, n) {
        return number;
    }
    0
}

// The greatest score, 0 where there is none.
fn greatest(scores: &[u32]) -> u32
    requires { Scored scores.now (length scores.now) }
    ensures { Greatest scores.now result }
{
    let mut top = 0;
    for x in scores {
        top = top.max(*x);
    }
    top
}

// The pair of position j of Q and position i of P, with its score, is offered where it is one of the list. One that would not be among the k is not ring-walked.
fn of_pair(
    p: Sheet<'_>,
    q: Sheet<'_>,
    terms: Terms,
    largest: u64,
    k: usize,
    j: usize,
    i: usize,
    score: u64,
    g: &mut Firsts<Visit>,
)
    requires { (terms.own ≡ false) × (j < q.n) × (i < p.n) × (1 ≤ k) × (k ≤ 16) × HeldVisits k g.old }
    ensures { g.new ≡ tops_of (gathered ahead k (map (scored score) (row (small_for largest terms (points_of p.entry.words.now) (points_of q.entry.words.now)) (pair_by (profile_for terms) (points_of p.entry.words.now) (points_of q.entry.words.now)) j 1 i)) (held_visits g.old)) }
{
    let pair = walk::pair::pair_by(p, q, j, i, terms.grid);
    if largest < pair.size {
        return;
    }
    let v = Visit { pair, score };
    if !g.enters(k, v, ByScore) {
        return;
    }
    let x = walk::ring::pair_walk_by(p, q, j, i, terms.grid);
    if !walk::clear_after(x) {
        return;
    }
    g.offered(k, v, ByScore);
}

// The pairs of the chamber at position j, which has this score, one candidate after the other.
fn of_chamber(
    p: Sheet<'_>,
    q: Sheet<'_>,
    p_scores: &[u32],
    terms: Terms,
    largest: u64,
    k: usize,
    j: usize,
    own: u64,
    g: Firsts<Visit>,
    bits: &mut [u64],
) -> Firsts<Visit>
    requires { (terms.own ≡ false) × (j < q.n) × Holds bits.old p.n × Scored p_scores.now p.n × (own ≤ 1000000000) × (1 ≤ k) × (k ≤ 16) × HeldVisits k g }
    ensures { result ≡ tops_of (gathered ahead k (map (with_score (points_of p.entry.words.now) p_scores.now own) (row (small_for largest terms (points_of p.entry.words.now) (points_of q.entry.words.now)) (pair_by (profile_for terms) (points_of p.entry.words.now) (points_of q.entry.words.now)) j p.entry.n 0)) (held_visits g)) }
{
    let n = p.n;
    seeds::candidates(p, q, j, bits, terms.grid);
    let mut r = g;
    let mut i = bits::next_from(bits, 0);
    // Kept: each step goes to the next kept bit: the loop counts no index.
    while i < n {
        let score = own + u64::from(p_scores[i]);
        of_pair(p, q, terms, largest, k, j, i, score, &mut r);
        i = bits::next_from(bits, i + 1);
    }
    r
}

// Whether no visit of a later chamber with at most this score would be among the k.
fn is_late(g: Firsts<Visit>, k: usize, most: u64) -> bool
    requires { (1 ≤ k) × (k ≤ 16) }
    ensures { Late most k g result }
{
    g.last(k).is_some_and(|last| most <= last.score)
}

// The chamber at position j: where it is the contractor's, and a pair of it may be among the k.
fn of_next(
    p: Sheet<'_>,
    q: Sheet<'_>,
    owners: &[u8],
    p_scores: &[u32],
    q_scores: &[u32],
    terms: Terms,
    largest: u64,
    k: usize,
    top: u32,
    j: usize,
    g: Firsts<Visit>,
    bits: &mut [u64],
) -> Firsts<Visit>
    requires { Listed terms × (j < q.n) × Holds bits.old p.n × Scored p_scores.now p.n × Scored q_scores.now q.n × Greatest p_scores.now top × (1 ≤ k) × (k ≤ 16) × HeldVisits k g × Past (id_at (points_of q.words.now) j) (held_visits g) }
    ensures { result ≡ tops_of (gathered ahead k (map (visit_of (points_of p.entry.words.now) (points_of q.entry.words.now) p_scores.now q_scores.now) (row (listed_to largest terms owners.now (points_of p.entry.words.now) (points_of q.entry.words.now)) (pair_by (profile_for terms) (points_of p.entry.words.now) (points_of q.entry.words.now)) j p.entry.n 0)) (held_visits g)) }
{
    if !list::is_mine(owners, terms.contractor, j) {
        return g;
    }
    let own = u64::from(q_scores[j]);
    if is_late(g, k, own + u64::from(top)) {
        return g;
    }
    of_chamber(p, q, p_scores, terms, largest, k, j, own, g, bits)
}

// All chambers, one after the other.
fn of_all(
    p: Sheet<'_>,
    q: Sheet<'_>,
    owners: &[u8],
    p_scores: &[u32],
    q_scores: &[u32],
    terms: Terms,
    largest: u64,
    k: usize,
    bits: &mut [u64],
) -> Firsts<Visit>
    requires { Listed terms × Holds bits.old p.n × Scored p_scores.now p.n × Scored q_scores.now q.n × (1 ≤ k) × (k ≤ 16) }
    ensures { result ≡ tops_of (first_by ahead k (map (visit_of (points_of p.entry.words.now) (points_of q.entry.words.now) p_scores.now q_scores.now) (list_to largest terms owners.now (points_of p.entry.words.now) (points_of q.entry.words.now)))) }
{
    let n = q.n;
    let top = greatest(p_scores);
    let mut g = sorting::Firsts::new(Visit {
        pair: Pair {
            q: 0,
            p: 0,
            size: 0,
        },
        score: 0,
    });
    for j in 0..n {
        g = of_next(
            p, q, owners, p_scores, q_scores, terms, largest, k, top, j, g, bits,
        );
    }
    g
}

// The answer for sheets that open. The words lent are as many as are needed, and zeros after it.
fn given(
    p: Sheet<'_>,
    q: Sheet<'_>,
    owners: &[u8],
    p_scores: &[u32],
    q_scores: &[u32],
    terms: Terms,
    largest: u64,
    k: usize,
    bits: &mut [u64],
) -> Urgent
    requires { Listed terms × (length bits.old ≡ words_for p.n) × Scored p_scores.now p.n × Scored q_scores.now q.n × (1 ≤ k) × (k ≤ 16) }
    ensures { (result ≡ urgent_given (first_by ahead k (map (visit_of (points_of p.entry.words.now) (points_of q.entry.words.now) p_scores.now q_scores.now) (list_to largest terms owners.now (points_of p.entry.words.now) (points_of q.entry.words.now))))) × (bits.new ≡ none (length bits.old)) }
{
    let g = of_all(p, q, owners, p_scores, q_scores, terms, largest, k, bits);
    bits::clear(bits);
    let rows = g.rows;
    Urgent {
        number: 0,
        count: g.count,
        rows,
    }
}

// Refused: the number, and zeros.
fn refused(number: u32) -> Urgent
    ensures { result ≡ urgent_refused number }
{
    Urgent {
        number,
        count: 0,
        rows: [Visit {
            pair: Pair {
                q: 0,
                p: 0,
                size: 0,
            },
            score: 0,
        }; 16],
    }
}

// What is refused after all that is asked: the scores of P by 41, those of Q by 42, then by 24 where fewer words are lent.
fn last_no(
    p_scores: &[u32],
    np: usize,
    q_scores: &[u32],
    nq: usize,
    words: usize,
    len: usize,
) -> u32
    ensures { result ≡ first (scores_no 41 p_scores.now np ∷ scores_no 42 q_scores.now nq ∷ bits_no words len ∷ []) }
{
    let a = scores_no(41, p_scores, np);
    if a != 0 {
        return a;
    }
    let b = scores_no(42, q_scores, nq);
    if b != 0 {
        return b;
    }
    if len < words {
        return 24;
    }
    0
}

// Of the contractor's list to the largest size the k pairs with the highest sum of the scores of their two ends, in order, ties by q id and then p id, each with its score; all of them where
// they are fewer. A score is lent for each record, by position. The words lent for kept sets, as many as the points of P need, are zeros after an answer.
// Refused by 1 to 8 of P, then of Q, then by 27 for the contractor, then by 26 for the owner bytes, then by 29 where the street grid is asked of a sheet of form 2, then by 10 where k is not
// 1 to 16, then by 40 for the largest size, then by 41 where the scores of P are not one of 0 to 1,000,000,000 for each of its points, then by 42 for those of Q, then by 24 where fewer words
// are lent; no word is touched then, nor ever one past them.
pub fn urgent(
    p: &[i32],
    q: &[i32],
    owners: &[u8],
    p_scores: &[u32],
    q_scores: &[u32],
    asked: Question,
    bits: &mut [u64],
) -> Urgent
    ensures { (result ≡ urgent_answer p.now q.now owners.now p_scores.now q_scores.now asked (length bits.old)) × (bits.new ≡ urgent_bits p.now q.now owners.now p_scores.now q_scores.now asked bits.old) }
{
    let c = match crate::check::checked(p, q, owners, asked) {
        Ok(c) => c,
        Err(no) => return refused(no),
    };
    let w = bits::words_for(c.p.n);
    let no = last_no(p_scores, c.p.n, q_scores, c.q.n, w, bits.len());
    if no != 0 {
        return refused(no);
    }
    let terms = Terms {
        threshold: 0,
        contractor: asked.contractor,
        own: false,
        grid: asked.grid,
    };
    given(
        c.p,
        c.q,
        owners,
        p_scores,
        q_scores,
        terms,
        asked.largest,
        asked.k,
        &mut bits[..w],
    )
}
