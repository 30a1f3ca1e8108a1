// The pairs of one chamber, kept on lent words: exactly those that the rule makes.
#![tactic(auto)]

mod clear;
pub mod number;

ghost use Rattle.std.specs.Prelude.{◌≡◌, not, ◌&&◌, ◌||◌, ◌<◌, leb, ltb};
ghost use Rattle.plane.specs.Rule.{SpotIn, same_spot};
ghost use Rattle.plane.specs.Point.{id_at, spot_at};
ghost use Rattle.sheet.specs.Places.{points_of};
ghost use Rattle.bits.specs.Set.{Holds};
ghost use Rattle.list.specs.RingList.{pair_by};
ghost use Rattle.list.specs.Terms.{profile_for};
ghost use Rattle.join.specs.Sheets.{Alone};
ghost use Rattle.seeds.specs.Covers.{Covers};
ghost use Rattle.chamber.specs.Sized.{small_for, listed_to};
ghost use Rattle.chamber.specs.Chamber.{free_of, Right, PairsOn, ListedOn};

use list::Terms;
use plane::Spot;
use sheet::Sheet;

// What was found of a place: where it is, and whether its pair with the chamber is clear.
#[derive(Clone, Copy)]
pub(crate) struct Found {
    known: bool,
    at: Spot,
    clear: bool,
}

// What was found of the two places tried last. For a record at the place of either no walk is made again.
#[derive(Clone, Copy)]
pub(crate) struct Seen {
    last: Found,
    other: Found,
}

// Whether a pair is one of those asked for, and what was found last.
#[derive(Clone, Copy)]
struct Judged {
    holds: bool,
    seen: Seen,
}

// Whether no record of either sheet blocks the pair of the places a and b. Of a self join the sheets are one.
fn is_free(p: Sheet<'_>, q: Sheet<'_>, terms: Terms, a: Spot, b: Spot) -> bool
    requires { Alone terms p.words.now q.words.now × SpotIn a × SpotIn b }
    ensures { result ≡ free_of terms p.entry.words.now q.entry.words.now a b }
{
    let grid = terms.grid;
    let own = terms.own;
    if !clear::clear_on(q, a, b, grid) {
        return false;
    }
    if own {
        return true;
    }
    clear::clear_on(p, a, b, grid)
}

// Whether something was found of the place b.
fn is_of(found: Found, b: Spot) -> bool
    requires { SpotIn found.at × SpotIn b }
    ensures { result ≡ (found.known && same_spot found.at b) }
{
    let at = found.at;
    found.known & plane::is_same(at, b)
}

// The same, by what was found of the place b where it is one of the two tried last: it is the last from now on.
fn seen_at(p: Sheet<'_>, q: Sheet<'_>, terms: Terms, a: Spot, b: Spot, seen: Seen) -> Seen
    requires { Alone terms p.words.now q.words.now × SpotIn a × SpotIn b × Right terms p.words.now q.words.now a seen.last.known seen.last.at seen.last.clear × Right terms p.words.now q.words.now a seen.other.known seen.other.at seen.other.clear }
    ensures { Right terms p.entry.words.now q.entry.words.now a result.last.known result.last.at result.last.clear × Right terms p.entry.words.now q.entry.words.now a result.other.known result.other.at result.other.clear × (result.last.clear ≡ free_of terms p.entry.words.now q.entry.words.now a b) }
{
    let last = seen.last;
    let other = seen.other;
    if is_of(last, b) {
        return seen;
    }
    if is_of(other, b) {
        return Seen {
            last: other,
            other: last,
        };
    }
    Seen {
        last: Found {
            known: true,
            at: b,
            clear: is_free(p, q, terms, a, b),
        },
        other: last,
    }
}

// Whether the pair of position j of Q and position i of P may be asked for, whatever blocks it: of a self join the ids ascend; and its size is at most the largest.
fn may_be(p: Sheet<'_>, q: Sheet<'_>, terms: Terms, largest: u64, j: usize, i: usize) -> bool
    requires { (j < q.n) × (i < p.n) }
    ensures { result ≡ ((not terms.own || ltb (id_at (points_of q.entry.words.now) j) (id_at (points_of p.entry.words.now) i)) && leb ((profile_for terms).size (spot_at (points_of q.entry.words.now) j) (spot_at (points_of p.entry.words.now) i)) largest) }
{
    let v = walk::pair::pair_by(p, q, j, i, terms.grid);
    let own = terms.own;
    (!own | (v.q < v.p)) & (v.size <= largest)
}

// Whether the pair of position j of Q and position i of P is one of those asked for.
fn judge(
    p: Sheet<'_>,
    q: Sheet<'_>,
    terms: Terms,
    largest: u64,
    j: usize,
    i: usize,
    a: Spot,
    seen: Seen,
) -> Judged
    requires { Alone terms p.words.now q.words.now × (j < q.n) × (i < p.n) × (a ≡ spot_at (points_of q.words.now) j) × Right terms p.words.now q.words.now a seen.last.known seen.last.at seen.last.clear × Right terms p.words.now q.words.now a seen.other.known seen.other.at seen.other.clear }
    ensures { (result.holds ≡ small_for largest terms (points_of p.entry.words.now) (points_of q.entry.words.now) j i) × Right terms p.entry.words.now q.entry.words.now a result.seen.last.known result.seen.last.at result.seen.last.clear × Right terms p.entry.words.now q.entry.words.now a result.seen.other.known result.seen.other.at result.seen.other.clear }
{
    if !may_be(p, q, terms, largest, j, i) {
        return Judged { holds: false, seen };
    }
    let b = p.spot_at(i);
    let s = seen_at(p, q, terms, a, b, seen);
    let last = s.last;
    let clear = last.clear;
    Judged {
        holds: clear,
        seen: s,
    }
}

// Of the candidates of the chamber at position j, which are kept, those stay kept whose pair is asked for: how many they are.
pub fn keep_pairs(
    p: Sheet<'_>,
    q: Sheet<'_>,
    terms: Terms,
    largest: u64,
    j: usize,
    bits: &mut [u64],
) -> usize
    requires { Alone terms p.words.now q.words.now × (j < q.n) × Holds bits.old p.n × Covers terms.grid p.words.now q.words.now j bits.old }
    ensures { PairsOn (small_for largest terms (points_of p.entry.words.now) (points_of q.entry.words.now)) (pair_by (profile_for terms) (points_of p.entry.words.now) (points_of q.entry.words.now)) j p.entry.n bits.new result }
{
    let n = p.n;
    let a = q.spot_at(j);
    let none = Found {
        known: false,
        at: a,
        clear: false,
    };
    let mut seen = Seen {
        last: none,
        other: none,
    };
    let mut count: usize = 0;
    let mut i = seeds::scan::next_from(bits, 0);
    // Kept: each step goes to the next kept bit, and the walk may take bits away: the loop counts no index.
    while i < n {
        let r = judge(p, q, terms, largest, j, i, a, seen);
        seen = r.seen;
        if r.holds {
            count += 1;
        } else {
            bits::remove(bits, i);
        }
        i = seeds::scan::next_from(bits, i + 1);
    }
    count
}

// The pairs of the chamber at position j, kept on the words lent: how many they are.
pub fn pairs_of(
    p: Sheet<'_>,
    q: Sheet<'_>,
    terms: Terms,
    largest: u64,
    j: usize,
    bits: &mut [u64],
) -> usize
    requires { Alone terms p.words.now q.words.now × (j < q.n) × Holds bits.old p.n }
    ensures { PairsOn (small_for largest terms (points_of p.entry.words.now) (points_of q.entry.words.now)) (pair_by (profile_for terms) (points_of p.entry.words.now) (points_of q.entry.words.now)) j p.entry.n bits.new result }
{
    seeds::candidates(p, q, j, bits, terms.grid);
    keep_pairs(p, q, terms, largest, j, bits)
}

fn wide(t: u32) -> usize
    ensures { result ≡ t }
{
    t as usize
}

// How many pairs of the chamber at position j are listed; where there are any they are kept on the words lent.
pub fn listed_of(
    p: Sheet<'_>,
    q: Sheet<'_>,
    owners: &[u8],
    terms: Terms,
    largest: u64,
    j: usize,
    bits: &mut [u64],
) -> usize
    requires { Alone terms p.words.now q.words.now × (j < q.n) × Holds bits.old p.n }
    ensures { ListedOn (listed_to largest terms owners.now (points_of p.entry.words.now) (points_of q.entry.words.now)) (pair_by (profile_for terms) (points_of p.entry.words.now) (points_of q.entry.words.now)) j p.entry.n bits.new result }
{
    if !list::is_mine(owners, terms.contractor, j) {
        return 0;
    }
    let found = pairs_of(p, q, terms, largest, j, bits);
    if found < wide(terms.threshold) {
        return 0;
    }
    found
}
