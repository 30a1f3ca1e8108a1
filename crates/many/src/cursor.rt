// From one pair of a list to the next, in its order.
ghost use Rattle.std.specs.Prelude.{◌≤◌, ◌<◌};
ghost use Rattle.sheet.specs.Places.{points_of};
ghost use Rattle.bits.specs.Set.{Holds};
ghost use Rattle.list.specs.RingList.{pair_by};
ghost use Rattle.list.specs.Terms.{profile_for};
ghost use Rattle.join.specs.Sheets.{Alone};
ghost use Rattle.chamber.specs.Sized.{listed_to};
ghost use Rattle.many.specs.Cursor.{Seeks, Early, Entered, Holding, Advanced};

use list::{Key, Terms};
use sheet::Sheet;

// Where the search stands: the chamber whose pairs are kept on the words lent, the position to go on from there, and the chamber after which none was entered yet.
#[derive(Clone, Copy)]
pub(crate) struct Cursor {
    pub at: usize,
    pub i: usize,
    pub next: usize,
}

// The first chamber whose id is not below the key's, or their number.
pub(crate) fn first_chamber(q: Sheet<'_>, key: Key) -> usize
    ensures { (result ≤ q.entry.n) × Early (points_of q.entry.words.now) key result }
{
    for j in 0..q.n {
        if q.id_at(j) >= key.q {
            return j;
        }
    }
    q.n
}

// The first kept position from i on whose pair with the chamber at position j is after the key, or one past the points.
fn late_from(p: Sheet<'_>, q: Sheet<'_>, key: Key, j: usize, i: usize, bits: &[u64]) -> usize
    requires { Holds bits.now p.n × (i < p.n → j < q.n) }
    ensures { Seeks (points_of p.entry.words.now) (points_of q.entry.words.now) key bits.now j p.entry.n i result }
{
    let n = p.n;
    let mut x = seeds::scan::next_from(bits, i);
    // Kept: each step goes to the next kept bit: the loop counts no index.
    while x < n {
        if join::is_late(p, q, key, j, x) {
            return x;
        }
        x = seeds::scan::next_from(bits, x + 1);
    }
    x
}

// The chamber at position j is entered: the first position of its pairs after the key, which are kept on the words lent, or one past the points where it has none.
fn entered(
    p: Sheet<'_>,
    q: Sheet<'_>,
    owners: &[u8],
    terms: Terms,
    largest: u64,
    key: Key,
    j: usize,
    bits: &mut [u64],
) -> usize
    requires { Alone terms p.words.now q.words.now × (j < q.n) × Holds bits.old p.n }
    ensures { Entered (listed_to largest terms owners.now (points_of p.entry.words.now) (points_of q.entry.words.now)) (pair_by (profile_for terms) (points_of p.entry.words.now) (points_of q.entry.words.now)) key bits.new j p.entry.n result }
{
    let found = chamber::listed_of(p, q, owners, terms, largest, j, bits);
    if found == 0 {
        return p.n;
    }
    late_from(p, q, key, j, 0, bits)
}

// On to the next pair of the list after the key, from where the search stands: a position of P, or one past its points where the list is at its end.
pub(crate) fn advance(
    p: Sheet<'_>,
    q: Sheet<'_>,
    owners: &[u8],
    terms: Terms,
    largest: u64,
    key: Key,
    c: Cursor,
    bits: &mut [u64],
) -> Cursor
    requires { Alone terms p.words.now q.words.now × Holds bits.old p.n × Holding (listed_to largest terms owners.now (points_of p.words.now) (points_of q.words.now)) p.n q.n bits.old c.at c.i c.next }
    ensures { Advanced (listed_to largest terms owners.now (points_of p.entry.words.now) (points_of q.entry.words.now)) (pair_by (profile_for terms) (points_of p.entry.words.now) (points_of q.entry.words.now)) key p.entry.n q.entry.n bits.new c.at c.i c.next result.at result.i result.next }
{
    let n = p.n;
    let nq = q.n;
    let mut at = c.at;
    let mut next = c.next;
    let mut i = late_from(p, q, key, at, c.i, bits);
    // Kept: chambers are entered until one has a pair, and where the search stands is handed on: a `for` with a break would be no plainer.
    while (n <= i) & (next < nq) {
        i = entered(p, q, owners, terms, largest, key, next, bits);
        at = next;
        next += 1;
    }
    Cursor { at, i, next }
}
