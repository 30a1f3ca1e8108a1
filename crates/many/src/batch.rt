// The pairs of a list after a key, so many as there are slots for.
ghost use Rattle.std.specs.Prelude.{◌≡◌, length};
ghost use Rattle.many.specs.Many.{many_refused, pairs_answer, pairs_slots, pairs_bits, own_pairs_answer, own_pairs_slots, own_pairs_bits};

use crate::{Many, Wanted};
use list::{Key, Pair};

// Refused: the number, and zeros.
fn refused(number: u32) -> Many
    ensures { result ≡ many_refused number }
{
    Many {
        number,
        count: 0,
        more: false,
    }
}

// Of a list, to a size, the pairs strictly after the key: the first so many as there are slots, stored from the first slot on; the slots past them are not touched. The answer says how many
// they are, and whether more follow. The words lent for kept sets, as many as the points of P need, are zeros after an answer.
// Refused by 1 to 8 of P, then of Q, then by 27 for the contractor, then by 26 for the owner bytes, then by 29 where the street grid is asked of a sheet of form 2, then by 9 for the key,
// then by 21 for the threshold, then by 40 for the largest size, then by 24 where fewer words are lent; no slot and no word is changed then, nor ever a word past them.
pub fn pairs(
    p: &[i32],
    q: &[i32],
    owners: &[u8],
    wanted: Wanted,
    slots: &mut [Pair],
    bits: &mut [u64],
) -> Many
    ensures { (result ≡ pairs_answer p.now q.now owners.now wanted (length slots.old) (length bits.old)) × (slots.new ≡ pairs_slots p.now q.now owners.now wanted slots.old (length bits.old)) × (bits.new ≡ pairs_bits p.now q.now owners.now wanted bits.old) }
{
    let len = slots.len();
    let mut s = match crate::step::first_step(p, q, owners, wanted, len, bits) {
        Ok(s) => s,
        Err(no) => return refused(no),
    };
    // Kept: each step goes to the next pair of the list, which `another` seeks: the loop counts no index.
    while s.count < s.to {
        slots[s.count] = s.pair;
        s = crate::step::another(p, q, owners, len, bits, s);
    }
    crate::step::finish(s, bits)
}

// The same of a self join, which is undivided and has no threshold.
// Refused by 1 to 8 of the sheet, then by 29 where the street grid is asked of a sheet of form 2, then by 9 for the key, then by 40 for the largest size, then by 24 where fewer words
// are lent; no slot and no word is changed then, nor ever a word past them.
pub fn own_pairs(
    s: &[i32],
    key: Key,
    largest: u64,
    grid: bool,
    slots: &mut [Pair],
    bits: &mut [u64],
) -> Many
    ensures { (result ≡ own_pairs_answer s.now key largest grid (length slots.old) (length bits.old)) × (slots.new ≡ own_pairs_slots s.now key largest grid slots.old (length bits.old)) × (bits.new ≡ own_pairs_bits s.now key largest grid bits.old) }
{
    let len = slots.len();
    let mut st = match crate::step::own_first(s, key, largest, grid, len, bits) {
        Ok(st) => st,
        Err(no) => return refused(no),
    };
    // Kept: each step goes to the next pair of the list, which `own_another` seeks: the loop counts no index.
    while st.count < st.to {
        slots[st.count] = st.pair;
        st = crate::step::own_another(s, len, bits, st);
    }
    crate::step::finish(st, bits)
}
