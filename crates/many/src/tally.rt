// How many pairs a list has, so that a caller can lend as many slots.
ghost use Rattle.std.specs.Prelude.{◌≡◌, length};
ghost use Rattle.bits.specs.Set.{words_for, none};
ghost use Rattle.join.specs.Sheets.{Alone};
ghost use Rattle.many.specs.Many.{count_given, count_refused, count_answer, count_bits, own_count_answer, own_count_bits};

use crate::{Counted, Wanted, Which};
use list::{Key, Terms};
use sheet::Sheet;

// Refused: the number, and 0.
fn refused(number: u32) -> Counted
    ensures { result ≡ count_refused number }
{
    Counted { number, count: 0 }
}

// The count of two sheets that open, or of one in both places. The words lent are as many as are needed, and zeros after it.
fn given(
    p: Sheet<'_>,
    q: Sheet<'_>,
    owners: &[u8],
    terms: Terms,
    largest: u64,
    bits: &mut [u64],
) -> Counted
    requires { Alone terms p.words.now q.words.now × (length bits.old ≡ words_for p.n) }
    ensures { (result ≡ count_given largest terms owners.now p.entry.words.now q.entry.words.now) × (bits.new ≡ none (length bits.old)) }
{
    let count = crate::all::count_all(p, q, owners, terms, largest, bits);
    bits::clear(bits);
    Counted { number: 0, count }
}

// How many pairs the list has. The words lent for kept sets, as many as the points of P need, are zeros after an answer.
// Refused by 1 to 8 of P, then of Q, then by 27 for the contractor, then by 26 for the owner bytes, then by 29 where the street grid is asked of a sheet of form 2, then by 21 for
// the threshold, then by 40 for the largest size, then by 24 where fewer words are lent; no word is touched then, nor ever one past them.
pub fn count(p: &[i32], q: &[i32], owners: &[u8], which: Which, bits: &mut [u64]) -> Counted
    ensures { (result ≡ count_answer p.now q.now owners.now which (length bits.old)) × (bits.new ≡ count_bits p.now q.now owners.now which bits.old) }
{
    let wanted = Wanted {
        key: Key { q: 0, p: 0 },
        largest: which.largest,
        threshold: which.threshold,
        contractor: which.contractor,
        grid: which.grid,
    };
    let c = match crate::check::checked_both(p, q, owners, wanted, bits.len()) {
        Ok(c) => c,
        Err(no) => return refused(no),
    };
    let terms = Terms {
        threshold: which.threshold,
        contractor: which.contractor,
        own: false,
        grid: which.grid,
    };
    given(c.p, c.q, owners, terms, which.largest, &mut bits[..c.words])
}

// The same of a self join, which is undivided and has no threshold.
// Refused by 1 to 8 of the sheet, then by 29 where the street grid is asked of a sheet of form 2, then by 40 for the largest size, then by 24 where fewer words are lent.
pub fn own_count(s: &[i32], largest: u64, grid: bool, bits: &mut [u64]) -> Counted
    ensures { (result ≡ own_count_answer s.now largest grid (length bits.old)) × (bits.new ≡ own_count_bits s.now largest grid bits.old) }
{
    let key = Key { q: 0, p: 0 };
    let c = match crate::check::checked_own(s, key, largest, grid, bits.len()) {
        Ok(c) => c,
        Err(no) => return refused(no),
    };
    let terms = Terms {
        threshold: 0,
        contractor: 2,
        own: true,
        grid,
    };
    given(c.p, c.q, b"", terms, largest, &mut bits[..c.words])
}
