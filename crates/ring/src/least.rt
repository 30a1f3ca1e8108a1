// Whether a chamber has at least t partners.
ghost use Rattle.std.specs.Prelude.{◌≡◌, ◌<◌, length};
ghost use Rattle.bits.specs.Set.{Holds, none};
ghost use Rattle.sheet.specs.Places.{points_of};
ghost use Rattle.list.specs.RingList.{partners_of};
ghost use Rattle.join.specs.Threshold.{smaller};
ghost use Rattle.ring.specs.Partners.{least_no, partners_refused, partners_answer, partners_bits};

use crate::Partnered;
use list::Terms;
use sheet::Sheet;

// A refused question: its number, and zeros.
fn refused(number: u32) -> Partnered
    ensures { result ≡ partners_refused number }
{
    Partnered {
        number,
        count: 0,
        enough: false,
    }
}

// The number of refusal for the t of a question, 0 where it is in range.
fn least_no(t: u32) -> u32
    ensures { result ≡ least_no t }
{
    if !((1 <= t) & (t <= 60000)) {
        return 21;
    }
    0
}

fn lesser(t: usize, count: usize) -> usize
    ensures { result ≡ smaller t count }
{
    if t <= count {
        return t;
    }
    count
}

// How many ring partners the q at position j has, or t where it has more. Its pairs are found as for the fast list: a place that many records share is tried once. The words lent are zeros after it.
fn counted(p: Sheet<'_>, q: Sheet<'_>, j: usize, t: usize, bits: &mut [u64]) -> usize
    requires { (j < q.n) × Holds bits.old p.n }
    ensures { (result ≡ smaller t (partners_of (points_of p.entry.words.now) (points_of q.entry.words.now) j)) × (bits.new ≡ none (length bits.old)) }
{
    let terms = Terms {
        threshold: 0,
        contractor: 2,
        own: false,
        grid: false,
    };
    let found = chamber::pairs_of(p, q, terms, 8_000_000_000_000_000_000, j, bits);
    bits::clear(bits);
    lesser(t, found)
}

// The smaller of t and the number of pairs of the chamber with this id in the list, and whether that is t.
// The words lent for kept sets, as many as the points of P need, are zeros after an answer.
// Refused by 1 to 8 of P, then of Q, then by 20 where no chamber has the id, then by 21 where t is not 1 to 60,000, then by 24 where fewer words are lent; no word is touched then,
// nor ever one past them.
pub fn partners(p: &[i32], q: &[i32], id: u32, t: u32, bits: &mut [u64]) -> Partnered
    ensures { (result ≡ partners_answer p.now q.now id t (length bits.old)) × (bits.new ≡ partners_bits p.now q.now id t bits.old) }
{
    let (ps, qs) = match crate::open::heads_of(p, q) {
        Ok(both) => both,
        Err(no) => return refused(no),
    };
    let j = qs.position_of(id);
    if qs.n <= j {
        return refused(20);
    }
    let no = least_no(t);
    if no != 0 {
        return refused(no);
    }
    let w = bits::words_for(ps.n);
    if bits.len() < w {
        return refused(24);
    }
    let count = counted(ps, qs, j, t as usize, &mut bits[..w]);
    Partnered {
        number: 0,
        count,
        enough: count == t as usize,
    }
}
