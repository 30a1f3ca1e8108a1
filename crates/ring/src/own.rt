// The page request of a self join: the page request's answer of the one sheet in both places.
ghost use Rattle.std.specs.Prelude.{◌≡◌, length};
ghost use Rattle.ring.specs.Own.{own_answer, own_bits};

use crate::Paged;
use join::Ask;
use list::{Key, Terms};

// The first `size` pairs of the sheet's self join strictly after the key, lower id first, of a profile, and the nodes opened to find them. It is undivided: its pages say contractor 2.
// The words lent for kept sets, as many as the points need, are zeros after an answer.
// Refused by 1 to 8 of the sheet, then by 29 where the street grid is asked of a sheet of form 2, then by 9 for the key, then by 10 for the size, then by 24 where fewer words are lent; no word is touched then, nor ever one past them.
pub fn own_page(s: &[i32], key: Key, size: usize, grid: bool, bits: &mut [u64]) -> Paged
    ensures { (result ≡ own_answer s.now key size grid (length bits.old)) × (bits.new ≡ own_bits s.now key size grid bits.old) }
{
    let own = match sheet::Sheet::open(s) {
        Ok(own) => own,
        Err(no) => return crate::pages::refused(no),
    };
    let asked = crate::pages::asked_no(s, s, grid, key, size, 0);
    if asked != 0 {
        return crate::pages::refused(asked);
    }
    let w = bits::words_for(own.n);
    if bits.len() < w {
        return crate::pages::refused(24);
    }
    let terms = Terms {
        threshold: 0,
        contractor: 2,
        own: true,
        grid,
    };
    let ask = Ask { key, size, terms };
    crate::pages::given(own, own, b"", ask, &mut bits[..w])
}
