// What a call is refused by, and else its sheets.
ghost use Rattle.std.specs.Prelude.{◌≡◌, ◌≢◌, MatchResult};
ghost use Rattle.ring.specs.Answers.{Both};
ghost use Rattle.ring.specs.Lent.{bits_no};
ghost use Rattle.ring.specs.Page.{key_no};
ghost use Rattle.many.specs.Many.{rest_no, pairs_no, own_pairs_no};
ghost use Rattle.many.specs.Checked.{Served};

use crate::Wanted;
use chamber::number::{first_of, grid_no, largest_no};
use list::Key;
use sheet::Sheet;

// What a call goes on with: both sheets, and how many words are needed.
#[derive(Clone, Copy)]
pub(crate) struct Checked<'a> {
    pub p: Sheet<'a>,
    pub q: Sheet<'a>,
    pub words: usize,
}

// 9 for a key out of range, or 0.
fn key_no(key: Key) -> u32
    ensures { result ≡ key_no key }
{
    if !((key.q <= 2000000000) & (key.p <= 2000000000)) {
        return 9;
    }
    0
}

// 24 where fewer words are lent than are needed, or 0.
fn bits_no(words: usize, len: usize) -> u32
    ensures { result ≡ bits_no words len }
{
    if len < words {
        return 24;
    }
    0
}

// What is refused of sheets that open, of which Q has n chambers: by 27, 26, 29, 9, 21, 40, then 24.
fn rest_no(
    p: &[i32],
    q: &[i32],
    owners: &[u8],
    n: usize,
    wanted: Wanted,
    words: usize,
    len: usize,
) -> u32
    ensures { result ≡ rest_no p.now q.now owners.now n wanted words len }
{
    let key = wanted.key;
    let a = list::contractor_no(false, wanted.contractor);
    let b = list::owners_no(wanted.contractor, owners, n);
    let c = grid_no(p, q, wanted.grid);
    let d = key_no(key);
    let e = list::threshold_no(wanted.threshold);
    let f = largest_no(wanted.largest);
    let g = bits_no(words, len);
    first_of(
        a,
        first_of(b, first_of(c, first_of(d, first_of(e, first_of(f, g))))),
    )
}

// Two sheets, the owner bytes, what is wanted, and so many words lent.
pub(crate) fn checked_both<'a>(
    p: &'a [i32],
    q: &'a [i32],
    owners: &[u8],
    wanted: Wanted,
    len: usize,
) -> Result<Checked<'a>, u32>
    ensures { MatchResult result (λ c. (pairs_no p.now q.now owners.now wanted len ≡ 0) × Both c.p.words.now c.q.words.now p.now q.now × Served p.now q.now (record { n = c.p.n; m = c.p.m }) (record { n = c.q.n; m = c.q.m }) c.words len) (λ k. (k ≡ pairs_no p.now q.now owners.now wanted len) × (k ≢ 0)) }
{
    let ps = Sheet::open(p)?;
    let qs = Sheet::open(q)?;
    let words = bits::words_for(ps.n);
    let no = rest_no(p, q, owners, qs.n, wanted, words, len);
    if no != 0 {
        return Err(no);
    }
    Ok(Checked {
        p: ps,
        q: qs,
        words,
    })
}

// One sheet in both places, as a self join has it: it is checked once.
pub(crate) fn checked_own(
    s: &[i32],
    key: Key,
    largest: u64,
    grid: bool,
    len: usize,
) -> Result<Checked<'_>, u32>
    ensures { MatchResult result (λ c. (own_pairs_no s.now key largest grid len ≡ 0) × Both c.p.words.now c.q.words.now s.now s.now × Served s.now s.now (record { n = c.p.n; m = c.p.m }) (record { n = c.q.n; m = c.q.m }) c.words len) (λ k. (k ≡ own_pairs_no s.now key largest grid len) × (k ≢ 0)) }
{
    let own = Sheet::open(s)?;
    let words = bits::words_for(own.n);
    let wanted = Wanted {
        key,
        largest,
        threshold: 0,
        contractor: 2,
        grid,
    };
    let no = rest_no(s, s, b"", own.n, wanted, words, len);
    if no != 0 {
        return Err(no);
    }
    Ok(Checked {
        p: own,
        q: own,
        words,
    })
}
