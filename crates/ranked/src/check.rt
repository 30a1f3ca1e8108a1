// What a call is refused by before the words lent are looked at, and else its sheets.
ghost use Rattle.std.specs.Prelude.{◌≡◌, ◌≢◌, false, [], ◌∷◌, MatchResult};
ghost use Rattle.words.specs.First.{first};
ghost use Rattle.ring.specs.Answers.{Both};
ghost use Rattle.ring.specs.Numbers.{grid_no};
ghost use Rattle.list.specs.Pages.{size_no, contractor_no, owners_no};
ghost use Rattle.many.specs.Many.{largest_no};
ghost use Rattle.ranked.specs.Busiest.{asked_no};
ghost use Rattle.ranked.specs.Ranks.{Ready};

use crate::Question;
use chamber::number::{first_of, grid_no, largest_no};
use sheet::Sheet;

// What a call goes on with: both sheets.
#[derive(Clone, Copy)]
pub(crate) struct Passed<'a> {
    pub p: Sheet<'a>,
    pub q: Sheet<'a>,
}

// What is refused of sheets that open, of which Q has n chambers: by 27, 26, 29, 10, then 40.
fn rest_no(p: &[i32], q: &[i32], owners: &[u8], n: usize, asked: Question) -> u32
    ensures { result ≡ first (contractor_no false asked.contractor ∷ owners_no asked.contractor owners.now n ∷ grid_no asked.grid p.now q.now ∷ size_no asked.k ∷ largest_no asked.largest ∷ []) }
{
    let a = list::contractor_no(false, asked.contractor);
    let b = list::owners_no(asked.contractor, owners, n);
    let c = grid_no(p, q, asked.grid);
    let d = list::size_no(asked.k);
    let e = largest_no(asked.largest);
    first_of(a, first_of(b, first_of(c, first_of(d, e))))
}

// Two sheets, the owner bytes, and what is asked.
pub(crate) fn checked<'a>(
    p: &'a [i32],
    q: &'a [i32],
    owners: &[u8],
    asked: Question,
) -> Result<Passed<'a>, u32>
    ensures { MatchResult result (λ c. (asked_no p.now q.now owners.now asked ≡ 0) × Both c.p.words.now c.q.words.now p.now q.now × Ready p.now q.now (record { n = c.p.n; m = c.p.m }) (record { n = c.q.n; m = c.q.m }) asked.k) (λ k. (k ≡ asked_no p.now q.now owners.now asked) × (k ≢ 0)) }
{
    let ps = Sheet::open(p)?;
    let qs = Sheet::open(q)?;
    let no = rest_no(p, q, owners, qs.n, asked);
    if no != 0 {
        return Err(no);
    }
    Ok(Passed { p: ps, q: qs })
}
