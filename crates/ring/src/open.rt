// Opening a sheet.
ghost use Rattle.std.specs.Prelude.{◌≡◌, ◌≢◌, MatchResult};
ghost use Rattle.sheet.specs.Open.{sheet_no};
ghost use Rattle.ring.specs.Answers.{head_of, heads_of, heads_opened, heads_shut, Both};

use crate::Head;
use sheet::Sheet;

// The number of the first refusal that applies to the words, 0 where they are a sheet.
pub fn open_no(words: &[i32]) -> u32
    ensures { result ≡ sheet_no words.now }
{
    sheet::open_no(words)
}

// The same number, and with 0 the sheet's length and counts.
pub fn head_of(words: &[i32]) -> Head
    ensures { result ≡ head_of words.now }
{
    match Sheet::open(words) {
        Ok(s) => Head {
            number: 0,
            len: words.len(),
            n: s.n,
            m: s.m,
        },
        Err(number) => Head {
            number,
            len: 0,
            n: 0,
            m: 0,
        },
    }
}

// Both sheets of a call, P checked first, then Q, each once; or the number that the call is refused by.
pub(crate) fn heads_of<'a>(p: &'a [i32], q: &'a [i32]) -> Result<(Sheet<'a>, Sheet<'a>), u32>
    ensures { MatchResult result (λ b. Both b.0.words.now b.1.words.now p.now q.now × (heads_opened b.0.n b.0.m b.1.n b.1.m ≡ heads_of p.now q.now)) (λ k. (k ≢ 0) × (heads_shut k ≡ heads_of p.now q.now)) }
{
    let ps = Sheet::open(p)?;
    let qs = Sheet::open(q)?;
    Ok((ps, qs))
}
