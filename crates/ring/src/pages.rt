// The page request.
ghost use Rattle.std.specs.Prelude.{◌≡◌, ◌≤◌, length};
ghost use Rattle.bits.specs.Set.{words_for, none};
ghost use Rattle.join.specs.Sheets.{Alone};
ghost use Rattle.ring.specs.Page.{asked_no, request_no, source_of, page_given, page_refused, page_answer, page_bits};

use crate::Paged;
use join::Ask;
use list::{Key, Page, Pair, Request, Source, Terms};
use sheet::Sheet;

// A refused request: its number, and zeros.
pub(crate) fn refused(number: u32) -> Paged
    ensures { result ≡ page_refused number }
{
    Paged {
        number,
        opened: 0,
        page: Page {
            source: Source {
                p_edition: 0,
                q_edition: 0,
                terms: Terms {
                    threshold: 0,
                    contractor: 0,
                    own: false,
                    grid: false,
                },
            },
            key: Key { q: 0, p: 0 },
            count: 0,
            end: false,
            pairs: [Pair {
                q: 0,
                p: 0,
                size: 0,
            }; 16],
        },
    }
}

// The number that a request of an undivided list is refused by, of sheets that open: 29 by their forms, 9 by its key, 10 by its size, 21 by its threshold, or 0.
pub(crate) fn asked_no(
    p: &[i32],
    q: &[i32],
    grid: bool,
    key: Key,
    size: usize,
    threshold: u32,
) -> u32
    ensures { result ≡ asked_no p.now q.now grid key size threshold }
{
    let form = chamber::number::grid_no(p, q, grid);
    if form != 0 {
        return form;
    }
    if !((key.q <= 2000000000) & (key.p <= 2000000000)) {
        return 9;
    }
    let no = list::size_no(size);
    if no != 0 {
        return no;
    }
    list::threshold_no(threshold)
}

// The number that any request is refused by, of sheets that open of which Q has n chambers: 27 by its contractor, 26 by the owner bytes, then as that of an undivided list.
fn request_no(p: &[i32], q: &[i32], owners: &[u8], n: usize, request: Request) -> u32
    ensures { result ≡ request_no p.now q.now owners.now n request }
{
    let c = request.contractor;
    let whose = list::contractor_no(false, c);
    if whose != 0 {
        return whose;
    }
    let bytes = list::owners_no(c, owners, n);
    if bytes != 0 {
        return bytes;
    }
    let key = request.key;
    asked_no(p, q, request.grid, key, request.size, request.threshold)
}

// The editions of two sheets that open, and the terms.
fn source_of(p: Sheet<'_>, q: Sheet<'_>, terms: Terms) -> Source
    ensures { result ≡ source_of p.entry.words.now q.entry.words.now terms }
{
    Source {
        p_edition: words::num_at(p.words, p.words.len() - 2) as u32,
        q_edition: words::num_at(q.words, q.words.len() - 2) as u32,
        terms,
    }
}

// The page that two sheets that open give, or one in both places, by the owner bytes. The words lent are as many as the kept set needs, and zeros after it.
pub(crate) fn given(p: Sheet<'_>, q: Sheet<'_>, owners: &[u8], ask: Ask, bits: &mut [u64]) -> Paged
    requires { (ask.size ≤ 16) × (length bits.old ≡ words_for p.n) × Alone ask.terms p.words.now q.words.now }
    ensures { (result ≡ page_given ask.terms owners.now p.entry.words.now q.entry.words.now ask.key ask.size) × (bits.new ≡ none (length bits.old)) }
{
    let key = ask.key;
    let terms = ask.terms;
    let d = join::made_on(p, q, owners, ask, bits);
    bits::clear(bits);
    let source = source_of(p, q, terms);
    let page = join::page_from(source, key, d);
    Paged {
        number: 0,
        opened: d.opened,
        page,
    }
}

// The first `size` ring pairs strictly after the key, of the contractor's chambers, a byte of 0 or 1 for each by position (2 and no byte: of all chambers), with at least so
// many pairs as the threshold says (0: with any), and the nodes opened to find them, which are not for the contractor.
// The words lent for kept sets, as many as the points of P need, are zeros after an answer.
// Refused by 1 to 8 of P, then of Q, then by 27 for the contractor, then by 26 for the bytes, then by 29 where the street grid is asked of a sheet of form 2, then by 9 for the key,
// then by 10 for the size, then by 21 for the threshold, then by 24 where fewer words are lent; no word is touched then, nor ever one past them.
pub fn page(p: &[i32], q: &[i32], owners: &[u8], request: Request, bits: &mut [u64]) -> Paged
    ensures { (result ≡ page_answer p.now q.now owners.now request (length bits.old)) × (bits.new ≡ page_bits p.now q.now owners.now request bits.old) }
{
    let (ps, qs) = match crate::open::heads_of(p, q) {
        Ok(both) => both,
        Err(no) => return refused(no),
    };
    let asked = request_no(p, q, owners, qs.n, request);
    if asked != 0 {
        return refused(asked);
    }
    let w = bits::words_for(ps.n);
    if bits.len() < w {
        return refused(24);
    }
    let terms = Terms {
        threshold: request.threshold,
        contractor: request.contractor,
        own: false,
        grid: request.grid,
    };
    let key = request.key;
    let ask = Ask {
        key,
        size: request.size,
        terms,
    };
    given(ps, qs, owners, ask, &mut bits[..w])
}
