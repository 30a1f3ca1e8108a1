// The listing program's work: what it does with what it reads. What is put into a buffer is promised; that each buffer is written, once and to standard
// output, is not.
#![tactic(auto)]

mod chambers;
mod lines;
mod split;

ghost use Rattle.std.specs.Prelude.{◌≡◌, ◌+◌, ◌≤◌, length};
ghost use Rattle.input.specs.Got.{Within};
ghost use Rattle.text.specs.Text.{Grown};
ghost use Rattle.printout.specs.Outcome.{sheets_outcome, words_outcome, got_outcome, refusal};

use input::ReadFailed;
use std::io::Read;

// What came of an input: refused, or listed, with the number of pairs.
// Kept: three of the four cases are refusals, no `?` hands one on, and `sheets_outcome` names the four; a Result over a second enum would be no plainer.
#[derive(Clone, Copy, PartialEq, Eq)]
pub enum Outcome {
    BadInput,
    BadQ(u32),
    BadP(u32),
    Listed(u64),
}

// What came of reading and of what was read.
#[derive(Clone, Copy)]
pub struct Listing {
    pub got: Result<usize, ReadFailed>,
    pub outcome: Outcome,
}

// The line of a refusal; nothing where the pairs are listed.
fn put_refusal(o: Outcome, out: &mut [u8], at: usize) -> usize
    requires { at + 31 ≤ length out.old }
    ensures grown { Grown out.old at out.new result (refusal o) }
    ensures upper_bound { result ≤ at + 31 }
{
    match o {
        Outcome::BadInput => text::put_input(out, at),
        Outcome::BadQ(no) => text::put_refused(b'q', no, out, at),
        Outcome::BadP(no) => text::put_refused(b'p', no, out, at),
        Outcome::Listed(_) => at,
    }
}

fn say(rt: &impl Print, o: Outcome) -> bool {
    let mut out = [0u8; 32];
    let n = put_refusal(o, &mut out, 0);
    rt.write_all(&out[..n]).is_ok()
}

// Opens Q, then P, both of form 1, and lists their ring pairs. A sheet of form 2 is refused by 2.
pub fn list_sheets(rt: &impl Print, p: &[i32], q: &[i32]) -> Outcome
    ensures { result ≡ sheets_outcome p.now q.now }
{
    let qs = match sheet::Sheet::open_first(q) {
        Ok(qs) => qs,
        Err(no) => return Outcome::BadQ(no),
    };
    let ps = match sheet::Sheet::open_first(p) {
        Ok(ps) => ps,
        Err(no) => return Outcome::BadP(no),
    };
    Outcome::Listed(chambers::list_pairs(rt, ps, qs))
}

// Splits the words into P and Q.
pub fn list_words(rt: &impl Print, s: &[i32]) -> Outcome
    requires { 6 ≤ length s.now }
    ensures { result ≡ words_outcome s.now }
{
    let at = split::split_at(s);
    list_sheets(rt, &s[..at], &s[at..])
}

// Room for the words of two sheets.
fn space() -> [i32; 15612]
    ensures { length result ≡ 15612 }
{
    [0; 15612]
}

// Lists what the bytes of P's file and then Q's hold.
pub fn list_bytes(rt: &impl Print, bytes: &[u8]) -> Outcome
    ensures { result ≡ Rattle.printout.specs.Outcome.outcome bytes.now }
{
    let n = bytes.len();
    if split::is_bad(n) {
        return Outcome::BadInput;
    }
    let mut room = space();
    let count = n / 4;
    words::bytes::decode(bytes, count, &mut room);
    list_words(rt, &room[..count])
}

// Lists what was read into the start of `room`.
fn list_got(rt: &impl Print, got: Result<usize, ReadFailed>, room: &[u8]) -> Outcome
    requires { Within got room.now }
    ensures { result ≡ got_outcome got room.now }
{
    match got {
        Ok(n) => list_bytes(rt, &room[..n]),
        Err(_) => Outcome::BadInput,
    }
}

// Room for the bytes of two sheets, and one more.
pub fn room() -> [u8; 62449]
    ensures { 62449 ≡ length result }
{
    [0; 62449]
}

// Lists what the reader has, up to one byte more than two sheets can have, or says why not.
pub fn list<R: Read>(rt: &impl Print, from: &mut R, room: &mut [u8]) -> Listing
    requires { 62449 ≡ length room.old }
    ensures within { Within result.got room.new }
    ensures outcome_value { result.outcome ≡ got_outcome result.got room.new }
{
    let got = input::read_all(from, room);
    let outcome = list_got(rt, got, room);
    let _ = say(rt, outcome);
    Listing { got, outcome }
}
