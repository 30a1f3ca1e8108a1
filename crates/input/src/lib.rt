// A reader read to its end. A read that fails and the end of the input are told apart. Which bytes standard input or a file gives no contract can say; of a reader
// whose bytes are known, these are the ones that stand in the room.
#![tactic(auto)]

ghost use Rattle.std.specs.Prelude.{◌≡◌, length};
ghost use Rattle.input.specs.Got.{told_by, Within, ReadsSome, ReadsAll};

use std::io;
use std::io::Read;

// A read failed. Why, nobody is told: a program only says that it did.
#[derive(Clone, Copy, Debug, PartialEq, Eq)]
pub struct ReadFailed;

// What the answer of a read into `buf` says: so many bytes, up to the end of the input or of the room, or that it failed.
fn told(got: io::Result<usize>, buf: &[u8]) -> Result<usize, ReadFailed>
    ensures value { result ≡ told_by got (length buf.now) }
    ensures within { Within result buf.now }
{
    match got {
        Ok(n) => Ok(n.min(buf.len())),
        Err(_) => Err(ReadFailed),
    }
}

// One read, to the start of `buf`: 0 bytes at the end of the input.
fn read_some<R: Read>(from: &mut R, buf: &mut [u8]) -> Result<usize, ReadFailed>
    ensures within { Within result buf.new }
    ensures bytes { ReadsSome (R.remaining from.old) (R.remaining from.new) result buf.new }
{
    let got = from.read(buf);
    told(got, buf)
}

// Reads until `buf` is full or the input ends; the bytes stand at the start of `buf`. The first read that fails is the last.
pub fn read_all<R: Read>(from: &mut R, buf: &mut [u8]) -> Result<usize, ReadFailed>
    ensures within { Within result buf.new }
    ensures bytes { ReadsAll (R.remaining from.old) (R.remaining from.new) result buf.new }
{
    let mut done: usize = 0;
    // Kept: each step is as long as the read was: the loop counts no index.
    while done < buf.len() {
        let n = read_some(from, &mut buf[done..])?;
        if n == 0 {
            return Ok(done);
        }
        done += n;
    }
    Ok(done)
}
