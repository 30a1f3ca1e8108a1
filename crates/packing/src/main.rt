// Packs a sheet. Standard input has words, little-endian: the form, n, the edition, 3n point words and n order words. The sheet's bytes are written to
// standard output, or one line: `refused N` with the packer's number, or `refused input` where a read fails or the bytes are fewer than 12, no whole words
// or more than a packer may be given.
// The arrays have room for form 2, whichever form is asked for: 0.96 MB for the bytes read, as much for their words and 1.31 MB for the sheet.
// With the packer's marks that is 3.3 MB of stack, of the 8 that Linux gives a program.
#![tactic(auto)]

ghost use Rattle.std.specs.Prelude.{◌≡◌, ◌*◌, ◌≤◌, length};

// The form, n, the edition, and four words for each of 60,000 points.
const MOST: usize = 240003;

// The words of a sheet of 60,000 points.
const LONGEST: usize = 328013;

// How many words are written at a time.
const PIECE: usize = 1024;

// The bytes that are read, and one more.
const ROOM: usize = 960013;

// An array that holds the same everywhere.
fn filled<T: Copy, const N: usize>(v: T) -> [T; N]
    ensures { length result ≡ N }
{
    [v; N]
}

// A word as a count: the largest of all for a negative one.
fn count_of(w: i32) -> usize {
    usize::try_from(w).unwrap_or(usize::MAX)
}

// A word as a form or an edition: the largest of 32 bits for a negative one.
fn number_of(w: i32) -> u32 {
    u32::try_from(w).unwrap_or(u32::MAX)
}

// How many words a sheet of n points has. There is none of more than 60,000 points.
fn sheet_len(n: usize) -> usize
    ensures { result ≤ 328013 }
{
    pack::sheet_len(n).min(LONGEST)
}

// Where the point words end: 3n words on, or where the words end.
fn points_end(n: usize, len: usize) -> usize
    requires { 3 ≤ len }
    ensures { (3 ≤ result) × (result ≤ len) }
{
    n.saturating_mul(3).saturating_add(3).min(len)
}

// Packs what the words ask for into the first `len` words of `out`, and answers the packer's number.
fn pack_into(s: &[i32], n: usize, len: usize, out: &mut [i32]) -> u32
    requires { (3 ≤ length s.now) × (len ≤ length out.old) }
{
    let end = points_end(n, s.len());
    let form = number_of(words::at(s, 0));
    let edition = number_of(words::at(s, 2));
    pack::pack(form, n, &s[3..end], &s[end..], edition, &mut out[..len])
}

fn encode_into(s: &[i32], size: usize, out: &mut [u8])
    requires { (size ≡ 4 * length s.now) × (size ≤ length out.old) }
{
    files::encode(s, &mut out[..size]);
}

// Writes at most so many words.
fn write_piece(rt: &impl Print, s: &[i32])
    requires { length s.now ≤ 1024 }
{
    let size = 4 * s.len();
    let mut bytes = [0u8; 4096];
    encode_into(s, size, &mut bytes);
    let _ = rt.write_all(&bytes[..size]);
}

// Writes the words, piece by piece.
fn write_words(rt: &impl Print, s: &[i32]) {
    for piece in s.chunks(PIECE) {
        write_piece(rt, piece);
    }
}

fn say_refused(rt: &impl Print, number: u32) {
    let _ = println!(rt; "refused {number}");
}

fn say_input(rt: &impl Print) {
    let _ = println!(rt; "refused input");
}

// Packs what the words ask for, and writes the sheet or the number.
fn pack_words(rt: &impl Print, s: &[i32])
    requires { 3 ≤ length s.now }
{
    let n = count_of(words::at(s, 1));
    let len = sheet_len(n);
    let mut out = filled::<i32, LONGEST>(0);
    let number = pack_into(s, n, len, &mut out);
    if number != 0 {
        say_refused(rt, number);
        return;
    }
    write_words(rt, &out[..len]);
}

// The first n bytes as words.
fn run(rt: &impl Print, bytes: &[u8], n: usize)
    requires { n ≤ length bytes.now }
{
    if (n < 12) | (n % 4 != 0) | (n > 4 * MOST) {
        return say_input(rt);
    }
    let count = n / 4;
    let mut given = filled::<i32, MOST>(0);
    words::bytes::decode(bytes, count, &mut given);
    pack_words(rt, &given[..count]);
}

fn main(rt: HostRuntime) {
    let mut bytes = filled::<u8, ROOM>(0);
    match input::read_all(&mut rt.reader(), &mut bytes) {
        Ok(n) => run(&rt, &bytes, n),
        Err(_) => say_input(&rt),
    }
}
