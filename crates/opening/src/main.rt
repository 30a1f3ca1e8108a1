// Opens a sheet: standard input has its bytes. One line is written: `opens N M EDITION FORM` with the numbers of points and nodes, `refused N` with the
// number of refusal, or `refused input` where a read fails or the bytes are no whole words or more than the longest sheet has.
// The arrays have room for form 2, whichever form comes: 1.87 MB for the bytes read, and as much for their words.
// That is 3.8 MB of stack, of the 8 that Linux gives a program.
#![tactic(auto)]

ghost use Rattle.std.specs.Prelude.{◌≡◌, ◌≤◌, length};

// The words of a sheet of 60,000 points and 24,000 nodes.
const MOST: usize = 468006;

// What opening the words answers.
fn open_words(rt: &impl Print, s: &[i32]) {
    let h = ring::open::head_of(s);
    if h.number != 0 {
        let _ = println!(rt; "refused {}", h.number);
        return;
    }
    let edition = words::num_at(s, s.len().wrapping_sub(2));
    let form = words::num_at(s, s.len().wrapping_sub(1));
    let _ = println!(rt; "opens {} {} {edition} {form}", h.n, h.m);
}

fn say_input(rt: &impl Print) {
    let _ = println!(rt; "refused input");
}

// The bytes that are read, and one more.
const ROOM: usize = 1872025;

// An array that holds the same everywhere.
fn filled<T: Copy, const N: usize>(v: T) -> [T; N]
    ensures { length result ≡ N }
{
    [v; N]
}

// The first n bytes as words.
fn run(rt: &impl Print, bytes: &[u8], n: usize)
    requires { n ≤ length bytes.now }
{
    if (n % 4 != 0) | (n > 4 * MOST) {
        return say_input(rt);
    }
    let count = n / 4;
    let mut given = filled::<i32, MOST>(0);
    words::bytes::decode(bytes, count, &mut given);
    open_words(rt, &given[..count]);
}

fn main(rt: HostRuntime) {
    let mut bytes = filled::<u8, ROOM>(0);
    match input::read_all(&mut rt.reader(), &mut bytes) {
        Ok(n) => run(&rt, &bytes, n),
        Err(_) => say_input(&rt),
    }
}
