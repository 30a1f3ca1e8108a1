// What the programs share that try a call on inputs drawn at random: numbers drawn, counting, and a line of what was counted.
#![tactic(auto)]

ghost use Rattle.std.specs.Prelude.{◌≡◌, ◌+◌, ◌-◌, ◌%◌, ◌^◌, ◌≤◌};
ghost use Rattle.chance.specs.Chance.{mix};

// The state of the generator after this one.
pub fn mixed(x: u64) -> u64
    ensures { result ≡ mix x }
{
    let a = x ^ (x << 13);
    let b = a ^ (a >> 7);
    b ^ (b << 17)
}

// A number below n, 0 where n is 0.
pub fn drawn(state: u64, n: usize) -> usize
    ensures { result ≤ n - 1 }
{
    if n == 0 {
        return 0;
    }
    (state >> 11) as usize % n
}

pub fn one_more(n: u64) -> u64
    ensures { result ≡ (n + 1) % 2 ^ 64 }
{
    n.wrapping_add(1)
}

// Writes a line, a name and a number, and answers the number. Which bytes are written no contract can say; a write that fails is let go.
pub fn line(rt: &impl Print, name: &[u8], n: u64) -> u64
    ensures { result ≡ n }
{
    let _ = rt.write_all(name);
    let _ = rt.write_all(b" ");
    let _ = println!(rt; "{n}");
    n
}
