// What a case prints.
use list::Pair;

pub fn say(rt: &HostRuntime, text: &[u8]) {
    let _ = rt.write_all(text);
}

// A space and a number.
pub fn number(rt: &HostRuntime, n: u64) {
    let _ = print!(rt; " {n}");
}

// The same in base sixteen.
pub fn hex(rt: &HostRuntime, n: u64) {
    let _ = print!(rt; " {n:x}");
}

pub fn signed(rt: &HostRuntime, z: i64) {
    if z < 0 {
        say(rt, b" -");
        let size = text::size(z);
        let _ = print!(rt; "{size}");
        return;
    }
    number(rt, text::size(z));
}

pub fn end_line(rt: &HostRuntime) {
    say(rt, b"\n");
}

pub fn refused(rt: &HostRuntime, no: u32) {
    say(rt, b" refused");
    number(rt, no as u64);
}

pub fn pair(rt: &HostRuntime, v: Pair) {
    number(rt, v.q as u64);
    number(rt, v.p as u64);
    number(rt, v.size);
}

pub fn pairs(rt: &HostRuntime, row: &[Pair]) {
    for v in row {
        pair(rt, *v);
    }
}

// The first `count` of a row, or all where there are fewer.
pub fn first_pairs(rt: &HostRuntime, row: &[Pair], count: usize) {
    pairs(rt, &row[..count.min(row.len())]);
}
