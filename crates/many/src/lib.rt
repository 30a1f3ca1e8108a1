// Many pairs of a list at once, and how many a list has. No count of nodes is promised, so each chamber's pump houses are found in whatever way is fast: `seeds` has it.
#![tactic(auto)]

mod all;
pub mod batch;
mod check;
mod cursor;
mod step;
pub mod tally;

use list::Key;

// Which list it is of: pairs whose size is at most the largest, of the chambers that have at least so many of them, of a contractor's chambers (2: of all), of a profile.
#[repr(C)]
#[derive(Clone, Copy)]
pub struct Which {
    pub largest: u64,
    pub threshold: u32,
    pub contractor: u32,
    pub grid: bool,
}

// What is asked for: the pairs strictly after the key, of such a list.
#[repr(C)]
#[derive(Clone, Copy)]
pub struct Wanted {
    pub key: Key,
    pub largest: u64,
    pub threshold: u32,
    pub contractor: u32,
    pub grid: bool,
}

// What a count answers: 0 and how many pairs the list has, or the number of refusal and 0.
// Kept: the C interface; `ring_count` and `ring_own_count` of ffi hand it to C as it stands.
#[repr(C)]
#[derive(Clone, Copy)]
pub struct Counted {
    pub number: u32,
    pub count: u64,
}

// What `pairs` answers: 0, how many pairs it stored, and whether more follow; or the number of refusal, 0 and no.
// Kept: the C interface; `ring_pairs` and `ring_own_pairs` of ffi hand it to C as it stands.
#[repr(C)]
#[derive(Clone, Copy)]
pub struct Many {
    pub number: u32,
    pub count: usize,
    pub more: bool,
}
