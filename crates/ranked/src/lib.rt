// The first of a list in an order: the busiest chambers and pump houses, the most urgent visits. No count of nodes is promised, so that what cannot be among the first is passed over.
#![tactic(auto)]

pub mod busiest;
mod check;
pub mod visits;

use list::Pair;

// What is asked for: how many, of the list to the largest size, of a contractor's chambers (2: of all), of a profile.
#[repr(C)]
#[derive(Clone, Copy, Debug, PartialEq, Eq)]
pub struct Question {
    pub k: usize,
    pub largest: u64,
    pub contractor: u32,
    pub grid: bool,
}

// A chamber or a pump house by its id, and how many pairs of the list it is in.
#[repr(C)]
#[derive(Clone, Copy, Debug, PartialEq, Eq)]
pub struct Rank {
    pub id: u32,
    pub pairs: u32,
}

// What the calls for the busiest answer: 0, how many rows and the rows, the unused ones zeros; or the number of refusal and zeros.
// Kept: the C interface; `ring_busiest` and `ring_busiest_pumps` of ffi hand it to C as it stands.
#[repr(C)]
#[derive(Clone, Copy, Debug, PartialEq, Eq)]
pub struct Busy {
    pub number: u32,
    pub count: usize,
    pub rows: [Rank; 16],
}

// A pair of the list, and the sum of the scores of its two ends.
#[repr(C)]
#[derive(Clone, Copy, Debug, PartialEq, Eq)]
pub struct Visit {
    pub pair: Pair,
    pub score: u64,
}

// What the call for the most urgent visits answers: 0, how many rows and the rows, the unused ones zeros; or the number of refusal and zeros.
// Kept: the C interface; `ring_urgent` of ffi hands it to C as it stands.
#[repr(C)]
#[derive(Clone, Copy, Debug, PartialEq, Eq)]
pub struct Urgent {
    pub number: u32,
    pub count: usize,
    pub rows: [Visit; 16],
}
