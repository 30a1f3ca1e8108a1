// The calls open to callers, on plain slices: every input is answered, and a refusal gives only its number.
// Each checks its sheets first, P then Q, by 1 to 8; then its positions by 9. A well-formed sheet is checked once a call.
#![tactic(auto)]

pub mod filter;
pub mod finder;
pub mod least;
pub mod open;
pub mod own;
pub mod pages;
pub mod reader;
pub mod ringwalk;

use list::Page;

// What a check of words finds: 0, how many words the sheet covers, its points and its nodes; or the number of refusal and zeros.
// Kept: the number beside the counts, which `head_of` of specs/Answers gives and `ring_head_once` and `open_head` of view go by.
#[repr(C)]
#[derive(Clone, Copy)]
pub struct Head {
    pub number: u32,
    pub len: usize,
    pub n: usize,
    pub m: usize,
}

// A record of a sheet, a pump house or a chamber: its id and where it stands.
#[repr(C)]
#[derive(Clone, Copy)]
pub struct Asset {
    pub id: u32,
    pub x: i32,
    pub y: i32,
}

// What the question for the position of an id answers: 0 and the position, or the number of refusal and 0.
// Kept: the C interface; `ring_position` of ffi hands it to C as it stands.
#[repr(C)]
#[derive(Clone, Copy)]
pub struct Placed {
    pub number: u32,
    pub position: usize,
}

// What the filter walk answers beside the kept set in the words lent: 0, how many bits are set and the nodes opened; or the number of refusal and zeros. [Y12, F7]
// Kept: the C interface; `ring_filter_walk` of ffi hands it to C as it stands.
#[repr(C)]
#[derive(Clone, Copy)]
pub struct Filtered {
    pub number: u32,
    pub count: usize,
    pub opened: u64,
}

// What a page request answers: 0, the count of nodes opened and the page; or the number of refusal and zeros. [Y12, U8, F6]
// Kept: the C interface; `ring_page` and `ring_own_page` of ffi hand it to C as it stands.
#[repr(C)]
#[derive(Clone, Copy)]
pub struct Paged {
    pub number: u32,
    pub opened: u64,
    pub page: Page,
}

// What the question for a chamber's partners answers: 0, the smaller of t and the number of its pairs in the list, and whether that is t; or the number of refusal and zeros.
// Kept: the C interface; `ring_partners` of ffi hands it to C as it stands.
#[repr(C)]
#[derive(Clone, Copy)]
pub struct Partnered {
    pub number: u32,
    pub count: usize,
    pub enough: bool,
}
