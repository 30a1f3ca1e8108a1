// The list of ring pairs and its pages, with no tree in sight: keys, pairs, what list a page is of, and the page.
#![tactic(auto)]

ghost use Rattle.std.specs.Prelude.{◌≡◌, ◌≤◌, ◌↔◌, IsTrue, EachIndex, slice_index, get_or};
ghost use Rattle.list.specs.Pairs.{key_of, follows};
ghost use Rattle.list.specs.Pages.{threshold_no, size_no, contractor_no, owners_no, source_no};
ghost use Rattle.list.specs.Contractor.{mine, one_each};
ghost use Rattle.list.specs.Lent.{lent_of};

// A place in the list: a chamber's id, then a pump house's.
#[repr(C)]
#[derive(Clone, Copy, Debug, PartialEq, Eq, PartialOrd, Ord)]
pub struct Key {
    pub q: u32,
    pub p: u32,
}

// A chamber and a pump house, by their ids, with the squared diameter of the circle on the two. [F3]
#[repr(C)]
#[derive(Clone, Copy, Debug, PartialEq, Eq)]
pub struct Pair {
    pub q: u32,
    pub p: u32,
    pub size: u64,
}

// What is asked of a list beside its points: the number of partners that a chamber must have to be listed, 0 for the full list; the contractor whose chambers are listed,
// 0 or 1, 2 for an undivided list; the kind: whether it is the self join of one sheet; and the profile: whether it is the street grid's. [T5, A8, U9]
#[repr(C)]
#[derive(Clone, Copy, Debug, PartialEq, Eq)]
pub struct Terms {
    pub threshold: u32,
    pub contractor: u32,
    pub own: bool,
    pub grid: bool,
}

// What list a page or a book is of: two editions and the terms. The edition of a self join's sheet stands twice. [T5, J10]
#[repr(C)]
#[derive(Clone, Copy, Debug, PartialEq, Eq)]
pub struct Source {
    pub p_edition: u32,
    pub q_edition: u32,
    pub terms: Terms,
}

// What a page request asks for: the pairs strictly after a key, how many of them, and of which list. [P1, A8, U9]
#[repr(C)]
#[derive(Clone, Copy, Debug, PartialEq, Eq)]
pub struct Request {
    pub key: Key,
    pub size: usize,
    pub threshold: u32,
    pub contractor: u32,
    pub grid: bool,
}

// One page of a list: the pairs that follow a key, how many they are, and whether none follows them. [P7, F3]
#[repr(C)]
#[derive(Clone, Copy, Debug, PartialEq, Eq)]
pub struct Page {
    pub source: Source,
    pub key: Key,
    pub count: usize,
    pub end: bool,
    pub pairs: [Pair; 16],
}

// The key of a pair.
pub fn key_of(v: Pair) -> Key
    ensures { result ≡ key_of v }
{
    Key { q: v.q, p: v.p }
}

// Whether `v` stands strictly after `k`.
pub fn is_after(k: Key, v: Key) -> bool
    ensures { result ≡ follows k v }
{
    k < v
}

// The number of refusal for a threshold, 0 where it is in range.
pub fn threshold_no(t: u32) -> u32
    ensures { result ≡ threshold_no t }
{
    if t <= 60000 { 0 } else { 21 }
}

// The number of refusal for a size, 0 where it is 1 to 16.
pub fn size_no(size: usize) -> u32
    ensures { result ≡ size_no size }
{
    if (1..=16).contains(&size) { 0 } else { 10 }
}

// The number of refusal for a contractor, 0 where it is 0 to 2, and 2 for a self join.
pub fn contractor_no(own: bool, c: u32) -> u32
    ensures { result ≡ contractor_no own c }
{
    if !((c <= 2) & (!own | (c == 2))) {
        return 27;
    }
    0
}

// Whose the chamber at position j is, by its byte; 2, nobody's, where there is none.
fn owner_of(owners: &[u8], j: usize) -> u32
    ensures { result ≡ get_or owners.now j 2 }
{
    owners.get(j).map_or(2, |b| u32::from(*b))
}

// Whether contractor c has the chamber at position j; 2 has all.
pub fn is_mine(owners: &[u8], c: u32, j: usize) -> bool
    ensures { result ≡ mine c owners.now j }
{
    (c == 2) | (owner_of(owners, j) == c)
}

// Whether each byte is 0 or 1.
fn are_bits(owners: &[u8]) -> bool
    ensures { IsTrue result ↔ EachIndex owners.now (λ j. slice_index owners.now j ≤ 1) }
{
    owners.iter().all(|b| *b <= 1)
}

// Whether there is one byte for each of n chambers, 0 or 1.
fn is_one_each(owners: &[u8], n: usize) -> bool
    ensures { result ≡ one_each owners.now n }
{
    owners.len() == n && are_bits(owners)
}

// The number of refusal for the owner bytes of n chambers, 0 where they are one 0 or 1 a chamber, and none for an undivided list.
pub fn owners_no(c: u32, owners: &[u8], n: usize) -> u32
    ensures { result ≡ owners_no c owners.now n }
{
    if c == 2 {
        if owners.is_empty() {
            return 0;
        }
        return 26;
    }
    if !is_one_each(owners, n) {
        return 26;
    }
    0
}

// How many of so many slots are lent: `len`, or all where it exceeds them.
pub fn lent_of(slots: usize, len: usize) -> usize
    ensures { result ≡ lent_of slots len }
{
    len.min(slots)
}

// The number of refusal for a page of `b` handed to a book of `a`, 0 where they are of one list.
pub fn source_no(a: Source, b: Source) -> u32
    ensures { result ≡ source_no a b }
{
    if a.terms.own != b.terms.own {
        return 22;
    }
    if a.terms.contractor != b.terms.contractor {
        return 28;
    }
    if a.terms.grid != b.terms.grid {
        return 30;
    }
    if !((a.p_edition == b.p_edition) & (a.q_edition == b.q_edition)) {
        return 13;
    }
    if a.terms.threshold != b.terms.threshold {
        return 31;
    }
    0
}
