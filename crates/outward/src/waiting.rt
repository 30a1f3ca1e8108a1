// What waits in a walk that goes nearest first, in numbers that the caller lends: so many of them from the first on, a heap with the nearest at place 0.
// Each is the number of what waits with its squared distance above it, so that most comparisons read nothing else.
ghost use Rattle.std.specs.Prelude.{◌≡◌, ◌+◌, ◌≤◌, ◌<◌, length, set};
ghost use Rattle.words.specs.Word.{num};
ghost use Rattle.plane.specs.Rule.{SpotIn, BoxIn};
ghost use Rattle.sheet.specs.Nodes.{level_of, count_of};
ghost use Rattle.outward.specs.Waiting.{away, distance, before, insert, covered, with_covered};
ghost use Rattle.outward.specs.NearWalk.{root_waits};
ghost use Rattle.outward.specs.Room.{entry_of, listed, Packed, Keys, Heaped, Taken, Lesser, Kind, InRun, Past};
ghost use Rattle.bits.specs.Set.{wiped};

use plane::{Boxed, Spot};
use sheet::Sheet;

// The squared distance of q to a box.
fn box_distance(q: Spot, o: Boxed) -> u64
    requires { SpotIn q × BoxIn o }
    ensures { result ≡ num (away q o) }
{
    let x = plane::square_out(o.xmin, o.xmax, q.x);
    let y = plane::square_out(o.ymin, o.ymax, q.y);
    x + y
}

// The squared distance of q to what waits under the number e.
fn distance_at(w: Sheet<'_>, q: Spot, e: u64) -> u64
    requires { SpotIn q × Kind w.n w.m e }
    ensures { result ≡ distance w.entry.words.now w.entry.n w.entry.m q e }
{
    let k = e as usize;
    if k < w.m + 1 {
        return box_distance(q, w.box_at(k - 1));
    }
    plane::diameter(q, w.spot_at(k - (w.m + 1)))
}

// The lent number under which e waits: its distance, of which the last 17 bits give way to e.
fn key(w: Sheet<'_>, q: Spot, e: u64) -> u64
    requires { SpotIn q × Kind w.n w.m e }
    ensures { Packed w.entry.words.now w.entry.n w.entry.m q result × (entry_of result ≡ e) }
{
    distance_at(w, q, e) / 131072 * 131072 + e
}

// Whether e comes before f, by their distances.
fn is_before(w: Sheet<'_>, q: Spot, e: u64, f: u64) -> bool
    requires { SpotIn q × Kind w.n w.m e × Kind w.n w.m f }
    ensures { result ≡ before w.entry.words.now w.entry.n w.entry.m q e f }
{
    let d = distance_at(w, q, e);
    let g = distance_at(w, q, f);
    (d < g) | ((d == g) & (e < f))
}

// Whether what waits under x comes before what waits under y: by the bits above where these differ, and else by the distances.
fn comes_before(w: Sheet<'_>, q: Spot, x: u64, y: u64) -> bool
    requires { SpotIn q × Packed w.words.now w.n w.m q x × Packed w.words.now w.n w.m q y }
    ensures { result ≡ before w.entry.words.now w.entry.n w.entry.m q (entry_of x) (entry_of y) }
{
    let d = x / 131072;
    let g = y / 131072;
    if d < g {
        return true;
    }
    if g < d {
        return false;
    }
    is_before(w, q, x % 131072, y % 131072)
}

// The place above place k.
fn above(k: usize) -> usize
    requires { 0 < k }
    ensures { (result + result + 1 ≤ k) × (k ≤ result + result + 2) }
{
    (k - 1) / 2
}

// What has the number e is put in among the first `count`: from the place after them, those above that it comes before move down.
fn put(w: Sheet<'_>, q: Spot, e: u64, waiting: &mut [u64], count: usize)
    requires { SpotIn q × Kind w.n w.m e × Heaped w.words.now w.n w.m q waiting.old count × (count < w.n + w.m) × (w.n + w.m ≤ length waiting.old) }
    ensures { (listed w.entry.words.now w.entry.n w.entry.m q waiting.new (count + 1) ≡ insert w.entry.words.now w.entry.n w.entry.m q e (listed w.entry.words.now w.entry.n w.entry.m q waiting.old count)) × Heaped w.entry.words.now w.entry.n w.entry.m q waiting.new (count + 1) × Past (w.entry.n + w.entry.m) waiting.old waiting.new }
{
    let x = key(w, q, e);
    let mut k = count;
    // Kept: each step goes up the heap, from k to (k - 1) / 2: the loop counts no index.
    while k > 0 {
        let i = above(k);
        let f = waiting[i];
        if comes_before(w, q, x, f) {
            waiting[k] = f;
            k = i;
            continue;
        }
        waiting[k] = x;
        return;
    }
    waiting[k] = x;
}

// The one of the places j and j + 1, among the first `count`, at which stands what comes first.
fn lesser(w: Sheet<'_>, q: Spot, waiting: &[u64], count: usize, j: usize) -> usize
    requires { SpotIn q × Keys w.words.now w.n w.m q waiting.now count × (j < count) × (count ≤ w.n + w.m) × (w.n + w.m ≤ length waiting.now) }
    ensures { Lesser w.entry.words.now w.entry.n w.entry.m q waiting.now count j result }
{
    if j + 1 < count {
        let x = waiting[j + 1];
        let y = waiting[j];
        if comes_before(w, q, x, y) {
            return j + 1;
        }
    }
    j
}

// The lent number x stands for the one at place 0 of the first `count`: from there, those below that it does not come before move up.
fn sink(w: Sheet<'_>, q: Spot, x: u64, waiting: &mut [u64], count: usize)
    requires { SpotIn q × Packed w.words.now w.n w.m q x × Heaped w.words.now w.n w.m q waiting.old count × (count < w.n + w.m) × (w.n + w.m ≤ length waiting.old) }
    ensures { (listed w.entry.words.now w.entry.n w.entry.m q waiting.new count ≡ listed w.entry.words.now w.entry.n w.entry.m q (set waiting.old 0 x) count) × Heaped w.entry.words.now w.entry.n w.entry.m q waiting.new count × Past (w.entry.n + w.entry.m) waiting.old waiting.new }
{
    let mut k = 0;
    // Kept: each step goes down the heap: the loop counts no index.
    while k + k + 1 < count {
        let j = lesser(w, q, waiting, count, k + k + 1);
        let f = waiting[j];
        if comes_before(w, q, x, f) {
            waiting[k] = x;
            return;
        }
        waiting[k] = f;
        k = j;
    }
    waiting[k] = x;
}

// The nearest of the first `count` is taken out; the others are the first `count` - 1.
pub(crate) fn take_out(w: Sheet<'_>, q: Spot, waiting: &mut [u64], count: usize) -> u64
    requires { SpotIn q × Heaped w.words.now w.n w.m q waiting.old count × (0 < count) × (count ≤ w.n + w.m) × (w.n + w.m ≤ length waiting.old) }
    ensures { Taken w.entry.words.now w.entry.n w.entry.m q waiting.old waiting.new count result }
{
    let first = waiting[0];
    let last = waiting[count - 1];
    sink(w, q, last, waiting, count - 1);
    first % 131072
}

// What node j covers at k.
fn covered_at(w: Sheet<'_>, j: usize, level: usize, k: usize) -> u64
    requires { (j < w.m) × (level ≡ level_of w.words.now w.n j) × InRun w.words.now w.n j k }
    ensures { result ≡ covered w.entry.words.now w.entry.n w.entry.m j k }
{
    if level == 0 {
        return (w.m + 1 + w.order_at(k)) as u64;
    }
    (k + 1) as u64
}

// All that node j covers is put in among the first `count`; how many wait then.
pub(crate) fn put_covered(
    w: Sheet<'_>,
    q: Spot,
    j: usize,
    waiting: &mut [u64],
    count: usize,
) -> usize
    requires { SpotIn q × (j < w.m) × Heaped w.words.now w.n w.m q waiting.old count × (count + count_of w.words.now w.n j ≤ w.n + w.m) × (w.n + w.m ≤ length waiting.old) }
    ensures { (listed w.entry.words.now w.entry.n w.entry.m q waiting.new result ≡ with_covered w.entry.words.now w.entry.n w.entry.m q j (listed w.entry.words.now w.entry.n w.entry.m q waiting.old count)) × Heaped w.entry.words.now w.entry.n w.entry.m q waiting.new result × (result ≡ count + count_of w.entry.words.now w.entry.n j) × Past (w.entry.n + w.entry.m) waiting.old waiting.new }
{
    let level = w.level_at(j);
    let first = w.first_at(j);
    let more = w.count_at(j);
    for i in 0..more {
        let e = covered_at(w, j, level, first + i);
        put(w, q, e, waiting, count + i);
    }
    count + more
}

// The root waits, if there is one; how many wait.
pub(crate) fn put_root(w: Sheet<'_>, q: Spot, waiting: &mut [u64]) -> usize
    requires { SpotIn q × (w.m ≤ length waiting.old) }
    ensures { (listed w.entry.words.now w.entry.n w.entry.m q waiting.new result ≡ root_waits w.entry.m) × Heaped w.entry.words.now w.entry.n w.entry.m q waiting.new result × Past w.entry.m waiting.old waiting.new }
{
    if w.m == 0 {
        return 0;
    }
    let x = key(w, q, w.m as u64);
    waiting[0] = x;
    1
}

// The first k of the lent numbers are 0 from now on.
pub(crate) fn wipe(waiting: &mut [u64], k: usize)
    requires { k ≤ length waiting.old }
    ensures { waiting.new ≡ wiped k waiting.old }
{
    for i in 0..k {
        waiting[i] = 0;
    }
}
