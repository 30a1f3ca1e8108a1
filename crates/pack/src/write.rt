// Writing a sheet into the words that the caller lends, from the first to the last. Each function is told how far the sheet is written, and says how far
// it has come.
// Kept: `n ≤ 60000` stands in each contract. It bounds one number, and a struct of that number alone would be no plainer.
ghost use Rattle.std.specs.Prelude.{◌≡◌, true, List, ◌≤◌, ◌<◌, ◌+◌, ◌*◌, ℤ, pos, length};
ghost use Rattle.sheet.specs.Layout.{root_word};
ghost use Rattle.pack.specs.Tree.{nodes_for, plan_of};
ghost use Rattle.pack.specs.Order.{order_list_ok};
ghost use Rattle.pack.specs.Packed.{body_word, sheet_size, packed};
ghost use Rattle.pack.specs.Work.{Holds, Written, sides_put};

use crate::{order, tree};
use sheet::{Due, Sides};

// A count as a word.
fn word(x: usize) -> i32
    requires { x < 2147483648 }
    ensures { result ≡ pos x }
{
    x as i32
}

// The root word of a sheet of m nodes.
fn root_word(m: usize) -> usize
    ensures { result ≡ root_word m }
{
    if m == 0 {
        return 0;
    }
    7
}

// Writes the points.
fn put_points(p: &[i32], n: usize, out: &mut [i32])
    requires { (n ≤ 60000) × (3 * n ≤ length p.now) × (3 * n ≤ length out.old) }
    ensures { (o : List ℤ) → Holds out.new (body_word p.now o n) (3 * n) }
{
    words::copy(&p[..3 * n], &mut out[..3 * n]);
}

// Writes the order, behind the points, whatever points these are.
fn put_order(o: &[i32], n: usize, out: &mut [i32])
    requires { (n ≤ 60000) × (n ≤ length o.now) × (4 * n ≤ length out.old) }
    ensures { (p : List ℤ) → Holds out.old (body_word p o.now n) (3 * n) → Holds out.new (body_word p o.now n) (4 * n) }
{
    words::copy(&o[..n], &mut out[3 * n..4 * n]);
}

// Writes the rank of each position, which the order list gives: behind points and order, whatever points these are.
fn put_ranks(o: &[i32], n: usize, out: &mut [i32])
    requires { (n ≤ 60000) × (5 * n ≤ length out.old) × (n ≤ length o.now) × (order_list_ok o.now n ≡ true) }
    ensures { (p : List ℤ) → Holds out.old (body_word p o.now n) (4 * n) → Holds out.new (body_word p o.now n) (5 * n) }
{
    for k in 0..n {
        out[4 * n + order::position(o, n, k)] = word(k);
    }
}

// Writes the first three words of node j, of which d is planned: the level, and the first and the number of what it covers.
fn put_head(n: usize, j: usize, d: Due, out: &mut [i32])
    requires { (n ≤ 60000) × (j < nodes_for n) × (d ≡ plan_of n j) × (5 * n + 7 * nodes_for n ≤ length out.old) }
    ensures { (p o : List ℤ) → order_list_ok o n ≡ true → Holds out.old (body_word p o n) (5 * n + 7 * j) → Holds out.new (body_word p o n) (5 * n + 7 * j + 3) }
{
    let at = 5 * n + 7 * j;
    let head = [word(d.level), word(d.next), word(tree::plan_count(d))];
    words::copy(&head, &mut out[at..at + 3]);
}

// Writes four sides from k on.
fn put_sides(k: usize, o: Sides, out: &mut [i32])
    requires { (k ≤ 1000000) × (k + 4 ≤ length out.old) }
    ensures { out.new ≡ sides_put out.old k o }
{
    words::copy(&[o.xmin, o.ymin, o.xmax, o.ymax], &mut out[k..k + 4]);
}

// Writes node j, of which d is planned. A leaf's box is made from the points that it covers, any other from the boxes already written.
fn put_node(n: usize, j: usize, d: Due, out: &mut [i32])
    requires { (n ≤ 60000) × (j < nodes_for n) × (d ≡ plan_of n j) × (5 * n + 7 * nodes_for n ≤ length out.old) × Written out.old n (5 * n + 7 * j) }
    ensures { (p o : List ℤ) → order_list_ok o n ≡ true → Holds out.old (body_word p o n) (5 * n + 7 * j) → Holds out.new (body_word p o n) (5 * n + 7 * (j + 1)) }
{
    put_head(n, j, d, out);
    let c = tree::plan_count(d);
    let o = sheet::boxes::tightest(out, n, d.level == 0, d.next, c - 1);
    put_sides(5 * n + 7 * j + 3, o, out);
}

// Writes the m nodes of n points, behind points, order and ranks, whatever these are.
fn put_nodes(n: usize, m: usize, out: &mut [i32])
    requires { (n ≤ 60000) × (m ≡ nodes_for n) × (5 * n + 7 * nodes_for n ≤ length out.old) × Written out.old n (5 * n) }
    ensures { (p o : List ℤ) → order_list_ok o n ≡ true → Holds out.old (body_word p o n) (5 * n) → Holds out.new (body_word p o n) (5 * n + 7 * nodes_for n) }
{
    let mut d = Due {
        level: 0,
        head: 0,
        next: 0,
        top: n,
    };
    for j in 0..m {
        put_node(n, j, d, out);
        d = tree::follow(d, j);
    }
}

// Writes the trailer, behind all else.
fn put_trailer(form: usize, n: usize, m: usize, edition: u32, out: &mut [i32])
    requires { (form < 2147483648) × (n ≤ 60000) × (m ≡ nodes_for n) × (edition < 2147483648) × (length out.old ≡ sheet_size n) }
    ensures { (p o : List ℤ) → Holds out.old (body_word p o n) (5 * n + 7 * nodes_for n) → out.new ≡ packed form p o n edition }
{
    let span = 5 * n + 7 * m;
    let trailer = [
        word(span),
        word(root_word(m)),
        word(n),
        word(m),
        word(edition as usize),
        word(form),
    ];
    words::copy(&trailer, &mut out[span..]);
}

// Writes the sheet.
pub(crate) fn put_sheet(form: usize, n: usize, p: &[i32], o: &[i32], edition: u32, out: &mut [i32])
    requires { (form < 2147483648) × (n ≤ 60000) × (3 * n ≤ length p.now) × (n ≤ length o.now) × (order_list_ok o.now n ≡ true) × (edition < 2147483648) × (length out.old ≡ sheet_size n) }
    ensures { out.new ≡ packed form p.now o.now n edition }
{
    put_points(p, n, out);
    put_order(o, n, out);
    put_ranks(o, n, out);
    let m = tree::nodes_for(n);
    put_nodes(n, m, out);
    put_trailer(form, n, m, edition, out);
}
