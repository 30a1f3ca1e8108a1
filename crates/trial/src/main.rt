// Runs the cases that stand on its tape, each of a kind, and prints what each call answers. The checked examples of document 01 are the first.
#![tactic(auto)]

mod asked;
mod circles;
mod leaves;
mod lent;
mod lists;
mod marks;
mod near;
mod pages;
mod places;
mod ranks;
mod say;
mod sheets;
mod tape;
mod views;
mod walks;

use tape::Tape;

// A case of no sheet, or of one; those of two sheets are `asked`.
fn case(rt: &HostRuntime, tape: &mut Tape, kind: usize) {
    match kind {
        1 => places::rules(rt),
        2 => sheets::open_case(rt, tape),
        3 => sheets::point_case(rt, tape),
        4 => sheets::pack_case(rt, tape),
        14 => marks::mark_case(rt, tape),
        _ => asked::asked(rt, tape, kind),
    }
}

fn main(rt: HostRuntime) {
    let mut tape = tape::new(&rt);
    for _ in 0..100000 {
        let kind = tape::next_kind(&rt, &mut tape);
        if kind == 0 {
            return;
        }
        case(&rt, &mut tape, kind);
    }
}
