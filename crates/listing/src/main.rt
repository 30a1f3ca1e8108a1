// Lists the ring pairs of two sheets: standard input has P's file bytes, then Q's.
#![tactic(auto)]

fn main(rt: HostRuntime) {
    let mut room = printout::room();
    let _ = printout::list(&rt, &mut rt.reader(), &mut room);
}
