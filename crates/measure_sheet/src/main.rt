// The program `measure` over standard input (RULES 12.2).
#![tactic(auto)]

fn main(rt: HostRuntime) {
    // A read or a write that fails has been told to the standard error.
    let _ = report::measure(&mut rt.stdin(), &mut rt.stdout(), &mut rt.stderr());
}
