// The program `check` over standard input (RULES 12.1).
#![tactic(auto)]

fn main(rt: HostRuntime) {
    // A read or a write that fails has been told to the standard error.
    let _ = report::check(&mut rt.stdin(), &mut rt.stdout(), &mut rt.stderr());
}
