// What is due at a record of a file (RULES 9.10), whether the file is accepted or not. Every public
// function takes every file and every number.
//
// The contract cites `specs/Dues`, which goes by the walk (RULES 2) as stage 2 does.
#![tactic(auto)]

ghost use Rattle.std.specs.Prelude.{◌≡◌, ◌≤◌};
ghost use Rattle.walk.specs.States.{state_at};
ghost use Rattle.dues.specs.Dues.{due_at};

use records::Kind;
use walk::State;

// Where the walk stands behind the first `n` records; a quiet run is one step.
#[tactic(auto, using(walk::proofs::Passing::pass_most))]
fn behind(file: &[u8], n: usize) -> State
    requires { n ≤ 4294967295 }
    ensures { result ≡ state_at file.now n }
{
    let mut s = walk::at_start();
    let mut k: usize = 0;
    // a quiet run is one step, so no range counts this
    while k < n {
        s = walk::next(s, records::record_view(file, k + 1));
        k += 1;
        let p = walk::pass_quiet(s, n - k);
        s = p.state;
        k += p.records;
    }
    s
}

// The kind of record that is due at record `row`: of each record that is looked at, and of the first one
// behind them; `None` elsewhere.
pub fn due_at(file: &[u8], row: u32) -> Option<Kind>
    ensures { result ≡ due_at file.now row }
{
    let before = (row as usize).checked_sub(1)?;
    if walk::records_of(file) < before {
        return None;
    }
    let s = behind(file, before);
    Some(rules::kind_of(walk::due(s)))
}
