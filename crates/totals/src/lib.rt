// Stage 3 of the judge (RULES 6.6): the totals of M, H and A against what was counted.
//
// The contracts cite `specs/Totals.antt`, which says what follows a record and what its totals have to
// be.
#![tactic(auto)]

ghost use Rattle.std.specs.Prelude.{◌≡◌, [], ◌∷◌, ◌+◌, ◌≤◌, ◌<◌, eqb};
ghost use Rattle.verdict.specs.Rules.{check, first_broken, block};
ghost use Rattle.walk.specs.States.{size_in, state_at};
ghost use Rattle.totals.specs.Totals.{rank_number, rank_of, one_more, layer_more, loop_more, added_for, sums_behind, mesh_totals, total_checks, fourth, stage_three};
ghost use Rattle.totals.specs.Adding.{Addable};

use records::Columns;
use rules::Due;
use verdict::{Refusal, Verdict};
use walk::State;

// What follows a record: how many records, the totals of the H records among them, and the line counts of
// the loops. How large they may be is kept in the clauses of what adds to them: it grows with each record, so it is no
// invariant of the type.
#[derive(Clone, Copy)]
struct Sums {
    records: usize,
    nodes: usize,
    lines: usize,
    areas: usize,
    entries: usize,
}

// Nothing yet.
const NO_SUMS: Sums = Sums {
    records: 0,
    nodes: 0,
    lines: 0,
    areas: 0,
    entries: 0,
};

// How far a record's sums reach: up to the next record of its rank or one above it. An M is the first.
#[derive(Clone, Copy, PartialEq, Eq, PartialOrd, Ord)]
enum Rank {
    Mesh,
    Layer,
    // of a layer: an N, an L, coordinates or an A
    Part,
    Loop,
}

// Where a record stands among the ranks.
fn rank_of(d: Due) -> Rank
    ensures { rank_number result ≡ rank_of d }
{
    match d {
        Due::Mesh(_) => Rank::Mesh,
        Due::Layer(_) => Rank::Layer,
        Due::Loop(_, _, _) => Rank::Loop,
        _ => Rank::Part,
    }
}

// The sums with a record that is counted, and no more.
fn one_more(s: Sums) -> Sums
    requires { Addable 6399936 s }
    ensures { result ≡ one_more s }
{
    Sums {
        records: s.records + 1,
        ..s
    }
}

// The sums with an H.
fn layer_more(s: Sums, t: &[u8]) -> Sums
    requires { Addable 6399936 s }
    ensures { result ≡ layer_more s t.now }
{
    Sums {
        records: s.records + 1,
        nodes: s.nodes + walk::size_at(t, records::LAYER_NODES),
        lines: s.lines + walk::size_at(t, records::LAYER_LINES),
        areas: s.areas + walk::size_at(t, records::LAYER_AREAS),
        ..s
    }
}

// The sums with a loop's first record.
fn loop_more(s: Sums, t: &[u8]) -> Sums
    requires { Addable 6399936 s }
    ensures { result ≡ loop_more s t.now }
{
    Sums {
        records: s.records + 1,
        entries: s.entries + walk::size_at(t, records::LOOP_COUNT),
        ..s
    }
}

// The sums with a record more.
fn added(d: Due, s: Sums, t: &[u8]) -> Sums
    requires { Addable 6399936 s }
    ensures { result ≡ added_for d s t.now }
{
    match d {
        Due::Layer(_) => layer_more(s, t),
        Due::Loop(_, _, 0) => loop_more(s, t),
        _ => one_more(s),
    }
}

// How many quiet records are passed at most, with `left` records left: none where one of them ends the sums.
fn room_for(rank: Rank, left: usize) -> usize
    ensures { (result ≤ left) × (0 < result → rank_number rank < 2) }
{
    if rank < Rank::Part { left } else { 0 }
}

// What follows the first `k` records, behind which the walk is in the state `s`, up to the next record of
// rank `rank` or above.
#[tactic(auto, using(walk::proofs::Passing::pass_most, crate::proofs::Summing::most_addable, crate::proofs::Summing::more_addable))]
fn sums_behind(rank: Rank, file: &[u8], k: usize, s: State) -> Sums
    requires { (k ≤ 6399936) × (s ≡ state_at file.now k) }
    ensures { result ≡ sums_behind (rank_number rank) file.now k }
{
    let n = walk::records_of(file);
    let mut sums = NO_SUMS;
    let mut state = s;
    let mut i = k;
    // a quiet run is one step, so no range counts this
    while i < n {
        let d = walk::due(state);
        if rank_of(d) <= rank {
            return sums;
        }
        let t = records::record_view(file, i + 1);
        sums = added(d, sums, t);
        state = walk::next(state, t);
        i += 1;
        let p = walk::pass_quiet(state, room_for(rank, n - i));
        sums.records += p.records;
        state = p.state;
        i += p.records;
    }
    sums
}

// The total in the columns `c` of the record `t` against what was counted.
fn judge_total(t: &[u8], c: Columns, counted: usize, row: u32) -> Verdict
    requires { c.0 ≤ 74 }
    ensures { result ≡ first_broken (block fourth row (check c.0 10 (eqb (size_in t.now c.0 c.1) counted) ∷ [])) }
{
    if walk::size_at(t, c) == counted {
        return Ok(());
    }
    Err(Refusal {
        number: 10,
        place: row,
        column: c.0 as u32,
    })
}

// The totals of an M, by what follows it in its mesh: the M itself is not counted.
fn judge_mesh(t: &[u8], s: Sums, row: u32) -> Verdict
    ensures { result ≡ first_broken (block fourth row (mesh_totals t.now s)) }
{
    judge_total(t, records::MESH_NODES, s.nodes, row)?;
    judge_total(t, records::MESH_LINES, s.lines, row)?;
    judge_total(t, records::MESH_AREAS, s.areas, row)?;
    judge_total(t, records::MESH_RECORDS, s.records, row)
}

// The totals of record `k + 1`, due as `d`; `next` is the state behind it. Counting begins behind the record,
// so an M or an H is no part of its own total.
#[tactic(auto, using(crate::proofs::Summing::layer_arm, crate::proofs::Summing::none_arm), unfolding(crate::specs::Totals::area_totals))]
fn judge_totals(d: Due, file: &[u8], k: usize, next: State) -> Verdict
    requires { (k < 6399936) × (next ≡ state_at file.now (k + 1)) }
    ensures { result ≡ first_broken (block fourth (k + 1) (total_checks d file.now k)) }
{
    let row = (k + 1) as u32;
    let t = records::record_view(file, k + 1);
    match d {
        Due::Mesh(_) => judge_mesh(t, sums_behind(Rank::Mesh, file, k + 1, next), row),
        Due::Layer(_) => {
            let s = sums_behind(Rank::Layer, file, k + 1, next);
            judge_total(t, records::LAYER_RECORDS, s.records, row)
        }
        Due::Area(_, _) => {
            let s = sums_behind(Rank::Part, file, k + 1, next);
            judge_total(t, records::AREA_LINES, s.entries, row)
        }
        _ => Ok(()),
    }
}

// Stage 3: the totals of every record.
#[tactic(auto, using(walk::proofs::Passing::pass_most))]
pub fn stage_three(file: &[u8]) -> Verdict
    ensures { result ≡ first_broken (stage_three file.now) }
{
    let n = walk::records_of(file);
    let mut s = walk::at_start();
    let mut k: usize = 0;
    // a quiet run is one step, so no range counts this
    while k < n {
        let d = walk::due(s);
        let next = walk::next(s, records::record_view(file, k + 1));
        judge_totals(d, file, k, next)?;
        s = next;
        k += 1;
        let p = walk::pass_quiet(s, n - k);
        s = p.state;
        k += p.records;
    }
    Ok(())
}
