// Stage 5 of the judge (RULES 6.8, refusals 13 in an area, 15, 16 and 17): whether an area's loops
// close, turn the right way round and have the area on their right hand. Every public function takes
// every file and every table.
//
// The contracts cite `specs/Loops.antt`.
#![tactic(auto)]

ghost use Rattle.std.specs.Prelude.{◌≡◌, not, ◌+◌, ◌*◌, ◌-◌, ◌≤◌, ◌<◌};
ghost use Rattle.records.specs.Columns.{loop_entries, slot_column};
ghost use Rattle.verdict.specs.Rules.{Broken, first_broken, block, spread};
ghost use Rattle.links.specs.Links.{slot_of};
ghost use Rattle.links.specs.Scanning.{clean, FirstRepeat};
ghost use Rattle.entries.specs.Keeping.{kept_loop, Kept};
ghost use Rattle.loops.specs.Loops.{entry_before, joins, slot_from, loop_slot, winds, wind_checks, first_record, area_record, loop_checks, area_checks, sixth, stage_five};
ghost use Rattle.loops.specs.Scanning.{mark_of, Unrepeated, Marking, KeptFor, SoundTable, KnownBehind};

use entries::LineMeasures;
use layers::{Bases, Layer};
use links::Owner;
use rules::Due;
use verdict::{Refusal, Verdict};

// ---- repeated entries

// Where an entry leaves its mark. Kept beside `mark_at` of `sides`, which goes by a line: neither crate stands on
// the other.
fn mark_of(v: i32) -> usize
    ensures { result ≡ mark_of v }
{
    2 * permitted::size(v) + usize::from(!permitted::natural(v))
}

// Marks the entry `v` with `a`, the record of its A. False where it bears that mark already, or where no
// mark is kept of its line.
fn mark(marks: &mut [usize], v: i32, a: usize) -> bool
    ensures { Marking marks.old v a result marks.new }
{
    if permitted::is_zero(v) {
        return true;
    }
    // by index, since a slice's `get_mut` promises no element
    let i = mark_of(v);
    if marks.len() <= i || marks[i] == a {
        return false;
    }
    marks[i] = a;
    true
}

// How many slots of the area whose A is record `a` are known to repeat none: all, or 0 where one of them
// may. What `marks` held doesn't matter.
fn unrepeated(file: &[u8], a: usize, marks: &mut [usize]) -> usize
    requires { a ≤ 4294967295 }
    ensures { Unrepeated file.now a result }
{
    let n = entries::area_slots(file, a);
    for e in 0..n {
        if !mark(marks, links::slot_of(file, a + 1, e), a) {
            return 0;
        }
    }
    n
}

// The first slot of the loop record `row` that repeats an earlier one of the area whose A is record `a`, or
// 12; without a scan where the first `known` slots of the area are known to repeat none.
fn repeat_in(file: &[u8], a: usize, row: u32, known: usize) -> usize
    requires { (a ≤ 4294967295) × (row ≤ 6399936) × Unrepeated file.now a known }
    ensures { FirstRepeat (slot_of file.now (a + 1)) (12 * (row - (a + 1))) 12 result }
{
    let r = row as usize;
    let from = 12 * r.saturating_sub(a + 1);
    if from + 12 <= known {
        return 12;
    }
    links::first_repeat(Owner::Area, file, a + 1, from)
}

// ---- slots

// The entry before slot `e` of the loop whose first record is `f`; before the first one, the last.
#[tactic(auto, unfolding(crate::specs::Loops::entry_before))]
fn entry_before(file: &[u8], f: usize, e: usize) -> i32
    ensures { result ≡ entry_before file.now f e }
{
    if e == 0 {
        return links::slot_of(file, f, entries::count_at(file, f).saturating_sub(1));
    }
    links::slot_of(file, f, e - 1)
}

// Whether the entry `v` in slot `e` begins where the one before it ends.
#[tactic(auto, using(links::proofs::Numbers::compared), unfolding(crate::specs::Loops::joins, crate::specs::Loops::last_node, links::specs::Links::first_node))]
fn joins(file: &[u8], table: &[u32], l: Layer, f: usize, e: usize, v: i32) -> bool
    ensures { result ≡ joins file.now table.now l f e v }
{
    let w = entry_before(file, f, e);
    let last = links::on_hand(file, table, l, records::END_NODE, records::START_NODE, w);
    let first = links::on_hand(file, table, l, records::START_NODE, records::END_NODE, v);
    first == last
}

// A refusal of slot `i`.
fn broken(number: u32, row: u32, i: usize) -> Verdict
    requires { i < 12 }
    ensures { result ≡ Broken number row (slot_column loop_entries i) }
{
    links::slot_broken(number, row, records::LOOP_ENTRIES, i)
}

// Slot `i` of the loop record `row`, of the area `area`, in the loop whose first record is `f`; `again` says
// that it repeats an earlier one of the area, whose A is record `a`.
#[tactic(auto, using(crate::proofs::SlotLaws::slot_judged, links::proofs::Scans::slot_first), unfolding(crate::specs::Loops::area_on_hand))]
fn judge_slot(
    file: &[u8],
    table: &[u32],
    l: Layer,
    a: usize,
    area: usize,
    f: usize,
    row: u32,
    i: usize,
    again: bool,
) -> Verdict
    requires { (i < 12) × (again ≡ not (clean (slot_of file.now (a + 1)) (slot_from (a + 1) row i))) }
    ensures { result ≡ first_broken (block sixth row (loop_slot file.now table.now l a area f row i)) }
{
    if again {
        return broken(13, row, i);
    }
    let r = row as usize;
    let v = links::slot_of(file, r, i);
    if permitted::is_zero(v) {
        return Ok(());
    }
    if !joins(file, table, l, f, 12 * r.saturating_sub(f) + i, v) {
        return broken(15, row, i);
    }
    let right = links::on_hand(file, table, l, records::RIGHT_AREA, records::LEFT_AREA, v);
    if !permitted::is(right, area) {
        return broken(17, row, i);
    }
    Ok(())
}

// The slots of the loop record `row`; slot `at` is the first that repeats an earlier one.
fn judge_slots(
    file: &[u8],
    table: &[u32],
    l: Layer,
    a: usize,
    area: usize,
    f: usize,
    row: u32,
    at: usize,
) -> Verdict
    requires { FirstRepeat (slot_of file.now (a + 1)) (12 * (row - (a + 1))) 12 at }
    ensures { result ≡ first_broken (block sixth row (spread 12 (loop_slot file.now table.now l a area f row))) }
{
    for i in 0..12 {
        judge_slot(file, table, l, a, area, f, row, i, i == at)?;
    }
    Ok(())
}

// ---- loops

// Whether a measure has the sign that the serial asks for.
#[tactic(auto, unfolding(crate::specs::Loops::winds))]
fn winds(serial: i32, m: i64) -> bool
    ensures { result ≡ winds serial m }
{
    if permitted::natural(serial) {
        return 0 < m;
    }
    m < 0
}

// The way round of the loop that begins at record `row`, by the line measures `kept` of its layer; nothing of
// a later record.
#[tactic(auto, unfolding(crate::specs::Loops::wind_checks, verdict::specs::Rules::first_broken, verdict::specs::Rules::block))]
fn judge_winding(file: &[u8], l: Layer, kept: &LineMeasures, left: usize, row: u32) -> Verdict
    ensures { result ≡ first_broken (block sixth row (wind_checks file.now (kept_loop file.now l kept.now row) row left)) }
{
    if 0 < left {
        return Ok(());
    }
    let r = row as usize;
    let serial = records::value_at(file, r, records::LOOP_SERIAL);
    let m = kept.loop_measure(file, l, r);
    if !winds(serial, m) {
        return Err(Refusal {
            number: 16,
            place: row,
            column: 1,
        });
    }
    Ok(())
}

// The first record of a loop: of its `count` entries `left` are left.
#[tactic(auto, unfolding(crate::specs::Loops::first_record))]
fn first_record(r: usize, count: usize, left: usize) -> usize
    ensures { result ≡ first_record r count left }
{
    if 0 < left {
        return r.saturating_sub(count.saturating_sub(left) / 12);
    }
    r
}

// The A of the layer's area `area`.
#[tactic(auto, unfolding(crate::specs::Loops::area_record))]
fn area_record(table: &[u32], l: Layer, area: usize) -> usize
    ensures { (result ≡ area_record table.now l area) × (result ≤ 4294967295) }
{
    layers::area_word(table, l, area.saturating_sub(1))
}

// The loop record `row` of the area `area`, of which the first `known` slots are known to repeat none.
#[tactic(auto, using(crate::proofs::SlotLaws::wind_kept, crate::proofs::SlotLaws::loop_stops, crate::proofs::SlotLaws::loop_passes))]
fn judge_loop(
    file: &[u8],
    table: &[u32],
    l: Layer,
    kept: &LineMeasures,
    area: usize,
    known: usize,
    count: usize,
    left: usize,
    row: u32,
) -> Verdict
    requires { (row ≤ 6399936) × Unrepeated file.now (area_record table.now l area) known }
    ensures { Kept file.now table.now l kept.now → result ≡ first_broken (block sixth row (loop_checks file.now table.now l area count left row)) }
{
    judge_winding(file, l, kept, left, row)?;
    let a = area_record(table, l, area);
    let at = repeat_in(file, a, row, known);
    judge_slots(
        file,
        table,
        l,
        a,
        area,
        first_record(row as usize, count, left),
        row,
        at,
    )
}

// ---- the stage

// Record `row`, due as `d`, in the layer `l`; its last area is `area`.
#[tactic(auto, using(verdict::proofs::Parts::check_none))]
fn judge_record(
    d: Due,
    file: &[u8],
    table: &[u32],
    l: Layer,
    kept: &LineMeasures,
    area: usize,
    known: usize,
    row: u32,
) -> Verdict
    requires { (row ≤ 6399936) × Unrepeated file.now (area_record table.now l area) known }
    ensures { KeptFor d file.now table.now l kept.now → result ≡ first_broken (block sixth row (area_checks d file.now table.now l area row)) }
{
    match d {
        Due::Loop(_, count, left) => {
            judge_loop(file, table, l, kept, area, known, count, left, row)
        }
        _ => Ok(()),
    }
}

// How many slots of the layer's last area are known to repeat none, behind a record that was due as `d`:
// behind an A, the one behind the first `area`, they are looked at; a loop record leaves them as they were.
#[tactic(auto, using(crate::proofs::StageLaws::next_area))]
fn known_behind(
    d: Due,
    file: &[u8],
    table: &[u32],
    l: Layer,
    area: usize,
    known: usize,
    marks: &mut [usize],
) -> usize
    requires { Unrepeated file.now (area_record table.now l area) known }
    ensures { KnownBehind d file.now table.now l area result }
{
    match d {
        Due::Area(_, _) => unrepeated(file, layers::area_word(table, l, area), marks),
        Due::Loop(_, _, _) => known,
        _ => 0,
    }
}

// Stage 5: every loop record. Lines are measured without a test of a coordinate, so these have to be well
// formed.
pub fn stage_five(file: &[u8], table: &[u32], b: Bases) -> Verdict
    ensures { SoundTable file.now table.now b → result ≡ first_broken (stage_five file.now table.now b) }
{
    let n = walk::records_of(file);
    let mut kept = LineMeasures::none();
    let mut marks = [0usize; 20000];
    let mut known = 0;
    let mut x = layers::at_first(table, b);
    // a quiet run is one step, so no range counts this
    while x.records < n {
        let d = walk::due(x.state);
        judge_record(
            d,
            file,
            table,
            x.layer,
            &kept,
            x.state.layer.area,
            known,
            (x.records + 1) as u32,
        )?;
        known = known_behind(
            d,
            file,
            table,
            x.layer,
            x.state.layer.area,
            known,
            &mut marks,
        );
        x = layers::behind(file, table, b, x);
        if layers::is_layer(d) {
            kept.keep(file, table, x.layer);
        }
        x = layers::past_quiet(file, x, n);
    }
    Ok(())
}
