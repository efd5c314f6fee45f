// Stage 4 of the judge (RULES 6.7, refusals 11 to 14): what the numbers of a layer name, and whether
// both sides say the same. Every public function takes every file and every table.
//
// The contracts cite `specs/Links.antt`.
#![tactic(auto)]

ghost use Rattle.std.specs.Prelude.{◌≡◌, ℕ, ℤ, false, true, not, ◌+◌, ◌-◌, ◌≤◌, ◌<◌, get_or};
ghost use Rattle.verdict.specs.Rules.{Broken, first_broken, block};
ghost use Rattle.permitted.specs.Permitted.{size};
ghost use Rattle.records.specs.View.{number_in};
ghost use Rattle.records.specs.Columns.{span_from, slot_start};
ghost use Rattle.links.specs.Links.{entry_is, node_entry, hand_in, meets, node_slot, node_checks, listed, link_fits, line_end_checks, side_checks, line_checks, at_node, first_point_checks, last_point_checks, point_checks, slot_of, entry_checks, link_checks, fifth, stage_four};
ghost use Rattle.links.specs.Scanning.{slot_by, slot_count, clean, FirstRepeat, Between};

use layers::{Bases, Layer};
use records::{Columns, Slots};
use rules::Due;
use verdict::{Refusal, Verdict};
use walk::State;

// ---- numbers

// The entry +n or, backwards, -n.
#[tactic(auto, using(crate::proofs::Numbers::same_is), unfolding(crate::specs::Links::entry_is))]
pub fn entry_is(back: bool, n: usize, v: i32) -> bool
    ensures { result ≡ entry_is back n v }
{
    permitted::size(v) == n && back == !permitted::natural(v)
}

// A record's own serial, in the columns `c`.
fn serial_in(file: &[u8], r: usize, c: Columns) -> usize
    ensures { result ≡ size (number_in file.now r c.0 c.1) }
{
    permitted::size(records::value_at(file, r, c))
}

// A refusal at a column.
fn broken(number: u32, row: u32, column: usize) -> Verdict
    requires { column ≤ 65280 }
    ensures { result ≡ Broken number row column }
{
    Err(Refusal {
        number,
        place: row,
        column: column as u32,
    })
}

// A refusal of slot `i` of a row of slots.
pub fn slot_broken(number: u32, row: u32, slots: Slots, i: usize) -> Verdict
    ensures { result ≡ Broken number row (slot_start slots.0 slots.1 slots.2 i) }
{
    broken(number, row, records::slot_column(slots, i))
}

// ---- slots

// Slot `i` of an N.
#[tactic(auto, unfolding(crate::specs::Links::node_entry))]
fn node_entry(file: &[u8], r: usize, i: usize) -> i32
    ensures { result ≡ node_entry file.now r i }
{
    records::slot_at(file, r, records::NODE_ENTRIES, i)
}

// Slot `e` of the loop records from record `f` on.
#[tactic(auto, using(crate::proofs::Scans::slot_past), unfolding(crate::specs::Links::slot_of, crate::specs::Links::loop_entry))]
pub fn slot_of(file: &[u8], f: usize, e: usize) -> i32
    ensures { result ≡ slot_of file.now f e }
{
    if file.len() / 74 < f {
        return 0;
    }
    records::slot_at(file, f + e / 12, records::LOOP_ENTRIES, e % 12)
}

// Whose slots they are: those of an N; or those of the loop records of an area.
#[derive(Clone, Copy)]
pub enum Owner {
    Node,
    Area,
}

// How many of them a record has.
fn slot_count(o: Owner) -> usize
    ensures { (result ≡ slot_count o) × (result ≤ 12) }
{
    match o {
        Owner::Node => 9,
        Owner::Area => 12,
    }
}

// Of the slots from number `from` to the one before `to`, the first that repeats an earlier slot of the
// row; or `to`. The contract speaks of every row `f` whose slots `slot` reads.
fn scan_slots<F: Fn(usize) -> i32>(from: usize, to: usize, slot: F) -> usize
    requires { F.IsAlwaysCallable slot }
    ensures { (f : ℕ → ℤ) → ((i : ℕ) (v : ℤ) → i < to → F.post slot i v → v ≡ f i) → from ≤ to → (from ≤ result) × FirstRepeat f from (to - from) (result - from) }
{
    let mut at = to;
    'scan: for e in from..to {
        let entry = slot(e);
        if permitted::is_zero(entry) {
            continue;
        }
        for j in 0..e {
            if entry == slot(j) {
                at = e;
                break 'scan;
            }
        }
    }
    at
}

// Of the slots of one record, from slot `from` on, the first that repeats an earlier slot; or how many
// they are. `f` is the record where the slots begin.
pub fn first_repeat(o: Owner, file: &[u8], f: usize, from: usize) -> usize
    ensures { from ≤ 4294967295 → FirstRepeat (slot_by o file.now f) from (slot_count o) result }
{
    let n = slot_count(o);
    if 4294967295 < from {
        return n;
    }
    match o {
        Owner::Node => scan_slots(from, from + n, |i| node_entry(file, f, i)) - from,
        Owner::Area => scan_slots(from, from + n, |i| slot_of(file, f, i)) - from,
    }
}

// ---- N

// Of the line that an entry names, the number in the field `c`; backwards, that in the field `d`.
pub fn on_hand(file: &[u8], table: &[u32], l: Layer, c: Columns, d: Columns, v: i32) -> i32
    ensures { result ≡ hand_in file.now table.now l c.0 c.1 d.0 d.1 v }
{
    let r = layers::line_of(table, l, v);
    if permitted::natural(v) {
        return records::value_at(file, r, c);
    }
    records::value_at(file, r, d)
}

// Whether line `v` starts or, backwards, ends at the N of record `r`; it waits where a number names
// nothing.
#[tactic(auto, unfolding(crate::specs::Links::meets, crate::specs::Links::first_node))]
fn meets(file: &[u8], table: &[u32], l: Layer, r: usize, v: i32) -> bool
    ensures { result ≡ meets file.now table.now l r v }
{
    if !layers::names_line(l.lines, v) {
        return true;
    }
    let e = on_hand(file, table, l, records::START_NODE, records::END_NODE, v);
    if !layers::names(l.nodes, e) {
        return true;
    }
    permitted::size(e) == serial_in(file, r, records::NODE_SERIAL)
}

// Slot `i` of the N at record `row`; `again` says that it repeats an earlier one.
#[tactic(auto, using(crate::proofs::NodeLaws::slot_laws))]
fn judge_slot(file: &[u8], table: &[u32], l: Layer, row: u32, i: usize, again: bool) -> Verdict
    requires { (i < 9) × (again ≡ not (clean (node_entry file.now row) i)) }
    ensures { result ≡ first_broken (block fifth row (node_slot file.now table.now l row i)) }
{
    let r = row as usize;
    let v = node_entry(file, r, i);
    if permitted::is_zero(v) {
        return Ok(());
    }
    if !layers::names_line(l.lines, v) {
        return slot_broken(11, row, records::NODE_ENTRIES, i);
    }
    if !meets(file, table, l, r, v) {
        return slot_broken(12, row, records::NODE_ENTRIES, i);
    }
    if again {
        return slot_broken(13, row, records::NODE_ENTRIES, i);
    }
    Ok(())
}

// The entries of the N at record `row`.
#[tactic(auto, using(crate::proofs::NodeLaws::node_laws), unfolding(crate::specs::Links::node_checks))]
fn judge_node(file: &[u8], table: &[u32], l: Layer, row: u32) -> Verdict
    ensures { result ≡ first_broken (block fifth row (node_checks file.now table.now l row)) }
{
    let at = first_repeat(Owner::Node, file, row as usize, 0);
    for i in 0..9 {
        judge_slot(file, table, l, row, i, i == at)?;
    }
    Ok(())
}

// ---- L

// Whether the N at record `r` lists +n or, backwards, -n.
fn listed(file: &[u8], r: usize, back: bool, n: usize) -> bool
    ensures { result ≡ listed file.now r back n }
{
    (0..9).any(|i| entry_is(back, n, node_entry(file, r, i)))
}

// 0 exactly where the frame is.
#[tactic(auto, using(crate::proofs::Numbers::same_is), unfolding(crate::specs::Links::link_fits))]
fn link_fits(link: i32, frame: i32) -> bool
    ensures { result ≡ link_fits link frame }
{
    permitted::is_zero(link) == permitted::is_zero(frame)
}

// One end of the line at record `row`: its node number in the columns `c`, its link in the columns `k`.
#[tactic(auto, using(crate::proofs::LineLaws::end_laws))]
fn judge_end(file: &[u8], l: Layer, row: u32, c: Columns, k: Columns, back: bool) -> Verdict
    requires { (c.0 ≤ 74) × (k.0 ≤ 74) }
    ensures { result ≡ first_broken (block fifth row (line_end_checks file.now l row (span_from c.0 c.1) (span_from k.0 k.1) back)) }
{
    let r = row as usize;
    let v = records::value_at(file, r, c);
    if !layers::names(l.nodes, v) {
        return broken(11, row, c.0);
    }
    let node = layers::node_of(l, v);
    let serial = serial_in(file, r, records::LINE_SERIAL);
    if !listed(file, node, back, serial) {
        return broken(14, row, c.0);
    }
    let link = records::value_at(file, r, k);
    let frame = records::value_at(file, node, records::NODE_FRAME);
    if !link_fits(link, frame) {
        return broken(12, row, k.0);
    }
    Ok(())
}

// One side of the line at record `row`: its code in the columns `c`, its area number in the columns `a`.
#[tactic(auto, using(crate::proofs::LineLaws::side_laws))]
fn judge_side(file: &[u8], table: &[u32], l: Layer, row: u32, c: Columns, a: Columns) -> Verdict
    requires { (c.0 ≤ 74) × (a.0 ≤ 74) }
    ensures { result ≡ first_broken (block fifth row (side_checks file.now table.now l row (span_from c.0 c.1) (span_from a.0 a.1))) }
{
    let r = row as usize;
    let v = records::value_at(file, r, a);
    if !layers::names(l.areas, v) {
        if permitted::is_zero(v) {
            return Ok(());
        }
        return broken(11, row, a.0);
    }
    let area = layers::area_of(table, l, v);
    let code = records::value_at(file, r, c);
    let other = records::value_at(file, area, records::AREA_CODE);
    if code != other {
        return broken(12, row, c.0);
    }
    Ok(())
}

// The ends and the sides of the line at record `row`.
#[tactic(auto, using(verdict::proofs::Parts::part_stops, verdict::proofs::Parts::part_passes), unfolding(crate::specs::Links::line_checks))]
fn judge_line(file: &[u8], table: &[u32], l: Layer, row: u32) -> Verdict
    ensures { result ≡ first_broken (block fifth row (line_checks file.now table.now l row)) }
{
    judge_end(
        file,
        l,
        row,
        records::START_NODE,
        records::START_LINK,
        false,
    )?;
    judge_end(file, l, row, records::END_NODE, records::END_LINK, true)?;
    judge_side(file, table, l, row, records::LEFT_CODE, records::LEFT_AREA)?;
    judge_side(
        file,
        table,
        l,
        row,
        records::RIGHT_CODE,
        records::RIGHT_AREA,
    )
}

// ---- coordinates

// Whether pair `i` of the coordinate record `r` is where the N that `v` names stands.
#[tactic(auto, using(crate::proofs::Numbers::compared), unfolding(crate::specs::Links::at_node))]
fn at_node(file: &[u8], l: Layer, v: i32, r: usize, i: usize) -> bool
    ensures { result ≡ at_node file.now l v r i }
{
    if !layers::names(l.nodes, v) {
        return true;
    }
    let node = layers::node_of(l, v);
    let x = records::slot_at(file, r, records::POINTS_X, i);
    let y = records::slot_at(file, r, records::POINTS_Y, i);
    x == records::value_at(file, node, records::NODE_X)
        && y == records::value_at(file, node, records::NODE_Y)
}

// The first point, where all points of the line are left; the L is record `q`.
#[tactic(auto, using(crate::proofs::LineLaws::first_laws))]
fn judge_first(file: &[u8], l: Layer, q: usize, row: u32, left: usize) -> Verdict
    ensures { result ≡ first_broken (block fifth row (first_point_checks file.now l q row left)) }
{
    if left <= 1 {
        return Ok(());
    }
    if left != permitted::size(records::value_at(file, q, records::LINE_POINTS)) {
        return Ok(());
    }
    let v = records::value_at(file, q, records::START_NODE);
    if !at_node(file, l, v, row as usize, 0) {
        return slot_broken(12, row, records::POINTS_X, 0);
    }
    Ok(())
}

// The last point, where no more than seven are left.
#[tactic(auto, using(crate::proofs::LineLaws::last_laws))]
fn judge_last(file: &[u8], l: Layer, q: usize, row: u32, left: usize) -> Verdict
    ensures { result ≡ first_broken (block fifth row (last_point_checks file.now l q row left)) }
{
    if left == 0 {
        return Ok(());
    }
    if 7 < left {
        return Ok(());
    }
    let v = records::value_at(file, q, records::END_NODE);
    if !at_node(file, l, v, row as usize, left - 1) {
        return slot_broken(12, row, records::POINTS_X, left - 1);
    }
    Ok(())
}

// The first and the last point of a line.
#[tactic(auto, using(verdict::proofs::Parts::part_stops, verdict::proofs::Parts::part_passes), unfolding(crate::specs::Links::point_checks))]
fn judge_points(file: &[u8], l: Layer, q: usize, row: u32, left: usize) -> Verdict
    ensures { result ≡ first_broken (block fifth row (point_checks file.now l q row left)) }
{
    judge_first(file, l, q, row, left)?;
    judge_last(file, l, q, row, left)
}

// ---- loop records

// The entries of the loop record `row`.
#[tactic(auto, using(crate::proofs::LineLaws::entry_laws))]
fn judge_entries(file: &[u8], l: Layer, row: u32) -> Verdict
    ensures { result ≡ first_broken (block fifth row (entry_checks file.now l row)) }
{
    for i in 0..12 {
        let v = slot_of(file, row as usize, i);
        if !permitted::is_zero(v) && !layers::names_line(l.lines, v) {
            return slot_broken(11, row, records::LOOP_ENTRIES, i);
        }
    }
    Ok(())
}

// ---- the stage

// The L record of the line whose points come: `line` lines of the layer came.
fn current_line(table: &[u32], l: Layer, line: usize) -> usize
    ensures { result ≡ get_or table.now (l.line + (line - 1)) 0 }
{
    layers::line_word(table, l, line.saturating_sub(1))
}

// Record `row`, due as `d`, in the layer `l`; `line` lines of the layer came before it.
#[tactic(auto, using(verdict::proofs::Parts::check_none))]
fn judge_record(d: Due, file: &[u8], table: &[u32], l: Layer, line: usize, row: u32) -> Verdict
    ensures { result ≡ first_broken (block fifth row (link_checks d file.now table.now l line row)) }
{
    match d {
        Due::Node(_, _) => judge_node(file, table, l, row),
        Due::Line(_, _, _) => judge_line(file, table, l, row),
        Due::Coordinates(left) => {
            let q = current_line(table, l, line);
            judge_points(file, l, q, row, left)
        }
        Due::Loop(_, _, _) => judge_entries(file, l, row),
        _ => Ok(()),
    }
}

// How many coordinate records come before the last one of a line, where none of them is its first: they
// name nothing.
#[tactic(auto, using(crate::proofs::StageLaws::between_some))]
fn between(file: &[u8], table: &[u32], l: Layer, s: State) -> usize
    ensures { Between file.now table.now l s result }
{
    if s.line.points <= 7 {
        return 0;
    }
    let q = current_line(table, l, s.layer.line);
    if permitted::size(records::value_at(file, q, records::LINE_POINTS)) <= s.line.points {
        return 0;
    }
    (s.line.points - 1) / 7
}

// Stage 4: every record by what it names.
#[tactic(auto, using(layers::proofs::Stages::stage_stops, layers::proofs::Stages::stage_done), unfolding(crate::specs::Links::stage_four))]
pub fn stage_four(file: &[u8], table: &[u32], b: Bases) -> Verdict
    ensures { result ≡ first_broken (stage_four file.now table.now b) }
{
    let n = walk::records_of(file);
    let mut x = layers::at_first(table, b);
    while x.records < n {
        judge_record(
            walk::due(x.state),
            file,
            table,
            x.layer,
            x.state.layer.line,
            (x.records + 1) as u32,
        )?;
        x = layers::behind(file, table, b, x);
        x = layers::past_quiet(file, x, between(file, table, x.layer, x.state));
    }
    Ok(())
}
