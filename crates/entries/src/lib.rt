// The entries of loops and areas (RULES 2.6, 4.7), and the measures of loops (RULES 7.2). Every
// public function takes every file, table and record number.
//
// The contracts cite `specs/`: `Entries` says which entries a loop and an area have, `Loops` what their
// measures are.
#![tactic(auto)]

ghost use Rattle.std.specs.Prelude.{◌≡◌, [], ◌≤◌, min, length};
ghost use Rattle.std.proofs.lemmas.List.Edits.{sets};
ghost use Rattle.permitted.specs.Permitted.{size};
ghost use Rattle.entries.specs.Entries.{records_for, count_at, loops_at, slots_of};
ghost use Rattle.entries.specs.Loops.{slot_measure};
ghost use Rattle.entries.specs.Keeping.{walked_to, possible_of, kept_measure, kept_loop};

use layers::Layer;
use std::marker::Model;

// ---- records

// The records of a loop of `n` lines.
#[tactic(auto, unfolding(crate::specs::Entries::records_for))]
fn records_for(n: usize) -> usize
    ensures { result ≡ records_for n }
{
    n.saturating_sub(1) / 12 + 1
}

// The line count of the loop whose first record is `f`.
#[tactic(auto, using(crate::proofs::Slots::four_told), unfolding(crate::specs::Entries::count_at))]
pub fn count_at(file: &[u8], f: usize) -> usize
    ensures { (result ≡ count_at file.now f) × (result ≤ 9999) }
{
    permitted::size(records::value_at(file, f, records::LOOP_COUNT))
}

// The records of the loop whose first one is `f`.
#[tactic(auto, using(crate::proofs::Slots::records_few))]
pub fn loop_records(file: &[u8], f: usize) -> usize
    ensures { (result ≡ records_for (count_at file.now f)) × (result ≤ 834) }
{
    records_for(count_at(file, f))
}

// The loops of the A at record `a`.
#[tactic(auto, using(crate::proofs::Slots::four_told), unfolding(crate::specs::Entries::loops_at))]
pub fn loops_at(file: &[u8], a: usize) -> usize
    ensures { (result ≡ loops_at file.now a) × (result ≤ 9999) }
{
    permitted::size(records::value_at(file, a, records::AREA_LOOPS))
}

// The slots of the area whose A is record `a`.
#[tactic(auto, using(crate::proofs::Slots::slots_none), unfolding(crate::specs::Entries::records_to, crate::specs::Entries::slots_of))]
pub fn area_slots(file: &[u8], a: usize) -> usize
    ensures { (result ≡ slots_of file.now a) × (result ≤ 100069992) }
{
    if file.len() / 74 < a {
        return 0;
    }
    let mut records = 0;
    for _ in 0..loops_at(file, a) {
        records += loop_records(file, a + 1 + records);
    }
    12 * records
}

// ---- measures

// Measures the first lines of a layer, as many as there is room for, and says how many. It reads their
// coordinates without a test, so what it keeps are the measures of lines that are well formed.
pub fn keep_measures(file: &[u8], table: &[u32], l: Layer, kept: &mut [i64]) -> usize
    ensures { (result ≡ min l.lines (length kept.old)) × (kept.new ≡ sets kept.old 0 (walked_to file.now table.now l result)) }
{
    let n = kept.len().min(l.lines as usize);
    for i in 0..n {
        kept[i] = measures::line_measure(file, layers::line_word(table, l, i));
    }
    n
}

// A kept measure. One that no line of an accepted file can have counts as 0, so that no sum can grow too
// large.
#[tactic(auto, unfolding(crate::specs::Keeping::possible_of))]
fn possible(m: i64) -> i64
    ensures { result ≡ possible_of m }
{
    if m.unsigned_abs() <= 200000000000000 {
        m
    } else {
        0
    }
}

// The measure that is kept of the line that the entry `v` names; 0 where it names none, or none is kept.
#[tactic(auto, using(crate::proofs::Keeping::unnamed_told, layers::proofs::Answers::line_counted))]
pub fn line_measure(l: Layer, kept: &[i64], v: i32) -> i64
    ensures { result ≡ kept_measure l kept.now (size v) }
{
    if !layers::names_line(l.lines, v) {
        return 0;
    }
    possible(kept.get(permitted::size(v) - 1).copied().unwrap_or(0))
}

// The measure of an entry: its line's, taken away for a line that is walked backwards.
#[tactic(auto, using(crate::proofs::Summing::entry_laws))]
fn entry_measure(l: Layer, kept: &[i64], v: i32) -> i64
    ensures { result ≡ slot_measure (kept_measure l kept.now) v }
{
    let m = line_measure(l, kept, v);
    if permitted::natural(v) { m } else { -m }
}

// The measure of the loop whose first record is `f`, by the measures that were kept of its layer's lines.
pub fn loop_measure(file: &[u8], l: Layer, kept: &[i64], f: usize) -> i64
    ensures { result ≡ kept_loop file.now l kept.now f }
{
    let mut sum = 0;
    for e in 0..12 * loop_records(file, f) {
        sum += entry_measure(l, kept, links::slot_of(file, f, e));
    }
    sum
}

// The measures of a layer's first lines, as many as there is room for: clauses see them as a list.
#[derive(Drop)]
pub struct LineMeasures {
    measures: [i64; 9999],
    count: usize,
}

impl Model for LineMeasures {
    ghost use Rattle.std.specs.Prelude.{◌≤◌, List, ℤ, take};

    ghost Value = { List ℤ };

    ghost view = { λ m. take m.count m.measures };

    ghost invariant = { λ m. m.count ≤ 9999 };
}

impl LineMeasures {
    // No measures.
    pub fn none() -> Self
        ensures { result ≡ [] }
    {
        LineMeasures {
            measures: [0; 9999],
            count: 0,
        }
    }

    // Measures the lines of a layer in place of those that were kept.
    pub fn keep(&mut self, file: &[u8], table: &[u32], l: Layer)
        ensures { self.new ≡ walked_to file.now table.now l (min l.lines 9999) }
    {
        self.count = keep_measures(file, table, l, &mut self.measures);
    }

    // The measures that are kept.
    pub fn as_slice(&self) -> &[i64]
        ensures { result.now ≡ self.now }
    {
        &self.measures[..self.count]
    }

    // `line_measure` by these.
    pub fn line_measure(&self, l: Layer, v: i32) -> i64
        ensures { result ≡ kept_measure l self.now (size v) }
    {
        line_measure(l, self.as_slice(), v)
    }

    // `loop_measure` by these.
    pub fn loop_measure(&self, file: &[u8], l: Layer, f: usize) -> i64
        ensures { result ≡ kept_loop file.now l self.now f }
    {
        loop_measure(file, l, self.as_slice(), f)
    }
}
