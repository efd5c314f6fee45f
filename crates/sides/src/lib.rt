// Stage 6 of the judge (RULES 6.9, refusal 18): whether each side of each line is listed in its area.
// Every public function takes every file and every table.
//
// The contracts cite `specs/`: `Sides` has the rules of the stage, `Marking` the marks that spare searches.
#![tactic(auto)]

ghost use Rattle.std.specs.Prelude.{◌≡◌, List, ℕ, ◌≤◌};
ghost use Rattle.verdict.specs.Rules.{Broken, first_broken, block};
ghost use Rattle.records.specs.Columns.{span_from};
ghost use Rattle.sides.specs.Sides.{lists, side_listed, list_checks, line_list_checks, seventh, stage_six};
ghost use Rattle.sides.specs.Marking.{mark_at, Marks, put_mark, bears, LineCountable};

use layers::{Bases, Layer};
use records::Columns;
use rules::Due;
use std::marker::Model;
use verdict::{Refusal, Verdict};

// ---- marks

// Where +n or, backwards, -n leaves its mark.
fn mark_at(back: bool, n: usize) -> usize
    requires { n ≤ 999999 }
    ensures { result ≡ mark_at back n }
{
    2 * n + usize::from(back)
}

// Puts `a` at place `i`, if there is one.
#[tactic(auto, unfolding(crate::specs::Marking::put_mark))]
fn put_mark(marks: &mut [usize], i: usize, a: usize)
    ensures { marks.new ≡ put_mark marks.old i a }
{
    // by index, since a slice's `get_mut` promises no element
    if i < marks.len() {
        marks[i] = a;
    }
}

// Whether +n or, backwards, -n bears the mark `a`.
#[tactic(auto, unfolding(crate::specs::Marking::bears))]
fn bears(marks: &[usize], back: bool, n: usize, a: usize) -> bool
    ensures { result ≡ bears marks.now back n a }
{
    n <= 999999 && 0 < a && marks.get(mark_at(back, n)) == Some(&a)
}

// ---- lines

// Whether the area whose A is record `a` has the entry +n or, backwards, -n: a search of its loops.
fn lists(file: &[u8], a: usize, back: bool, n: usize) -> bool
    ensures { result ≡ lists file.now a back n }
{
    let slots = entries::area_slots(file, a);
    (0..slots).any(|e| links::entry_is(back, n, links::slot_of(file, a + 1, e)))
}

// The refusal of the L at record `row` whose area in the columns `c` doesn't list it. The bound on the column is kept
// as a clause, here and where else one is refused: `records::value_at` answers for every column, so it is no invariant
// of `Columns`.
fn unlisted(row: u32, c: Columns) -> Verdict
    requires { c.0 ≤ 74 }
    ensures { result ≡ Broken 18 row c.0 }
{
    Err(Refusal {
        number: 18,
        place: row,
        column: c.0 as u32,
    })
}

// ---- a file and its marks

// A file, and the marks that spare searches of it. A clause sees the file alone.
#[derive(Drop)]
struct MarkedFile<'a> {
    file: &'a [u8],
    marks: [usize; 20000],
}

impl<'a> Model for MarkedFile<'a> {
    ghost Value = { List ℕ };

    ghost view = { λ m. m.file.now };

    ghost invariant = { λ m. Marks m.file.now m.marks };
}

impl<'a> MarkedFile<'a> {
    // The file with no mark.
    fn unmarked(file: &'a [u8]) -> MarkedFile<'a>
        ensures { result ≡ file.now }
    {
        MarkedFile {
            file,
            marks: [0; 20000],
        }
    }

    // Marks every entry of the area whose A is record `a` with `a`.
    fn mark_area(&mut self, a: usize)
        ensures { self.new ≡ self.old }
    {
        let file = self.file;
        for e in 0..entries::area_slots(file, a) {
            let v = links::slot_of(file, a + 1, e);
            put_mark(
                &mut self.marks,
                mark_at(!permitted::natural(v), permitted::size(v)),
                a,
            );
        }
    }

    // Marks every entry of a layer's areas.
    fn mark_layer(&mut self, table: &[u32], l: Layer)
        ensures { self.new ≡ self.old }
    {
        for i in 0..l.areas as usize {
            self.mark_area(layers::area_word(table, l, i));
        }
    }

    // Behind an H, marks the entries of its layer `l`.
    fn mark_behind(&mut self, d: Due, table: &[u32], l: Layer)
        ensures { self.new ≡ self.old }
    {
        if layers::is_layer(d) {
            self.mark_layer(table, l);
        }
    }

    // The answer of `lists`, without a search where the entry bears the area's mark.
    #[tactic(auto, using(crate::proofs::Marked::bears_listed))]
    fn has_entry(&self, a: usize, back: bool, n: usize) -> bool
        ensures { result ≡ lists self.now a back n }
    {
        bears(&self.marks, back, n, a) || lists(self.file, a, back, n)
    }

    // Whether the area in the columns `c` of the L at record `r` has line `n`'s entry; area 0 is nobody.
    #[tactic(auto, unfolding(crate::specs::Sides::side_listed))]
    fn side_listed(
        &self,
        table: &[u32],
        l: Layer,
        r: usize,
        c: Columns,
        back: bool,
        n: usize,
    ) -> bool
        ensures { result ≡ side_listed self.now table.now l r (span_from c.0 c.1) back n }
    {
        let v = records::value_at(self.file, r, c);
        permitted::is_zero(v) || self.has_entry(layers::area_of(table, l, v), back, n)
    }

    // Both sides of line `n`, whose L is record `row`.
    #[tactic(auto, unfolding(crate::specs::Sides::list_checks, verdict::specs::Rules::first_broken, verdict::specs::Rules::block))]
    fn judge_line(&self, table: &[u32], l: Layer, row: u32, n: usize) -> Verdict
        ensures { result ≡ first_broken (block seventh row (list_checks self.now table.now l row n)) }
    {
        let r = row as usize;
        if !self.side_listed(table, l, r, records::LEFT_AREA, true, n) {
            return unlisted(row, records::LEFT_AREA);
        }
        if !self.side_listed(table, l, r, records::RIGHT_AREA, false, n) {
            return unlisted(row, records::RIGHT_AREA);
        }
        Ok(())
    }

    // Record `row`, due as `d`, in the layer `l`.
    #[tactic(auto, using(verdict::proofs::Parts::check_none))]
    fn judge_record(&self, d: Due, table: &[u32], l: Layer, row: u32) -> Verdict
        requires { LineCountable d }
        ensures { result ≡ first_broken (block seventh row (line_list_checks d self.now table.now l row)) }
    {
        match d {
            Due::Line(_, last, _) => self.judge_line(table, l, row, last + 1),
            _ => Ok(()),
        }
    }
}

// ---- the stage

// Stage 6: both sides of every line.
pub fn stage_six(file: &[u8], table: &[u32], b: Bases) -> Verdict
    ensures { result ≡ first_broken (stage_six file.now table.now b) }
{
    let n = walk::records_of(file);
    let mut marked = MarkedFile::unmarked(file);
    let mut x = layers::at_first(table, b);
    // a quiet run is one step, so no range counts this
    while x.records < n {
        let d = walk::due(x.state);
        marked.judge_record(d, table, x.layer, (x.records + 1) as u32)?;
        x = layers::behind(file, table, b, x);
        marked.mark_behind(d, table, x.layer);
        x = layers::past_quiet(file, x, n);
    }
    Ok(())
}
