// The judge (RULES 6, 8, 9.1, 9.2, 9.11): one answer to every file, the first broken rule in the order
// of RULES 6.1; the table, the measures and the sums in the lent buffers; and a layer's two sums. Every
// public function takes every file and every buffer.
//
// The contracts cite `specs/`: `Rulebook` has the rules in that order, `Outcomes` what is answered and
// what each lent buffer holds afterwards.
#![tactic(auto)]

ghost use Rattle.std.specs.Prelude.{◌≡◌, [], ◌∷◌, suc, ◌+◌, ◌*◌, ◌≤◌, length, IfOk};
ghost use Rattle.std.proofs.lemmas.List.Edits.{sets};
ghost use Rattle.verdict.specs.Rules.{Fine, check, block, first_broken};
ghost use Rattle.walk.specs.Row.{areas_word};
ghost use Rattle.walk.specs.States.{counts_at, Countable};
ghost use Rattle.walk.specs.Stages.{records_of, stage_two};
ghost use Rattle.walk.specs.Table.{table_of, filled};
ghost use Rattle.layers.specs.Naming.{words_before};
ghost use Rattle.layers.specs.Passing.{bases_of};
ghost use Rattle.measures.specs.Points.{first_of};
ghost use Rattle.entries.specs.Keeping.{kept_measure, Kept};
ghost use Rattle.ground.specs.Layers.{area_of_layer, areas_sum, outside_sum, measures_to};
ghost use Rattle.judge.specs.Rulebook.{late, eighth, measure_rule, layer_rule, pair_rule};
ghost use Rattle.judge.specs.Outcomes.{judged_of, table_judged, told_behind, outcome_told, outcome_of, table_after, measures_after};
ghost use Rattle.judge.specs.Outcomes.{layer_told, sums_told, sums_of, table_after_sums, outcome_of_all, table_after_all, pairs_to, sums_after};
ghost use Rattle.judge.specs.Measuring.{Measurable, kept_area, outside_at, Summable, SummableTo};

use entries::LineMeasures;
use layers::{Bases, Layer};
use verdict::{Refusal, Verdict};
use walk::{Counts, Refused};

// What is answered: a refusal's number and place, or 0 at 0, 0; the file's meshes, layers, nodes, lines,
// areas and records, 0 where it is refused; and the words that it needs where the table is too short (9),
// 0 elsewhere. It is C's layout, so it is no `Result`; nor are the sums below.
#[repr(C)]
#[derive(Clone, Copy)]
pub struct Outcome {
    pub number: u32,
    pub place: u32,
    pub column: u32,
    pub meshes: u32,
    pub layers: u32,
    pub nodes: u32,
    pub lines: u32,
    pub areas: u32,
    pub records: u32,
    pub need: u64,
}

// What is answered for a layer: a refusal's number and place, or 0 at 0, 0; the sum of the areas'
// measures, and the outside sum.
#[repr(C)]
#[derive(Clone, Copy)]
pub struct Sums {
    pub number: u32,
    pub place: u32,
    pub column: u32,
    pub areas: i64,
    pub outside: i64,
}

// ---- the stages

// Where the lines and the areas begin in the table of a file with these counts.
fn bases_of(c: Counts) -> Bases
    requires { (c.layers ≤ 6399936) × (c.lines ≤ 6399936) }
    ensures { result ≡ bases_of c }
{
    let rows = walk::ROW_LENGTH * c.layers;
    Bases {
        lines: rows as u32,
        areas: (rows + c.lines) as u32,
    }
}

// Stages 3 to 6 of a file that keeps the rules up to refusal 9; `table` is its table.
fn judge_late(file: &[u8], table: &[u32], c: Counts) -> Verdict
    requires { (table.now ≡ table_of file.now) × (c ≡ counts_at file.now (records_of file.now)) × (first_broken (stage_two file.now) ≡ Fine) }
    ensures { result ≡ first_broken (late file.now) }
{
    let b = bases_of(c);
    totals::stage_three(file)?;
    links::stage_four(file, table, b)?;
    loops::stage_five(file, table, b)?;
    sides::stage_six(file, table, b)
}

// All stages: the counts, or the refusal. The table is left in the first words of `table`, and refused with 1 to 9
// `table` is left as it was.
fn judge_file(file: &[u8], table: &mut [u32]) -> Result<Counts, Refused>
    ensures { (result ≡ judged_of file.now (length table.old)) × (table.new ≡ table_judged file.now table.old) }
{
    let counts = walk::fill_table(file, table)?;
    judge_late(file, &table[..counts.words], counts)?;
    Ok(counts)
}

// What a call asks behind all stages: what is not `kept` is refused with `number`, at no place.
fn asked(number: u32, kept: bool) -> Verdict
    ensures { result ≡ first_broken (block eighth 0 (check 0 number kept ∷ [])) }
{
    if kept {
        return Ok(());
    }
    Err(Refusal {
        number,
        place: 0,
        column: 0,
    })
}

// ---- measures

// The measure of the area whose A is record `a`, the sum of its loops', by the line measures `kept` of its
// layer.
fn area_measure(file: &[u8], l: Layer, kept: &LineMeasures, a: usize) -> i64
    requires { (a ≤ 4294967295) × Measurable file.now (kept_measure l kept.now) a }
    ensures { result ≡ kept_area file.now l kept.now a }
{
    let mut sum: i64 = 0;
    let mut f = a + 1;
    for _ in 0..entries::loops_at(file, a) {
        sum += kept.loop_measure(file, l, f);
        f += entries::loop_records(file, f);
    }
    sum
}

// The measures of a layer's areas, from place `at` on.
fn fill_layer(
    file: &[u8],
    table: &[u32],
    l: Layer,
    kept: &LineMeasures,
    at: usize,
    measures: &mut [i64],
)
    requires { (at + l.areas ≤ length measures.old) × Kept file.now table.now l kept.now × Summable file.now table.now l }
    ensures { measures.new ≡ sets measures.old at (first_of (λ a. area_of_layer file.now table.now l (suc a)) l.areas) }
{
    for a in 0..l.areas as usize {
        measures[at + a] = area_measure(file, l, kept, layers::area_word(table, l, a));
    }
}

// The measures of all areas of the first `n` layers, in file order.
fn fill_measures(file: &[u8], table: &[u32], b: Bases, n: usize, measures: &mut [i64])
    requires { SummableTo file.now table.now b n × (words_before table.now areas_word n ≤ length measures.old) }
    ensures { measures.new ≡ filled (measures_to file.now table.now b n) measures.old }
{
    let mut kept = LineMeasures::none();
    let mut at: usize = 0;
    for i in 0..n {
        let l = layers::layer_in(table, b, i);
        kept.keep(file, table, l);
        fill_layer(file, table, l, &kept, at, measures);
        at += l.areas as usize;
    }
}

// The sum of a layer's areas' measures.
fn areas_sum(file: &[u8], table: &[u32], l: Layer, kept: &LineMeasures) -> i64
    requires { Kept file.now table.now l kept.now × Summable file.now table.now l }
    ensures { result ≡ areas_sum file.now table.now l }
{
    let mut sum: i64 = 0;
    for a in 0..l.areas as usize {
        sum += area_measure(file, l, kept, layers::area_word(table, l, a));
    }
    sum
}

// What line `n` adds to the outside sum: its measure, where only its left area is 0; taken away, where
// only its right one is.
fn outside_at(file: &[u8], table: &[u32], l: Layer, kept: &LineMeasures, n: usize) -> i64
    requires { (n ≤ 9999) × Kept file.now table.now l kept.now }
    ensures { result ≡ outside_at file.now table.now l n }
{
    let v = n as i32;
    let r = layers::line_of(table, l, v);
    let left = permitted::is_zero(records::value_at(file, r, records::LEFT_AREA));
    let right = permitted::is_zero(records::value_at(file, r, records::RIGHT_AREA));
    match (left, right) {
        (true, false) => kept.line_measure(l, v),
        (false, true) => -kept.line_measure(l, v),
        _ => 0,
    }
}

// A layer's outside sum.
fn outside_sum(file: &[u8], table: &[u32], l: Layer, kept: &LineMeasures) -> i64
    requires { Kept file.now table.now l kept.now × Summable file.now table.now l }
    ensures { result ≡ outside_sum file.now table.now l }
{
    let mut sum: i64 = 0;
    for i in 0..l.lines as usize {
        sum += outside_at(file, table, l, kept, i + 1);
    }
    sum
}

// The sum of a layer's areas' measures, and its outside sum; `table` is the table of an accepted file. What
// `kept` held doesn't matter.
fn sums_in(file: &[u8], table: &[u32], l: Layer, kept: &mut LineMeasures) -> (i64, i64)
    requires { Summable file.now table.now l }
    ensures { result ≡ (areas_sum file.now table.now l, outside_sum file.now table.now l) }
{
    kept.keep(file, table, l);
    (
        areas_sum(file, table, l, kept),
        outside_sum(file, table, l, kept),
    )
}

// The two sums of each of the first `n` layers, in file order.
fn fill_sums(file: &[u8], table: &[u32], b: Bases, n: usize, sums: &mut [i64])
    requires { SummableTo file.now table.now b n × (2 * n ≤ length sums.old) }
    ensures { sums.new ≡ filled (pairs_to file.now table.now b n) sums.old }
{
    let mut kept = LineMeasures::none();
    for i in 0..n {
        let (areas, outside) = sums_in(file, table, layers::layer_in(table, b, i), &mut kept);
        sums[2 * i] = areas;
        sums[2 * i + 1] = outside;
    }
}

// ---- the calls

// What a call answers: the counts and records of acceptance, or the refusal by its number, with the need
// where it is told. How large the counts are is kept as a clause, as in `walk`: it grows with each record, so it is no
// invariant of `Counts`.
fn outcome_of(file: &[u8], judged: Result<Counts, Refused>) -> Outcome
    requires { IfOk judged Countable }
    ensures { result ≡ outcome_told judged (records_of file.now) }
{
    match judged {
        Ok(c) => Outcome {
            number: 0,
            place: 0,
            column: 0,
            meshes: c.meshes as u32,
            layers: c.layers as u32,
            nodes: c.nodes as u32,
            lines: c.lines as u32,
            areas: c.areas as u32,
            records: walk::records_of(file) as u32,
            need: 0,
        },
        Err(r) => Outcome {
            number: r.refusal.number,
            place: r.refusal.place,
            column: r.refusal.column,
            meshes: 0,
            layers: 0,
            nodes: 0,
            lines: 0,
            areas: 0,
            records: 0,
            need: r.counts.words as u64,
        },
    }
}

// Judges a file, asks for a place for each measure, and fills them in.
fn judge_measures(file: &[u8], table: &mut [u32], measures: &mut [i64]) -> Result<Counts, Refused>
    ensures told { result ≡ told_behind file.now (length table.old) (measure_rule (length measures.old)) }
    ensures table { table.new ≡ table_after file.now (length measures.old) table.old }
    ensures measures { measures.new ≡ measures_after file.now (length table.old) measures.old }
{
    let counts = judge_file(file, table)?;
    asked(19, counts.areas <= measures.len())?;
    fill_measures(
        file,
        &table[..counts.words],
        bases_of(counts),
        counts.layers,
        measures,
    );
    Ok(counts)
}

// Judges a file, and leaves its table in the first words of `table` and its areas' measures in the first
// places of `measures`. Refused with 1 to 9, it leaves `table` as it was; refused at all, `measures`.
pub fn load(file: &[u8], table: &mut [u32], measures: &mut [i64]) -> Outcome
    ensures { (result ≡ outcome_of file.now (length table.old) (length measures.old)) × (table.new ≡ table_after file.now (length measures.old) table.old) × (measures.new ≡ measures_after file.now (length table.old) measures.old) }
{
    outcome_of(file, judge_measures(file, table, measures))
}

// What the layer sums answer: the two sums, or the refusal by its number and two sums of 0.
fn sums_of(judged: Result<(i64, i64), Refused>) -> Sums
    ensures { result ≡ sums_told judged }
{
    match judged {
        Ok((areas, outside)) => Sums {
            number: 0,
            place: 0,
            column: 0,
            areas,
            outside,
        },
        Err(Refused { refusal, .. }) => Sums {
            number: refusal.number,
            place: refusal.place,
            column: refusal.column,
            areas: 0,
            outside: 0,
        },
    }
}

// Judges a file, asks for layer number `layer`, and adds up its two sums.
fn judge_layer(file: &[u8], table: &mut [u32], layer: u32) -> Result<(i64, i64), Refused>
    ensures told { result ≡ layer_told (told_behind file.now (length table.old) (layer_rule layer)) file.now layer }
    ensures table { table.new ≡ table_after_sums file.now layer table.old }
{
    let counts = judge_file(file, table)?;
    let i = layer as usize;
    asked(22, 1 <= i && i <= counts.layers)?;
    let mut kept = LineMeasures::none();
    let words = &table[..counts.words];
    let l = layers::layer_in(words, bases_of(counts), i - 1);
    Ok(sums_in(file, words, l, &mut kept))
}

// Judges a file and gives the two sums of layer number `layer`, 1 being the file's first: the sum of its
// areas' measures and the outside sum. They are 0 where the call is refused, with 22 where there is no
// such layer. `table` is left as `load` leaves it.
pub fn layer_sums(file: &[u8], table: &mut [u32], layer: u32) -> Sums
    ensures { (result ≡ sums_of file.now (length table.old) layer) × (table.new ≡ table_after_sums file.now layer table.old) }
{
    sums_of(judge_layer(file, table, layer))
}

// Judges a file, asks for two places for each layer, and fills the sums in. Kept beside `judge_measures`: each
// promises a buffer of its own.
fn judge_sums(file: &[u8], table: &mut [u32], sums: &mut [i64]) -> Result<Counts, Refused>
    ensures told { result ≡ told_behind file.now (length table.old) (pair_rule (length sums.old)) }
    ensures table { table.new ≡ table_after_all file.now (length sums.old) table.old }
    ensures sums { sums.new ≡ sums_after file.now (length table.old) sums.old }
{
    let counts = judge_file(file, table)?;
    asked(48, 2 * counts.layers <= sums.len())?;
    fill_sums(
        file,
        &table[..counts.words],
        bases_of(counts),
        counts.layers,
        sums,
    );
    Ok(counts)
}

// Judges a file once for all of its layers, and leaves the two sums of each, in file order, in the first
// places of `sums`. Refused, with 48 where there are fewer than two places a layer, it leaves `sums` as it
// was. `table` is left as `load` leaves it.
pub fn all_sums(file: &[u8], table: &mut [u32], sums: &mut [i64]) -> Outcome
    ensures { (result ≡ outcome_of_all file.now (length table.old) (length sums.old)) × (table.new ≡ table_after_all file.now (length sums.old) table.old) × (sums.new ≡ sums_after file.now (length table.old) sums.old) }
{
    outcome_of(file, judge_sums(file, table, sums))
}
