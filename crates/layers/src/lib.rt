// What a number names (RULES 2.7, 6.7): the layers of a table (RULES 8.1), and the records of their
// nodes, lines and areas. Every public function takes every input.
//
// The contracts cite `specs/`: `Naming` says what a number names, `Passing` the layer of a record, `Standing`
// where a walk over the records stands.
#![tactic(auto)]

ghost use Rattle.std.specs.Prelude.{◌≡◌, List, ℕ, ◌+◌, ◌*◌, ◌≤◌, ◌<◌, get_or};
ghost use Rattle.walk.specs.Row.{row_length};
ghost use Rattle.layers.specs.Naming.{row_word, words_before, layer_in, names, names_line, node_of, line_of, area_of};
ghost use Rattle.layers.specs.Passing.{is_layer};
ghost use Rattle.layers.specs.Standing.{standing_at, Goes, quiet_in, past_by};

use rules::Due;
use walk::State;

// Where the lines and the areas of all layers begin in the table: any two numbers of a caller. They are kept in 32
// bits, beside the indices of the same name in `walk`, so that no sum with them is too large.
#[derive(Clone, Copy)]
pub struct Bases {
    pub lines: u32,
    pub areas: u32,
}

// A layer: its H record; how many nodes, lines and areas it has; and where the words of its first line
// and of its first area stand in the table.
#[derive(Clone, Copy, Default)]
pub struct Layer {
    pub head: u32,
    pub nodes: u32,
    pub lines: u32,
    pub areas: u32,
    pub line: usize,
    pub area: usize,
}

// Word `j` of row `i` of a table, and 0 where there is none.
fn row_word(table: &[u32], i: usize, j: usize) -> u32
    requires { (i ≤ 6399936) × (j < row_length) }
    ensures { result ≡ row_word table.now i j }
{
    table.get(walk::ROW_LENGTH * i + j).copied().unwrap_or(0)
}

// Word `j` of the rows before row `i`, added up.
#[tactic(auto, unfolding(crate::specs::Naming::words_before))]
fn words_before(table: &[u32], j: usize, i: usize) -> usize
    requires { (i ≤ 6399936) × (j < row_length) }
    ensures { (result ≡ words_before table.now j i) × (result ≤ 4294967296 * i) }
{
    let mut sum: usize = 0;
    for k in 0..i {
        sum += row_word(table, k, j) as usize;
    }
    sum
}

// Layer `i` of a table, counted from 0.
#[tactic(auto, unfolding(crate::specs::Naming::layer_in))]
pub fn layer_in(table: &[u32], b: Bases, i: usize) -> Layer
    ensures { result ≡ layer_in table.now b i }
{
    if 6399936 < i {
        return Layer::default();
    }
    Layer {
        head: row_word(table, i, walk::HEAD_WORD),
        nodes: row_word(table, i, walk::NODES_WORD),
        lines: row_word(table, i, walk::LINES_WORD),
        areas: row_word(table, i, walk::AREAS_WORD),
        line: b.lines as usize + words_before(table, walk::LINES_WORD, i),
        area: b.areas as usize + words_before(table, walk::AREAS_WORD, i),
    }
}

// Whether a number is one of the serials 1 to `n`.
#[tactic(auto, unfolding(crate::specs::Naming::names))]
pub fn names(n: u32, v: i32) -> bool
    ensures { result ≡ names n v }
{
    permitted::within(v, 1, n as usize)
}

// Whether an entry, +n or -n, names one of the lines 1 to `n`.
#[tactic(auto, unfolding(crate::specs::Naming::names_line))]
pub fn names_line(n: u32, v: i32) -> bool
    ensures { result ≡ names_line n v }
{
    let s = permitted::size(v);
    1 <= s && s <= n as usize
}

// The N record that a number names in a layer; 0 where it names nothing.
#[tactic(auto, unfolding(crate::specs::Naming::node_of))]
pub fn node_of(l: Layer, v: i32) -> usize
    ensures { result ≡ node_of l v }
{
    if names(l.nodes, v) {
        return l.head as usize + permitted::size(v);
    }
    0
}

// Word `at + i` of a table, and 0 where there is none.
fn word_in(table: &[u32], at: usize, i: usize) -> u32
    ensures { result ≡ get_or table.now (at + i) 0 }
{
    table.get(at..).unwrap_or(&[]).get(i).copied().unwrap_or(0)
}

// The L record that an entry names in a layer; 0 where it names nothing.
#[tactic(auto, unfolding(crate::specs::Naming::line_of, crate::specs::Naming::names_line))]
pub fn line_of(table: &[u32], l: Layer, v: i32) -> usize
    ensures { result ≡ line_of table.now l v }
{
    if names_line(l.lines, v) {
        return word_in(table, l.line, permitted::size(v) - 1) as usize;
    }
    0
}

// The A record that a number names in a layer; 0 where it names nothing.
#[tactic(auto, unfolding(crate::specs::Naming::area_of, crate::specs::Naming::names, permitted::specs::Permitted::within))]
pub fn area_of(table: &[u32], l: Layer, v: i32) -> usize
    ensures { result ≡ area_of table.now l v }
{
    if names(l.areas, v) {
        return word_in(table, l.area, permitted::size(v) - 1) as usize;
    }
    0
}

// The L record of line `i` of a layer, counted from 0; 0 where the table has none.
pub fn line_word(table: &[u32], l: Layer, i: usize) -> usize
    ensures { result ≡ get_or table.now (l.line + i) 0 }
{
    word_in(table, l.line, i) as usize
}

// The A record of area `i` of a layer, counted from 0; 0 where the table has none.
pub fn area_word(table: &[u32], l: Layer, i: usize) -> usize
    ensures { (result ≡ get_or table.now (l.area + i) 0) × (result ≤ 4294967295) }
{
    word_in(table, l.area, i) as usize
}

// ---- from record to record

// Whether an H is due.
pub fn is_layer(d: Due) -> bool
    ensures { result ≡ is_layer d }
{
    matches!(d, Due::Layer(_))
}

// Where a walk stands behind its first `records` records: the state; how many layers came; and the layer
// in which the numbers of the next record name records.
#[derive(Clone, Copy)]
pub struct Standing {
    pub state: State,
    pub rows: usize,
    pub layer: Layer,
    pub records: usize,
}

// Before the first record.
pub fn at_first(table: &[u32], b: Bases) -> Standing
    ensures { (file : List ℕ) → result ≡ standing_at file table.now b 0 }
{
    Standing {
        state: walk::at_start(),
        rows: 0,
        layer: layer_in(table, b, 0),
        records: 0,
    }
}

// Behind the next record, if the file has one: behind an H in another layer.
pub fn behind(file: &[u8], table: &[u32], b: Bases, x: Standing) -> Standing
    ensures { Goes file.now table.now b x result }
{
    let n = walk::records_of(file);
    if n <= x.records || n <= x.rows {
        return x;
    }
    let state = walk::next(x.state, records::record_view(file, x.records + 1));
    if is_layer(walk::due(x.state)) {
        return Standing {
            state,
            rows: x.rows + 1,
            layer: layer_in(table, b, x.rows),
            records: x.records + 1,
        };
    }
    Standing {
        state,
        records: x.records + 1,
        ..x
    }
}

// Behind the quiet records that come next: those that the file has, and no more than `most`.
pub fn past_quiet(file: &[u8], x: Standing, most: usize) -> Standing
    ensures { result ≡ past_by x (quiet_in file.now most x) }
{
    let left = walk::records_of(file).saturating_sub(x.records);
    let p = walk::pass_quiet(x.state, most.min(left));
    Standing {
        state: p.state,
        records: x.records + p.records,
        ..x
    }
}
