// The walk over a file's records (RULES 2), stages 1 and 2, the words that a file needs,
// and its table. Every public function takes every file and every buffer.
//
// The contracts cite `specs/`: `States` says what is due at each record, `Stages` has the rules up to
// refusal 9 in the order of judgement, `Table` what the table is.
#![tactic(auto)]

ghost use Rattle.std.specs.Prelude.{◌≡◌, ◌+◌, ◌-◌, ◌*◌, ◌/◌, ◌≤◌, ◌<◌, min, length};
ghost use Rattle.std.proofs.lemmas.List.Edits.{sets};
ghost use Rattle.verdict.specs.Rules.{Broken, first_broken, block};
ghost use Rattle.walk.specs.States.{size_in, due_of, start, layer_part, meshed, headed, next_of, no_counts, Countable, counted_for, counts_at};
ghost use Rattle.walk.specs.Row.{row_length, row_of};
ghost use Rattle.walk.specs.Stages.{records_of, end_checks, length_checks, stage_one, last_checks, stage_two, walked_by, walked_of, need_of, early};
ghost use Rattle.walk.specs.Table.{table_of, filled, filled_by, tabled_of};
ghost use Rattle.walk.specs.Storing.{stored_at, record_words, Roomy};
ghost use Rattle.walk.specs.Quiet.{passed, quiet_ahead, counted_past, fine_ahead};

use records::Columns;
use rules::Due;
use verdict::{Refusal, Verdict};

// A row (RULES 8.1): how many words it has, and which word is what.
pub const ROW_LENGTH: usize = 5;

pub const HEAD_WORD: usize = 0;

pub const NODES_WORD: usize = 1;

pub const LINES_WORD: usize = 2;

pub const AREAS_WORD: usize = 3;

pub const LETTERS_WORD: usize = 4;

// The mesh that the walk is in: its code, and how many of its layers have not begun.
#[derive(Clone, Copy, Default)]
pub struct MeshPart {
    pub code: usize,
    pub layers: usize,
}

// The layer: its code, its totals, how many of each came, and its letters.
#[derive(Clone, Copy, Default)]
pub struct LayerPart {
    pub code: usize,
    pub nodes: usize,
    pub node: usize,
    pub lines: usize,
    pub line: usize,
    pub areas: usize,
    pub area: usize,
    pub letters: u32,
}

// The line: how many of its points are left.
#[derive(Clone, Copy, Default)]
pub struct LinePart {
    pub points: usize,
}

// The area: its loops, how many of them were begun, and the last one's line count and entries left.
#[derive(Clone, Copy, Default)]
pub struct AreaPart {
    pub loops: usize,
    pub begun: usize,
    pub count: usize,
    pub entries: usize,
}

// Where the walk stands.
#[derive(Clone, Copy, Default)]
pub struct State {
    pub mesh: MeshPart,
    pub layer: LayerPart,
    pub line: LinePart,
    pub area: AreaPart,
}

// What the records were, and the words that the layers among them need.
#[derive(Clone, Copy, Default)]
pub struct Counts {
    pub meshes: usize,
    pub layers: usize,
    pub nodes: usize,
    pub lines: usize,
    pub areas: usize,
    pub words: usize,
}

// What stages 1 and 2 and refusal 9 refuse: the refusal, and the counts of the file, its need among them, where the
// table is too short (9), else 0.
#[derive(Clone, Copy)]
pub struct Refused {
    pub refusal: Refusal,
    pub counts: Counts,
}

impl From<Refusal> for Refused {
    ghost from_gives = { λ r x. x ≡ record { refusal = r; counts = no_counts } };

    fn from(refusal: Refusal) -> Refused {
        Refused {
            refusal,
            counts: Counts::default(),
        }
    }
}

// ---- the walk

// The number in these columns of a record, without its sign; 0 where there is none.
pub fn size_at(t: &[u8], c: Columns) -> usize
    ensures { (result ≡ size_in t.now c.0 c.1) × (result ≤ 999999) }
{
    match numerals::read_number(t, c.0, c.1) {
        Some(v) => permitted::size(v),
        None => 0,
    }
}

// What is due.
#[tactic(auto, unfolding(crate::specs::States::due_of))]
pub fn due(s: State) -> Due
    ensures { result ≡ due_of s }
{
    if 0 < s.line.points {
        return Due::Coordinates(s.line.points);
    }
    if 0 < s.area.entries {
        return Due::Loop(s.area.begun, s.area.count, s.area.entries);
    }
    if s.area.begun < s.area.loops {
        return Due::Loop(s.area.begun, s.area.count, 0);
    }
    if s.layer.node < s.layer.nodes {
        return Due::Node(s.layer.code, s.layer.node);
    }
    if s.layer.line < s.layer.lines {
        return Due::Line(s.layer.code, s.layer.line, s.layer.letters);
    }
    if s.layer.area < s.layer.areas {
        return Due::Area(s.layer.code, s.layer.area);
    }
    if 0 < s.mesh.layers {
        return Due::Layer(s.layer.code);
    }
    Due::Mesh(s.mesh.code)
}

// Before the first record.
pub fn at_start() -> State
    ensures { result ≡ start }
{
    State::default()
}

// The state behind an M.
fn behind_mesh(t: &[u8]) -> State
    ensures { result ≡ meshed t.now }
{
    State {
        mesh: MeshPart {
            code: size_at(t, records::MESH_CODE),
            layers: size_at(t, records::MESH_LAYERS),
        },
        ..at_start()
    }
}

// The layer behind its H.
fn layer_part(t: &[u8]) -> LayerPart
    ensures { result ≡ layer_part t.now }
{
    LayerPart {
        code: size_at(t, records::LAYER_CODE),
        nodes: size_at(t, records::LAYER_NODES),
        lines: size_at(t, records::LAYER_LINES),
        areas: size_at(t, records::LAYER_AREAS),
        letters: records::head_letters(t),
        ..LayerPart::default()
    }
}

// The state behind an H.
fn behind_layer(s: State, t: &[u8]) -> State
    ensures { result ≡ headed s t.now }
{
    State {
        mesh: MeshPart {
            layers: s.mesh.layers.saturating_sub(1),
            ..s.mesh
        },
        layer: layer_part(t),
        ..at_start()
    }
}

// The state behind the record `t`: each replaces a part.
#[tactic(auto, using(crate::proofs::Walking::next_entries), unfolding(crate::specs::States::next_of, crate::specs::States::due_of))]
pub fn next(s: State, t: &[u8]) -> State
    ensures { result ≡ next_of s t.now }
{
    if 0 < s.line.points {
        return State {
            line: LinePart {
                points: s.line.points.saturating_sub(7),
            },
            ..s
        };
    }
    if 0 < s.area.entries {
        return State {
            area: AreaPart {
                entries: s.area.entries.saturating_sub(12),
                ..s.area
            },
            ..s
        };
    }
    if s.area.begun < s.area.loops {
        let count = size_at(t, records::LOOP_COUNT);
        return State {
            area: AreaPart {
                begun: s.area.begun + 1,
                count,
                entries: count.saturating_sub(12),
                ..s.area
            },
            ..s
        };
    }
    if s.layer.node < s.layer.nodes {
        return State {
            layer: LayerPart {
                node: s.layer.node + 1,
                ..s.layer
            },
            ..s
        };
    }
    if s.layer.line < s.layer.lines {
        return State {
            layer: LayerPart {
                line: s.layer.line + 1,
                ..s.layer
            },
            line: LinePart {
                points: size_at(t, records::LINE_POINTS),
            },
            ..s
        };
    }
    if s.layer.area < s.layer.areas {
        return State {
            layer: LayerPart {
                area: s.layer.area + 1,
                ..s.layer
            },
            area: AreaPart {
                loops: size_at(t, records::AREA_LOOPS),
                ..AreaPart::default()
            },
            ..s
        };
    }
    if 0 < s.mesh.layers {
        return behind_layer(s, t);
    }
    behind_mesh(t)
}

// ---- quiet records

// A state behind some records, and how many they were.
#[derive(Clone, Copy)]
pub struct Pass {
    pub state: State,
    pub records: usize,
}

// Passes the coordinate records of the points that are left: no more than `most`.
fn pass_points(s: State, most: usize) -> Pass
    requires { 0 < s.line.points }
    ensures { (result.records ≡ min most ((s.line.points - 1) / 7 + 1)) × (result.state ≡ passed s result.records) }
{
    let all = (s.line.points - 1) / 7 + 1;
    if most < all {
        let line = LinePart {
            points: s.line.points - 7 * most,
        };
        return Pass {
            state: State { line, ..s },
            records: most,
        };
    }
    let line = LinePart { points: 0 };
    Pass {
        state: State { line, ..s },
        records: all,
    }
}

// Passes the nodes that are left: no more than `most`.
fn pass_nodes(s: State, most: usize) -> Pass
    requires { s.line.points ≤ 0 }
    ensures { (result.records ≡ min most (s.layer.nodes - s.layer.node)) × (result.state ≡ passed s result.records) }
{
    let records = s.layer.nodes.saturating_sub(s.layer.node).min(most);
    let layer = LayerPart {
        node: s.layer.node + records,
        ..s.layer
    };
    Pass {
        state: State { layer, ..s },
        records,
    }
}

// Passes the coordinate records that come next, or else the nodes, in one step: all of them, and no more
// than `most`.
#[tactic(auto, unfolding(crate::specs::Quiet::quiet_ahead))]
pub fn pass_quiet(s: State, most: usize) -> Pass
    ensures { (result.records ≡ min most (quiet_ahead s)) × (result.state ≡ passed s result.records) }
{
    if 0 < s.line.points {
        return pass_points(s, most);
    }
    if 0 < s.area.entries || s.area.begun < s.area.loops {
        return Pass {
            state: s,
            records: 0,
        };
    }
    pass_nodes(s, most)
}

// ---- stage 1

// How many records are judged: those that there are, and no more than there may be.
#[tactic(auto, using(std::proofs::lemmas::Bool::Decides::nat_tests), unfolding(crate::specs::Stages::records_of))]
pub fn records_of(file: &[u8]) -> usize
    ensures { (result ≡ records_of file.now) × (result ≤ 6399936) }
{
    (file.len() / 74).min(6399936)
}

// The line end of a record.
#[tactic(auto, unfolding(crate::specs::Stages::end_checks, verdict::specs::Rules::first_broken, verdict::specs::Rules::block))]
fn judge_end(t: &[u8], row: u32) -> Verdict
    ensures { result ≡ first_broken (block 1 row (end_checks t.now)) }
{
    if rules::byte_at(t, 72) != b'\r' {
        return Err(Refusal {
            number: 2,
            place: row,
            column: 73,
        });
    }
    if rules::byte_at(t, 73) != b'\n' {
        return Err(Refusal {
            number: 2,
            place: row,
            column: 74,
        });
    }
    Ok(())
}

// The length of a file; `row` is the record behind the last that is judged.
#[tactic(auto, unfolding(crate::specs::Stages::length_checks, verdict::specs::Rules::first_broken, verdict::specs::Rules::block))]
fn judge_length(n: usize, row: u32) -> Verdict
    ensures { result ≡ first_broken (block 1 row (length_checks n)) }
{
    let whole = n / 74;
    if 1 <= whole && whole <= 6399936 && n % 74 == 0 {
        return Ok(());
    }
    Err(Refusal {
        number: 1,
        place: row,
        column: 1,
    })
}

// Stage 1: every line end, then the length.
fn stage_one(file: &[u8]) -> Verdict
    ensures { result ≡ first_broken (stage_one file.now) }
{
    let n = records_of(file);
    for k in 0..n {
        judge_end(records::record_view(file, k + 1), (k + 1) as u32)?;
    }
    judge_length(file.len(), (n + 1) as u32)
}

// ---- stage 2

// The counts with a record more.
#[tactic(auto, unfolding(crate::specs::States::layer_words))]
fn counted(c: Counts, d: Due, t: &[u8]) -> Counts
    requires { Countable c }
    ensures { result ≡ counted_for d c t.now }
{
    match d {
        Due::Mesh(_) => Counts {
            meshes: c.meshes + 1,
            ..c
        },
        Due::Layer(_) => Counts {
            layers: c.layers + 1,
            words: c.words
                + (ROW_LENGTH
                    + (size_at(t, records::LAYER_LINES) + size_at(t, records::LAYER_AREAS))),
            ..c
        },
        Due::Node(_, _) => Counts {
            nodes: c.nodes + 1,
            ..c
        },
        Due::Line(_, _, _) => Counts {
            lines: c.lines + 1,
            ..c
        },
        Due::Area(_, _) => Counts {
            areas: c.areas + 1,
            ..c
        },
        Due::Coordinates(_) | Due::Loop(_, _, _) => c,
    }
}

// The counts with `h` quiet records more, where the walk stands at `s`.
fn counted_past(c: Counts, s: State, h: usize) -> Counts
    requires { (c.nodes ≤ 6399936) × (h ≤ 6399936) }
    ensures { result ≡ counted_past c s h }
{
    if 0 < s.line.points {
        return c;
    }
    Counts {
        nodes: c.nodes + h,
        ..c
    }
}

// The end of a file where `d` is due: 4 but for a mesh.
#[tactic(auto, unfolding(crate::specs::Stages::last_checks, verdict::specs::Rules::first_broken, verdict::specs::Rules::block))]
fn judge_last(d: Due, row: u32) -> Verdict
    ensures { result ≡ first_broken (block 2 row (last_checks d)) }
{
    match d {
        Due::Mesh(_) => Ok(()),
        _ => Err(Refusal {
            number: 4,
            place: row,
            column: 1,
        }),
    }
}

// How many of the records behind the first `k` of `n`, from the first on, are coordinates that keep all
// rules, where `points` points of their line are left.
fn fine_ahead(file: &[u8], points: usize, k: usize, n: usize) -> usize
    requires { (k ≤ n) × (n ≤ 6399936) }
    ensures { result ≡ fine_ahead file.now points k (n - k) }
{
    let mut left = points;
    for i in k..n {
        if left == 0 || !quick::fine_coordinates(records::record_view(file, i + 1), left) {
            return i - k;
        }
        left = left.saturating_sub(7);
    }
    n - k
}

// Stage 2: every record by what is due, then the end of the file.
fn stage_two(file: &[u8]) -> Result<Counts, Refusal>
    ensures { result ≡ walked_by (first_broken (stage_two file.now)) (counts_at file.now (records_of file.now)) }
{
    let n = records_of(file);
    let mut s = at_start();
    let mut c = Counts::default();
    let mut k: usize = 0;
    // a quiet run is one step, so no range counts this
    while k < n {
        let t = records::record_view(file, k + 1);
        let d = due(s);
        rules::judge_record(d, t, (k + 1) as u32)?;
        c = counted(c, d, t);
        s = next(s, t);
        k += 1;
        let h = fine_ahead(file, s.line.points, k, n);
        let p = pass_quiet(s, h);
        s = p.state;
        k += p.records;
    }
    judge_last(due(s), (n + 1) as u32)?;
    Ok(c)
}

// Stages 1 and 2.
pub fn walk_file(file: &[u8]) -> Result<Counts, Refusal>
    ensures { result ≡ walked_of file.now }
{
    stage_one(file)?;
    stage_two(file)
}

// ---- the table

// The words of a row, from `at` on.
fn put_row(
    table: &mut [u32],
    at: usize,
    h: u32,
    nodes: usize,
    lines: usize,
    areas: usize,
    letters: u32,
)
    requires row_length_in_bounds { at + row_length ≤ length table.old }
    requires nodes_bound { (nodes ≤ 999999) × (lines ≤ 999999) × (areas ≤ 999999) }
    ensures { table.new ≡ sets table.old at (row_of h nodes lines areas letters) }
{
    table[at + HEAD_WORD] = h;
    table[at + NODES_WORD] = nodes as u32;
    table[at + LINES_WORD] = lines as u32;
    table[at + AREAS_WORD] = areas as u32;
    table[at + LETTERS_WORD] = letters;
}

// Where the sections of the table begin: the lines' and the areas'. The rows' is 0.
#[derive(Clone, Copy)]
struct Bases {
    lines: usize,
    areas: usize,
}

// The words that the record `t` gives, due as `d`, behind the counts `c`.
fn put_record(table: &mut [u32], d: Due, t: &[u8], row: u32, c: Counts, b: Bases)
    requires { Roomy d c b (length table.old) }
    ensures { table.new ≡ sets table.old (stored_at d c b) (record_words d t.now row) }
{
    match d {
        Due::Layer(_) => put_row(
            table,
            ROW_LENGTH * c.layers,
            row,
            size_at(t, records::LAYER_NODES),
            size_at(t, records::LAYER_LINES),
            size_at(t, records::LAYER_AREAS),
            records::head_letters(t),
        ),
        Due::Line(_, _, _) => {
            table[b.lines + c.lines] = row;
        }
        Due::Area(_, _) => {
            table[b.areas + c.areas] = row;
        }
        _ => {}
    }
}

// Fills the table of a file whose records count up to `total`: the rest of the buffer stays as it was.
fn fill(file: &[u8], total: Counts, table: &mut [u32])
    requires total_value { total ≡ counts_at file.now (records_of file.now) }
    requires areas_in_bounds { row_length * total.layers + (total.lines + total.areas) ≤ length table.old }
    ensures { table.new ≡ filled (table_of file.now) table.old }
{
    let n = records_of(file);
    let rows = ROW_LENGTH * total.layers;
    let b = Bases {
        lines: rows,
        areas: rows + total.lines,
    };
    let mut s = at_start();
    let mut c = Counts::default();
    let mut k: usize = 0;
    // a quiet run is one step, so no range counts this
    while k < n {
        let t = records::record_view(file, k + 1);
        let d = due(s);
        put_record(table, d, t, (k + 1) as u32, c, b);
        c = counted(c, d, t);
        s = next(s, t);
        k += 1;
        let p = pass_quiet(s, n - k);
        c = counted_past(c, s, p.records);
        s = p.state;
        k += p.records;
    }
}

// Stages 1 and 2, refusal 9, and then the table. The counts are told with 9 too.
pub fn fill_table(file: &[u8], table: &mut [u32]) -> Result<Counts, Refused>
    ensures { (result ≡ tabled_of file.now (length table.old)) × (table.new ≡ filled_by (first_broken (early file.now (length table.old))) file.now table.old) }
{
    let counts = walk_file(file)?;
    if table.len() < counts.words {
        return Err(Refused {
            refusal: Refusal {
                number: 9,
                place: 0,
                column: 0,
            },
            counts,
        });
    }
    fill(file, counts, table);
    Ok(counts)
}

// ---- the need

// The words that a file needs; 0 for a file refused in stage 1 or 2.
#[tactic(auto, unfolding(crate::specs::Stages::need_of))]
pub fn need(file: &[u8]) -> usize
    ensures { result ≡ need_of file.now }
{
    match walk_file(file) {
        Ok(counts) => counts.words,
        Err(_) => 0,
    }
}
