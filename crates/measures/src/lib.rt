// Measures of lines (RULES 7.1): i64 sums of signed cross products over the coordinate
// records of a file. Every public function takes every file and every record number.
//
// The contracts cite `specs/`: `Measures` says what a line's, a loop's and an area's measure is,
// `Points` which points a line of a file has, `Sound` which lines the code measures so.
#![tactic(auto)]

ghost use Rattle.std.specs.Prelude.{◌≡◌, ◌≤◌};
ghost use Rattle.measures.specs.Points.{pair_by, point_count, measure_by};
ghost use Rattle.measures.specs.Walks.{Small, Near, far, step_to, walk_along};
ghost use Rattle.measures.specs.Sound.{added_up};

// A walk along points: the sum so far, and the point where it stands.
#[derive(Clone, Copy)]
struct Walk {
    sum: i64,
    x: i64,
    y: i64,
}

// The coordinate that starts at a column, read without a test of a byte: it is 166665 at most.
#[tactic(auto, unfolding(crate::specs::Sound::added_up))]
fn coordinate(s: &[u8], column: usize) -> i64
    ensures { result ≡ added_up s.now column }
{
    i64::from(glances::sum_of_five(s, column))
}

// One step (RULES 7.1): x2*y1 - x1*y2 from where the walk stands.
fn step(w: Walk, x: i64, y: i64) -> Walk
    requires { (Near far 1000000000000000000 w) × (Small far x) × (Small far y) }
    ensures { result ≡ step_to w (record { x = x; y = y }) }
{
    Walk {
        sum: w.sum + (x * w.y - w.x * y),
        x,
        y,
    }
}

// On along the first `count` points of a coordinate record.
fn walk_record(s: &[u8], count: usize, w: Walk) -> Walk
    requires { (count ≤ 7) × (Near far 900000000000000000 w) }
    ensures { result ≡ walk_along w (pair_by added_up s.now) count }
{
    let mut at = w;
    for i in 0..count {
        let x = coordinate(s, records::slot_column(records::POINTS_X, i));
        let y = coordinate(s, records::slot_column(records::POINTS_Y, i));
        at = step(at, x, y);
    }
    at
}

// How many points the L at record `line` counts; 0 where it is no L or counts below 0.
fn point_count(file: &[u8], line: usize) -> usize
    ensures { (result ≡ point_count file.now line) × (result ≤ 999999) }
{
    usize::try_from(records::value_at(file, line, records::LINE_POINTS)).unwrap_or(0)
}

// The line whose L is record `line`, measured without a test of a byte: its measure, where its coordinates
// are well formed and permitted.
pub fn line_measure(file: &[u8], line: usize) -> i64
    ensures { result ≡ measure_by added_up file.now line }
{
    if file.len() / 74 < line {
        return 0;
    }
    let mut left = point_count(file, line);
    let mut k = line;
    let mut w = Walk { sum: 0, x: 0, y: 0 };
    // what is left falls by a record's part, so no range counts the turns
    while 0 < left {
        k += 1;
        let part = left.min(7);
        w = walk_record(records::record_view(file, k), part, w);
        left -= part;
    }
    w.sum
}
