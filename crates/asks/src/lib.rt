// What stage 2 asks of each number of a record (RULES 4 and 5; refusals 6 and 8), kind by kind. Every
// public function takes every input. It is a crate between `permitted` and `rules`, so that a change
// to a row of these tables is checked without the judge of records.
//
// The contracts cite `specs/Asks`.
#![tactic(auto, unfolding(crate::specs::Asks::first_asked))]

ghost use Rattle.std.specs.Prelude.{◌≡◌, [], ◌∷◌, ltb, get_or};
ghost use Rattle.permitted.specs.Permitted.{is_slot, is_loop_serial};
ghost use Rattle.asks.specs.Asks.{fault_number, permitted, in_step, at, layer_ask, mesh_asks, layer_asks, node_asks, line_asks, coordinate_asks, area_asks, loop_asks};
ghost use Rattle.asks.specs.Asks.{loop_due, entries_due, first_asked};

use permitted::{
    at_least, follows_layer, follows_mesh, is, is_area_code, is_code, is_date, is_frame,
    is_layer_code, is_line_item, is_line_kind, is_link, is_loop_serial, is_mesh_code, is_next,
    is_node_item, is_point, is_side, is_slot, natural, of_areas, same, size, within,
};

// Why a number is refused: its value is not permitted, or it is out of step with what came before it.
#[derive(Clone, Copy, Debug, PartialEq, Eq)]
pub enum Fault {
    NotPermitted,
    OutOfStep,
}

impl Fault {
    // Its refusal number (RULES 6.2).
    pub fn number(self) -> u32
        ensures { result ≡ fault_number self }
    {
        match self {
            Fault::NotPermitted => 6,
            Fault::OutOfStep => 8,
        }
    }
}

// Whether a value is permitted.
fn permitted(ok: bool) -> Result<(), Fault>
    ensures { result ≡ first_asked (permitted ok ∷ []) }
{
    if ok { Ok(()) } else { Err(Fault::NotPermitted) }
}

// Whether it is in step.
fn in_step(ok: bool) -> Result<(), Fault>
    ensures { result ≡ first_asked (in_step ok ∷ []) }
{
    if ok { Ok(()) } else { Err(Fault::OutOfStep) }
}

// Whether it is permitted, and then whether it is in step.
fn both(ok: bool, next: bool) -> Result<(), Fault>
    ensures { result ≡ first_asked (permitted ok ∷ in_step next ∷ []) }
{
    permitted(ok)?;
    in_step(next)
}

// Number `i`, and 0 where there is none.
fn at(numbers: &[i32], i: usize) -> i32
    ensures { result ≡ at numbers.now i }
{
    numbers.get(i).copied().unwrap_or(0)
}

// The layer code of an N, L or A.
fn layer_fault(layer: usize, v: i32) -> Result<(), Fault>
    ensures { result ≡ first_asked (layer_ask layer v) }
{
    both(is_layer_code(v), is(v, layer))
}

// Number `i` of an M.
pub fn mesh_fault(last: usize, i: usize, ns: &[i32]) -> Result<(), Fault>
    ensures { result ≡ first_asked (get_or (mesh_asks last ns.now) i []) }
{
    let v = at(ns, i);
    match i {
        0 => both(is_mesh_code(v), follows_mesh(last, v)),
        1 => permitted(within(v, 1, 2)), // layers
        2 => permitted(natural(v)), // nodes
        3 => permitted(natural(v)), // lines
        4 => permitted(natural(v)), // areas
        5 => permitted(is(v, 0)), // points
        6 => permitted(natural(v)), // records
        _ => Ok(()),
    }
}

// Number `i` of an H.
pub fn head_fault(last: usize, letters: u32, i: usize, ns: &[i32]) -> Result<(), Fault>
    ensures { result ≡ first_asked (get_or (layer_asks last letters ns.now) i []) }
{
    let v = at(ns, i);
    match i {
        0 => both(is_layer_code(v), follows_layer(last, v)),
        1 => permitted(natural(v)), // nodes
        2 => permitted(within(v, 0, 9999)), // lines
        3 => permitted(of_areas(letters, v, natural(v))), // areas
        4 => permitted(is(v, 0)), // points
        5 => permitted(natural(v)), // records
        6 => permitted(is_date(v)), // first made
        7 => permitted(is_date(v)), // last changed
        _ => Ok(()),
    }
}

// A slot of a record: number `d + i`, where `count` slots are counted.
fn slot_fault(count: usize, i: usize, v: i32) -> Result<(), Fault>
    ensures { result ≡ first_asked (permitted (is_slot (ltb i count) v) ∷ []) }
{
    permitted(is_slot(i < count, v))
}

// Number `i` of an N.
pub fn node_fault(layer: usize, last: usize, i: usize, ns: &[i32]) -> Result<(), Fault>
    ensures { result ≡ first_asked (get_or (node_asks layer last ns.now) i []) }
{
    let v = at(ns, i);
    match i {
        0 => layer_fault(layer, v),
        1 => permitted(is_node_item(layer, v)),
        2 => in_step(is_next(last, v)),
        3 => permitted(within(v, 0, 10000)), // X
        4 => permitted(within(v, 0, 10000)), // Y
        5 => permitted(is_frame(at(ns, 3), at(ns, 4), v)),
        6 => permitted(within(v, 1, 9)), // count
        7..=15 => slot_fault(size(at(ns, 6)), i - 7, v),
        _ => Ok(()),
    }
}

// Number `i` of an L.
pub fn line_fault(
    layer: usize,
    last: usize,
    letters: u32,
    i: usize,
    ns: &[i32],
) -> Result<(), Fault>
    ensures { result ≡ first_asked (get_or (line_asks layer last letters ns.now) i []) }
{
    let v = at(ns, i);
    match i {
        0 => layer_fault(layer, v),
        1 => permitted(is_line_item(layer, v)),
        2 => in_step(is_next(last, v)),
        3 => permitted(is_line_kind(layer, at(ns, 1), v)),
        4 => Ok(()), // start node
        5 => permitted(is_link(v)),
        6 => Ok(()), // end node
        7 => permitted(is_link(v)),
        8 => permitted(of_areas(letters, v, is_code(layer, v))), // left
        9 => permitted(of_areas(letters, v, is_side(at(ns, 8), v))),
        10 => permitted(of_areas(letters, v, is_code(layer, v))), // right
        11 => permitted(of_areas(letters, v, is_side(at(ns, 10), v))),
        12 => permitted(at_least(v, 2)), // points
        13 => permitted(is(v, 0)),
        14 => permitted(is(v, 0)),
        _ => Ok(()),
    }
}

// Number `i` of a coordinate record.
pub fn coordinate_fault(left: usize, i: usize, ns: &[i32]) -> Result<(), Fault>
    ensures { result ≡ first_asked (get_or (coordinate_asks left ns.now) i []) }
{
    if i < 14 {
        return permitted(is_point(i / 2 < left, at(ns, i)));
    }
    Ok(())
}

// Number `i` of an A.
pub fn area_fault(layer: usize, last: usize, i: usize, ns: &[i32]) -> Result<(), Fault>
    ensures { result ≡ first_asked (get_or (area_asks layer last ns.now) i []) }
{
    let v = at(ns, i);
    match i {
        0 => layer_fault(layer, v),
        1 => permitted(is_area_code(layer, v)),
        2 => in_step(is_next(last, v)),
        3 => permitted(within(v, 0, 10000)), // X
        4 => permitted(within(v, 0, 10000)), // Y
        5 => permitted(at_least(v, 1)), // loops
        6 => permitted(at_least(v, 1)), // lines
        _ => Ok(()),
    }
}

// The serial of the loop that is due: that of loop `last` again, where entries of it are left, else the
// next one's.
fn is_loop_due(last: usize, left: usize, v: i32) -> bool
    ensures { result ≡ is_loop_serial (loop_due last left) v }
{
    if 0 < left {
        return is_loop_serial(last, v);
    }
    let n = size(v);
    if n == 0 {
        return false;
    }
    (n - 1 == last) & same(natural(v), n == 1)
}

// How many entries are left of the loop, this record's among them.
fn entries_due(count: usize, left: usize) -> usize
    ensures { result ≡ entries_due count left }
{
    if 0 < left {
        return left;
    }
    count
}

// Number `i` of a loop record.
pub fn loop_fault(last: usize, count: usize, left: usize, i: usize, ns: &[i32]) -> Result<(), Fault>
    ensures { result ≡ first_asked (get_or (loop_asks last count left ns.now) i []) }
{
    let v = at(ns, i);
    match i {
        0 => in_step(is_loop_due(last, left, v)),
        1 => both(at_least(v, 1), (left == 0) | is(v, count)),
        2..=13 => slot_fault(entries_due(size(at(ns, 1)), left), i - 2, v),
        _ => Ok(()),
    }
}
