// Stage 2 on one record (RULES 5; RULES 6.4, refusals 3, 5, 6 and 8): the first broken rule
// in column order, along the record's layout. Every public function takes every input.
//
// The contracts cite `specs/Checks`, the checks of a record in the order of judgement. What is asked of
// each number stands in `asks`, and what a permitted value is in `permitted`.
#![tactic(auto)]

ghost use Rattle.std.specs.Prelude.{◌≡◌, [], ◌≤◌, get_or, Err};
ghost use Rattle.verdict.specs.Rules.{Broken, first_broken, block};
ghost use Rattle.asks.specs.Asks.{first_asked};
ghost use Rattle.rules.specs.Checks.{kind_of, asks_of, checks_of};

use asks::Fault;
use records::{Field, Kind};
use verdict::{Refusal, Verdict};

// What is due at a place of a file, with what its rules need to know of the records before it.
#[derive(Clone, Copy)]
pub enum Due {
    Mesh(usize), // M: the mesh code before it, or 0
    Layer(usize), // H: the layer code before it in its mesh, or 0
    Node(usize, usize), // N: its layer, and how many nodes came before it
    Line(usize, usize, u32), // L: its layer, how many lines came before it, and its layer's letters
    Coordinates(usize), // how many points are left of the line
    Area(usize, usize), // A: its layer, and how many areas came before it
    Loop(usize, usize, usize), // how many loops were begun, the last one's line count, and its entries left
}

// What is asked of number `i` of a record with these letters, the numbers up to it being read.
fn judge_value(due: Due, letters: u32, i: usize, ns: &[i32]) -> Result<(), Fault>
    ensures { result ≡ first_asked (get_or (asks_of due letters ns.now) i []) }
{
    match due {
        Due::Mesh(last) => asks::mesh_fault(last, i, ns),
        Due::Layer(last) => asks::head_fault(last, letters, i, ns),
        Due::Node(layer, last) => asks::node_fault(layer, last, i, ns),
        Due::Line(layer, last, of_layer) => asks::line_fault(layer, last, of_layer, i, ns),
        Due::Coordinates(left) => asks::coordinate_fault(left, i, ns),
        Due::Area(layer, last) => asks::area_fault(layer, last, i, ns),
        Due::Loop(last, count, left) => asks::loop_fault(last, count, left, i, ns),
    }
}

// The kind of record that is due.
pub fn kind_of(due: Due) -> Kind
    ensures { result ≡ kind_of due }
{
    match due {
        Due::Mesh(_) => Kind::Mesh,
        Due::Layer(_) => Kind::Layer,
        Due::Node(_, _) => Kind::Node,
        Due::Line(_, _, _) => Kind::Line,
        Due::Coordinates(_) => Kind::Coordinates,
        Due::Area(_, _) => Kind::Area,
        Due::Loop(_, _, _) => Kind::Loop,
    }
}

// Byte `i` of a record, and 0 where there is none.
pub fn byte_at(s: &[u8], i: usize) -> u8
    ensures { result ≡ get_or s.now i 0 }
{
    s.get(i).copied().unwrap_or(0)
}

// A refusal at a column.
fn refusal(number: u32, row: u32, column: usize) -> Refusal
    requires { column ≤ 73 }
    ensures { Err result ≡ Broken number row column }
{
    Refusal {
        number,
        place: row,
        column: column as u32,
    }
}

// Stage 2 on one record: along its layout, each field's form and then what is asked of its value. `row`
// is the record's number.
pub fn judge_record(due: Due, s: &[u8], row: u32) -> Verdict
    ensures { result ≡ first_broken (block 2 row (checks_of due s.now)) }
{
    let kind = kind_of(due);
    let letters = records::letters_in(kind, s);
    let mut numbers = [0i32; 16];
    let mut n: usize = 0;
    for field in records::layout_of(kind) {
        match *field {
            Field::Letters(a, b, c) => {
                if !records::letters_right(a, b, c, byte_at(s, 0), byte_at(s, 1)) {
                    return Err(refusal(3, row, 1));
                }
            }
            Field::Number(c, w) => {
                let Some(v) = numerals::read_number(s, c, w) else {
                    return Err(refusal(5, row, c));
                };
                numbers[n] = v;
                if let Err(fault) = judge_value(due, letters, n, &numbers) {
                    return Err(refusal(fault.number(), row, c));
                }
                n += 1;
            }
            Field::Name(c, w) => {
                if !texts::read_name(s, c, w) {
                    return Err(refusal(5, row, c));
                }
            }
            Field::Blank(c, w) => {
                if !texts::read_blank(s, c, w) {
                    return Err(refusal(5, row, c));
                }
            }
            Field::Code(c, w) => {
                let Some(code) = records::read_code(s, c, w) else {
                    return Err(refusal(5, row, c));
                };
                numbers[n] = code.value;
                if let Err(fault) = judge_value(due, letters, n, &numbers) {
                    return Err(refusal(fault.number(), row, c));
                }
                n += 1;
            }
        }
    }
    Ok(())
}
