// What C calls: the C library's functions, as `include/stragumella.h` declares them. Each takes every
// input and hands it to the call below, whose contract it keeps in full; nothing is decided here but
// what a record's kind is by number.
//
// The contracts cite the definitions of the calls below, and `specs/Values.antt` for the kinds.
#![tactic(auto)]

ghost use Rattle.std.specs.Prelude.{◌≡◌, length};
ghost use Rattle.walk.specs.Stages.{need_of};
ghost use Rattle.dues.specs.Dues.{due_at};
ghost use Rattle.judge.specs.Outcomes.{outcome_of, table_after, measures_after, sums_of, table_after_sums};
ghost use Rattle.judge.specs.Outcomes.{outcome_of_all, table_after_all, sums_after};
ghost use Rattle.positions.specs.Degrees.{position_of};
ghost use Rattle.capi.specs.Values.{meant_by, kind_number, owed_number, given_value, no_kind, found_of, WrittenValue};

use judge::{Outcome, Sums};
use positions::Placed;
use records::{Kind, Record};

// A record's value with its kind as a number: 1 M, 2 H, 3 N, 4 L, 5 coordinates, 6 A, 7 loop. The marks and
// then the letters stand behind the name, as in the header.
#[repr(C)]
#[derive(Clone, Copy)]
pub struct Value {
    pub kind: u32,
    pub numbers: [i32; 16],
    pub name: [u8; 40],
    pub marks: [u32; 2],
    pub letters: u32,
}

// A record with its kind as a number.
impl From<Record> for Value {
    ghost from_gives = { λ r v. v ≡ given_value r };

    fn from(record: Record) -> Value {
        let Record {
            kind,
            numbers,
            name,
            marks,
            letters,
        } = record;
        Value {
            kind: number_of(kind),
            numbers,
            name,
            marks,
            letters,
        }
    }
}

// What reading finds: a refusal's number with its place, record and column, or 0 at 0, 0; and the
// value. It is C's layout, so it is no `Result`.
#[repr(C)]
#[derive(Clone, Copy)]
pub struct Found {
    pub number: u32,
    pub place: u32,
    pub column: u32,
    pub value: Value,
}

// ---- files

// The words that a file needs; 0 for a file refused in stage 1 or 2.
#[unsafe(no_mangle)]
pub extern "C" fn stragumella_need(file: &[u8]) -> u64
    ensures { result ≡ need_of file.now }
{
    walk::need(file) as u64
}

// The number of the kind that is due at record `row`, and 0 where nothing is told.
#[unsafe(no_mangle)]
pub extern "C" fn stragumella_due(file: &[u8], row: u32) -> u32
    ensures { result ≡ owed_number (due_at file.now row) }
{
    dues::due_at(file, row).map_or(0, number_of)
}

// Judges a file, with its table and its areas' measures left in the lent buffers.
#[unsafe(no_mangle)]
pub extern "C" fn stragumella_judge(file: &[u8], table: &mut [u32], measures: &mut [i64]) -> Outcome
    ensures { (result ≡ outcome_of file.now (length table.old) (length measures.old)) × (table.new ≡ table_after file.now (length measures.old) table.old) × (measures.new ≡ measures_after file.now (length table.old) measures.old) }
{
    judge::load(file, table, measures)
}

// Judges a file and gives the two sums of layer number `layer`, 1 being the file's first.
#[unsafe(no_mangle)]
pub extern "C" fn stragumella_layer_sums(file: &[u8], table: &mut [u32], layer: u32) -> Sums
    ensures { (result ≡ sums_of file.now (length table.old) layer) × (table.new ≡ table_after_sums file.now layer table.old) }
{
    judge::layer_sums(file, table, layer)
}

// Judges a file once for all of its layers, with its table and their sums left in the lent buffers.
#[unsafe(no_mangle)]
pub extern "C" fn stragumella_all_sums(file: &[u8], table: &mut [u32], sums: &mut [i64]) -> Outcome
    ensures { (result ≡ outcome_of_all file.now (length table.old) (length sums.old)) × (table.new ≡ table_after_all file.now (length sums.old) table.old) × (sums.new ≡ sums_after file.now (length table.old) sums.old) }
{
    judge::all_sums(file, table, sums)
}

// ---- positions

// The position of the point (`x`, `y`) on the sheet with the code `mesh`.
#[unsafe(no_mangle)]
pub extern "C" fn stragumella_position(mesh: i32, x: i32, y: i32) -> Placed
    ensures { result ≡ position_of mesh x y }
{
    positions::position_of(mesh, x, y)
}

// ---- records

// The kind that a number stands for, if it stands for one: the header's numbers, which are C's interface.
#[tactic(auto, unfolding(crate::specs::Values::meant_by))]
fn kind_of(n: u32) -> Option<Kind>
    ensures { result ≡ meant_by n }
{
    match n {
        1 => Some(Kind::Mesh),
        2 => Some(Kind::Layer),
        3 => Some(Kind::Node),
        4 => Some(Kind::Line),
        5 => Some(Kind::Coordinates),
        6 => Some(Kind::Area),
        7 => Some(Kind::Loop),
        _ => None,
    }
}

// The number that stands for a kind.
fn number_of(k: Kind) -> u32
    ensures { result ≡ kind_number k }
{
    match k {
        Kind::Mesh => 1,
        Kind::Layer => 2,
        Kind::Node => 3,
        Kind::Line => 4,
        Kind::Coordinates => 5,
        Kind::Area => 6,
        Kind::Loop => 7,
    }
}

// The answer where the number stands for no kind.
fn no_kind() -> Found
    ensures { result ≡ no_kind }
{
    Found {
        number: 3,
        place: 1,
        column: 1,
        value: Value {
            kind: 0,
            numbers: [0; 16],
            name: [0; 40],
            marks: [0; 2],
            letters: 0,
        },
    }
}

// Reads one record of the kind that the number `kind` stands for.
#[tactic(auto, unfolding(crate::specs::Values::found_of), using(crate::proofs::Columns::column_small))]
#[unsafe(no_mangle)]
pub extern "C" fn stragumella_read_record(kind: u32, bytes: &[u8]) -> Found
    ensures { result ≡ found_of kind bytes.now }
{
    let Some(kind) = kind_of(kind) else {
        return no_kind();
    };
    match record_reader::read_record(kind, bytes) {
        Ok(record) => Found {
            number: 0,
            place: 0,
            column: 0,
            value: Value::from(record),
        },
        Err(misread) => Found {
            number: misread.number,
            place: misread.place,
            column: misread.column as u32,
            value: Value::from(misread.value),
        },
    }
}

// Writes a record into the first 74 bytes of `buffer` and answers 0, or 21 or 20 with `buffer` as it was.
#[tactic(auto, unfolding(crate::specs::Values::WrittenValue))]
#[unsafe(no_mangle)]
pub extern "C" fn stragumella_write_record(value: Value, buffer: &mut [u8]) -> u32
    ensures { WrittenValue buffer.old value result buffer.new }
{
    let Value {
        kind,
        numbers,
        name,
        marks,
        letters,
    } = value;
    let Some(kind) = kind_of(kind) else {
        return if buffer.len() < 74 { 21 } else { 20 };
    };
    let record = Record {
        kind,
        numbers,
        name,
        marks,
        letters,
    };
    match record_writer::write_record(buffer, record) {
        Ok(()) => 0,
        Err(why) => why.number(),
    }
}
