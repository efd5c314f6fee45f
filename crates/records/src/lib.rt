// The records of a file (RULES 4, and the view of RULES 9.6): the kinds, their layouts, and the numbers
// of a record. The layout of each kind stands once, in the constant named after the kind; the crates
// `record_reader` and `record_writer` go along it. Every public function takes every input.
//
// The contracts cite `specs/`: `Layout` has the layouts, `Reading` and `Writing` say what a record's
// bytes and a record's value are to each other, `View` is a record of a file.
#![tactic(auto)]

ghost use Rattle.std.specs.Prelude.{◌≡◌, ◌≤◌, get_or};
ghost use Rattle.records.specs.Layout.{layout_of};
ghost use Rattle.records.specs.Reading.{zeroed, letters_right, head_letters, is_head, letters_in, in_layer_five, code_in};
ghost use Rattle.records.specs.View.{record_of, number_in};
ghost use Rattle.records.specs.Columns.{slot_start, slot_in};

use codes::Code;

// The seven kinds: M, H, N, L, coordinates, A and loop.
#[derive(Clone, Copy, Debug, PartialEq, Eq)]
pub enum Kind {
    Mesh,
    Layer,
    Node,
    Line,
    Coordinates,
    Area,
    Loop,
}

// A field of a layout, with its first column and its width: a number, a code, a name, or blanks; or type
// letters, the first and the two of which either may stand second.
#[derive(Clone, Copy)]
pub enum Field {
    Letters(u8, u8, u8),
    Number(usize, usize),
    Code(usize, usize),
    Name(usize, usize),
    Blank(usize, usize),
}

// The columns of a field: the first one, and how many.
#[derive(Clone, Copy)]
pub struct Columns(pub usize, pub usize);

// A row of slots of width 5: the first one's column, how many columns one starts behind the other, and how
// many there are.
#[derive(Clone, Copy)]
pub struct Slots(pub u8, pub u8, pub u8);

// ---- the number fields that are read alone, by name (RULES 4.1 to 4.7)

pub const MESH_CODE: Columns = Columns(3, 6);

pub const MESH_LAYERS: Columns = Columns(29, 3);

pub const MESH_NODES: Columns = Columns(32, 5);

pub const MESH_LINES: Columns = Columns(37, 5);

pub const MESH_AREAS: Columns = Columns(42, 5);

pub const MESH_RECORDS: Columns = Columns(52, 5);

pub const LAYER_CODE: Columns = Columns(3, 2);

pub const LAYER_NODES: Columns = Columns(5, 5);

pub const LAYER_LINES: Columns = Columns(10, 5);

pub const LAYER_AREAS: Columns = Columns(15, 5);

pub const LAYER_RECORDS: Columns = Columns(25, 5);

pub const NODE_SERIAL: Columns = Columns(7, 5);

pub const NODE_X: Columns = Columns(12, 5);

pub const NODE_Y: Columns = Columns(17, 5);

pub const NODE_FRAME: Columns = Columns(22, 2);

pub const LINE_SERIAL: Columns = Columns(7, 5);

pub const START_NODE: Columns = Columns(18, 5);

pub const START_LINK: Columns = Columns(23, 1);

pub const END_NODE: Columns = Columns(24, 5);

pub const END_LINK: Columns = Columns(29, 1);

pub const LEFT_CODE: Columns = Columns(30, 5);

pub const LEFT_AREA: Columns = Columns(35, 5);

pub const RIGHT_CODE: Columns = Columns(40, 5);

pub const RIGHT_AREA: Columns = Columns(45, 5);

pub const LINE_POINTS: Columns = Columns(50, 6);

pub const AREA_CODE: Columns = Columns(5, 5);

pub const AREA_SERIAL: Columns = Columns(10, 5);

pub const AREA_LOOPS: Columns = Columns(25, 4);

pub const AREA_LINES: Columns = Columns(29, 4);

pub const LOOP_SERIAL: Columns = Columns(1, 5);

pub const LOOP_COUNT: Columns = Columns(6, 4);

pub const NODE_ENTRIES: Slots = Slots(26, 5, 9);

pub const POINTS_X: Slots = Slots(1, 10, 7);

pub const POINTS_Y: Slots = Slots(6, 10, 7);

pub const LOOP_ENTRIES: Slots = Slots(10, 5, 12);

pub const SLOT_WIDTH: usize = 5;

// A record's value (RULES 4.8): its kind, its numbers in column order, its name bytes, the marks of its
// codes and the letters of an H, 1 or 2. What the kind lacks is 0.
#[derive(Clone, Copy, Debug, PartialEq, Eq)]
pub struct Record {
    pub kind: Kind,
    pub numbers: [i32; 16],
    pub name: [u8; 40],
    pub marks: [u32; 2],
    pub letters: u32,
}

impl Record {
    // The kind with all else 0: the value of a refused reading (RULES 9.4).
    pub fn zeroed(kind: Kind) -> Record
        ensures { result ≡ zeroed kind }
    {
        Record {
            kind,
            numbers: [0; 16],
            name: [0; 40],
            marks: [0; 2],
            letters: 0,
        }
    }
}

// What a record that is read alone is refused with: the refusal's number, its place, which is record 1 and the
// column, and the value of a refused reading (RULES 9.4).
#[derive(Clone, Copy, Debug, PartialEq, Eq)]
pub struct Misread {
    pub number: u32,
    pub place: u32,
    pub column: usize,
    pub value: Record,
}

// ---- the layouts, in column order

// M.
const MESH_LAYOUT: [Field; 10] = [
    Field::Letters(b'M', b' ', b' '),
    Field::Number(3, 6), // mesh code
    Field::Name(9, 20),
    Field::Number(29, 3), // layers
    Field::Number(32, 5), // nodes
    Field::Number(37, 5), // lines
    Field::Number(42, 5), // areas
    Field::Number(47, 5), // points
    Field::Number(52, 5), // records
    Field::Blank(57, 16),
];

// H.
const LAYER_LAYOUT: [Field; 12] = [
    Field::Letters(b'H', b'1', b'2'),
    Field::Number(3, 2), // layer
    Field::Number(5, 5), // nodes
    Field::Number(10, 5), // lines
    Field::Number(15, 5), // areas
    Field::Number(20, 5), // points
    Field::Number(25, 5), // records
    Field::Blank(30, 1),
    Field::Number(31, 4), // first made
    Field::Blank(35, 1),
    Field::Number(36, 4), // last changed
    Field::Blank(40, 33),
];

// N.
const NODE_LAYOUT: [Field; 18] = [
    Field::Letters(b'N', b' ', b' '),
    Field::Number(3, 2), // layer
    Field::Number(5, 2), // item
    Field::Number(7, 5), // serial
    Field::Number(12, 5), // X
    Field::Number(17, 5), // Y
    Field::Number(22, 2), // frame
    Field::Number(24, 2), // count
    Field::Number(26, 5), // nine line numbers
    Field::Number(31, 5),
    Field::Number(36, 5),
    Field::Number(41, 5),
    Field::Number(46, 5),
    Field::Number(51, 5),
    Field::Number(56, 5),
    Field::Number(61, 5),
    Field::Number(66, 5), // the ninth
    Field::Blank(71, 2),
];

// L.
const LINE_LAYOUT: [Field; 17] = [
    Field::Letters(b'L', b' ', b' '),
    Field::Number(3, 2), // layer
    Field::Number(5, 2), // item
    Field::Number(7, 5), // serial
    Field::Number(12, 6), // kind
    Field::Number(18, 5), // start node
    Field::Number(23, 1), // its link
    Field::Number(24, 5), // end node
    Field::Number(29, 1), // its link
    Field::Code(30, 5), // left code
    Field::Number(35, 5), // left area
    Field::Code(40, 5), // right code
    Field::Number(45, 5), // right area
    Field::Number(50, 6), // points
    Field::Number(56, 2),
    Field::Number(58, 3),
    Field::Blank(61, 12),
];

// Coordinates.
const COORDINATES_LAYOUT: [Field; 15] = [
    Field::Number(1, 5), // seven X, Y pairs
    Field::Number(6, 5),
    Field::Number(11, 5),
    Field::Number(16, 5),
    Field::Number(21, 5),
    Field::Number(26, 5),
    Field::Number(31, 5),
    Field::Number(36, 5),
    Field::Number(41, 5),
    Field::Number(46, 5),
    Field::Number(51, 5),
    Field::Number(56, 5),
    Field::Number(61, 5),
    Field::Number(66, 5),
    Field::Blank(71, 2),
];

// A.
const AREA_LAYOUT: [Field; 9] = [
    Field::Letters(b'A', b' ', b' '),
    Field::Number(3, 2), // layer
    Field::Code(5, 5), // code
    Field::Number(10, 5), // serial
    Field::Number(15, 5), // X
    Field::Number(20, 5), // Y
    Field::Number(25, 4), // loops
    Field::Number(29, 4), // lines
    Field::Name(33, 40),
];

// Loop.
const LOOP_LAYOUT: [Field; 15] = [
    Field::Number(1, 5), // serial
    Field::Number(6, 4), // line count
    Field::Number(10, 5), // twelve line numbers
    Field::Number(15, 5),
    Field::Number(20, 5),
    Field::Number(25, 5),
    Field::Number(30, 5),
    Field::Number(35, 5),
    Field::Number(40, 5),
    Field::Number(45, 5),
    Field::Number(50, 5),
    Field::Number(55, 5),
    Field::Number(60, 5),
    Field::Number(65, 5),
    Field::Blank(70, 3),
];

// The fields of a record of the kind, in column order.
#[tactic(auto, unfolding(crate::specs::Layout::layout_of))]
pub fn layout_of(kind: Kind) -> &'static [Field]
    ensures { result.now ≡ layout_of kind }
{
    match kind {
        Kind::Mesh => &MESH_LAYOUT,
        Kind::Layer => &LAYER_LAYOUT,
        Kind::Node => &NODE_LAYOUT,
        Kind::Line => &LINE_LAYOUT,
        Kind::Coordinates => &COORDINATES_LAYOUT,
        Kind::Area => &AREA_LAYOUT,
        Kind::Loop => &LOOP_LAYOUT,
    }
}

// ---- type letters

// Letter `a` and then `b` or `c` are due, and `x`, `y` stand there: whether they are right.
pub fn letters_right(a: u8, b: u8, c: u8, x: u8, y: u8) -> bool
    ensures { result ≡ letters_right a b c x y }
{
    x == a && (y == b || y == c)
}

// The letters of an H: 1 for H1, an unstructured layer, and 2 for any other.
#[tactic(auto, unfolding(crate::specs::Reading::head_letters))]
pub fn head_letters(s: &[u8]) -> u32
    ensures { result ≡ head_letters s.now }
{
    if s.get(1) == Some(&b'1') { 1 } else { 2 }
}

// Whether the kind is H, which has letters of two sorts.
pub fn is_head(kind: Kind) -> bool
    ensures { result ≡ is_head kind }
{
    matches!(kind, Kind::Layer)
}

// The letters of a record of the kind: 1 or 2 of an H, 0 of any other.
pub fn letters_in(kind: Kind, s: &[u8]) -> u32
    ensures { result ≡ letters_in kind s.now }
{
    if is_head(kind) { head_letters(s) } else { 0 }
}

// ---- codes

// Whether a record's layer code, in columns 3-4, reads 5.
#[tactic(auto, unfolding(crate::specs::Reading::in_layer_five))]
fn in_layer_five(s: &[u8]) -> bool
    ensures { result ≡ in_layer_five s.now }
{
    let Some(v) = numerals::read_number(s, 3, 2) else {
        return false;
    };
    permitted::is(v, 5)
}

// Reads the code of `width` columns from `column` on of a record. " 0000", which has a mark, is taken in
// layer 5 and refused in any other.
#[tactic(auto, unfolding(crate::specs::Reading::code_in))]
pub fn read_code(s: &[u8], column: usize, width: usize) -> Option<Code>
    ensures { result ≡ code_in s.now column width }
{
    let code = codes::read_code(s, column, width)?;
    if code.mark != 0 && !in_layer_five(s) {
        return None;
    }
    Some(code)
}

// ---- a record of a file

// Record `k` of a file, counted from 1: the caller's own 74 bytes, or an empty part if there is
// none.
pub fn record_view(file: &[u8], k: usize) -> &[u8]
    ensures { result.now ≡ record_of file.now k }
{
    if k == 0 || file.len() / 74 < k {
        return &[];
    }
    let e = k * 74;
    &file[e - 74..e]
}

// The number in the `width` columns from `column` on of record `k` of a file, and 0 where there is
// none. Its bytes are taken from the file and not from the record's view, for speed alone.
fn number_at(file: &[u8], k: usize, column: usize, width: usize) -> i32
    ensures { result ≡ number_in file.now k column width }
{
    if k == 0 || file.len() / 74 < k {
        return 0;
    }
    if column == 0 || 74 < width || 74 - width < column - 1 {
        return 0;
    }
    let at = k * 74 - 74 + (column - 1);
    numerals::value_of(&file[at..at + width])
}

// The number in these columns of record `k` of a file, and 0 where there is none.
pub fn value_at(file: &[u8], k: usize, c: Columns) -> i32
    ensures { result ≡ number_in file.now k c.0 c.1 }
{
    number_at(file, k, c.0, c.1)
}

// The first column of slot `i` of a row, counted from 0; 0, which is no column, where there is none.
pub fn slot_column(row: Slots, i: usize) -> usize
    ensures { (result ≡ slot_start row.0 row.1 row.2 i) × (result ≤ 65280) }
{
    if usize::from(row.2) <= i {
        return 0;
    }
    usize::from(row.0) + usize::from(row.1) * i
}

// The number in slot `i` of a row of record `k` of a file, counted from 0, and 0 where there is none.
pub fn slot_at(file: &[u8], k: usize, row: Slots, i: usize) -> i32
    ensures { result ≡ slot_in file.now k row.0 row.1 row.2 i }
{
    number_at(file, k, slot_column(row, i), SLOT_WIDTH)
}
