// How a number field is read (RULES 3.1, 3.2): column by column from the left, blanks, sign, digits.
// `read_number` is the rule as the program has it. Every number that the library tells of a file is what it
// says of the field's columns, and every refusal 5 of a number field is given by it.
//
// The contracts cite `Number` of `fields`: `is_width` and `plain_of` for a step each, and `number_at` for the whole.
#![tactic(auto)]

ghost use Rattle.std.specs.Prelude.{◌≡◌, ◌≤◌, length};
ghost use Rattle.fields.specs.Number.{is_width, plain_of, number_of, number_at};
ghost use Rattle.fields.specs.Answer.{value_of};
ghost use Rattle.fields.specs.Ending.{EndsIn, Plain};

// Reads the number field of `width` columns from `column` on: its value, or refusal 5. `f[0]` is the field's
// first column.
pub fn read_number(s: &[u8], column: usize, width: usize) -> Option<i32>
    ensures { result ≡ number_at s.now column width }
{
    // The columns are there, and as many as a number field may have.
    let f = fields::bytes_at(s, column, width)?;
    if !is_width(width) {
        return None;
    }

    // Blanks: spaces in front. A field of spaces alone is wrong.
    let mut i = f.iter().position(|b| *b != b' ')?;

    // Sign: a minus sign stands directly before the digits.
    let minus = f[i] == b'-';
    if minus {
        i += 1;
    }

    // Digits: at the right end. Zero is "0", never "-0".
    let n = digits(&f[i..])?;
    if !minus {
        return Some(n);
    }
    if n == 0 {
        return None;
    }
    Some(-n)
}

// Width: number fields are 1 to 6 columns wide.
fn is_width(width: usize) -> bool
    ensures { result ≡ is_width width }
{
    matches!(width, 1..=6)
}

// Digits: nothing but digits from end to end, one at least. No leading zeros: a first "0" stands alone.
fn digits(f: &[u8]) -> Option<i32>
    requires { length f.now ≤ 6 }
    ensures { result ≡ plain_of f.now }
{
    let [first, ..] = f else {
        return None;
    };
    if (*first == b'0') & (f.len() != 1) {
        return None;
    }
    let mut n = 0;
    for b in f {
        if !b.is_ascii_digit() {
            return None;
        }
        n = n * 10 + u32::from(*b - b'0');
    }
    Some(n as i32)
}

// What follows serves speed alone: `value_of` reads a whole field that is mostly known to be well formed, with a
// glance in front and its digits from the right. It says what the same definition says.

// The digits at a field's end: the index where they start, and the number that they say.
#[derive(Clone, Copy)]
struct Ending {
    from: usize,
    size: u32,
}

// The digits at the end of a field, from the right. A digit counts `unit`, ten times as much as the
// one to its right.
fn digits_at_end(f: &[u8]) -> Ending
    requires { length f.now ≤ 6 }
    ensures { EndsIn f.now result.from result.size }
{
    let mut size = 0;
    let mut unit = 1;
    for i in (0..f.len()).rev() {
        if !f[i].is_ascii_digit() {
            return Ending { from: i + 1, size };
        }
        size += u32::from(f[i] - b'0') * unit;
        unit *= 10;
    }
    Ending { from: 0, size }
}

// The value of a field whose digits start at `from`, by what stands before them: spaces, and a "-"
// directly before the digits, which are then not "0".
fn signed(f: &[u8], from: usize, size: u32) -> Option<i32>
    requires { Plain f.now from size }
    ensures { result ≡ number_of f.now }
{
    if from == 0 {
        return Some(size as i32);
    }
    if f[from - 1] == b'-' {
        if !texts::blanks(&f[..from - 1]) {
            return None;
        }
        if size == 0 {
            return None;
        }
        return Some(-(size as i32));
    }
    if !texts::blanks(&f[..from]) {
        return None;
    }
    Some(size as i32)
}

// The value of a whole field: at most six columns, digits at the end, no leading zero among them.
fn number_of(f: &[u8]) -> Option<i32>
    ensures { result ≡ number_of f.now }
{
    let n = f.len();
    if 6 < n {
        return None;
    }
    let Ending { from, size } = digits_at_end(f);
    if from == n {
        return None;
    }
    if (f[from] == b'0') & (from + 1 != n) {
        return None;
    }
    signed(f, from, size)
}

// The number that a whole field says, and 0 where it says none.
pub fn value_of(f: &[u8]) -> i32
    ensures { result ≡ value_of (number_of f.now) }
{
    if glances::lone_zero(f) {
        return 0;
    }
    if let Some(n) = glances::glance_in(f) {
        return n as i32;
    }
    number_of(f).unwrap_or(0)
}
