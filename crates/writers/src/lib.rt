// Number, name and blank fields (RULES 3, 9.5), written in place. Every public function takes every
// buffer, column and width. Spaces are written as what is left of a number, so all three are one crate.
//
// The contracts cite `Spelling`, `Number` and `Answer` of `fields`.
#![tactic(auto)]

ghost use Rattle.std.specs.Prelude.{◌≡◌, ◌++◌, ◌+◌, ◌≤◌, length, take, drop, replicate};
ghost use Rattle.fields.specs.Place.{is_inside};
ghost use Rattle.fields.specs.Number.{holds};
ghost use Rattle.fields.specs.Spelling.{last_of, rest_of, columns, left_of, spell};
ghost use Rattle.fields.specs.Answer.{number_fits, name_fits, Wrote};

use fields::{Left, Unfit};

// The byte of the last column.
fn last_of(l: Left) -> u8
    ensures { result ≡ last_of l }
{
    match l {
        Left::Blanks => b' ',
        Left::Minus => b'-',
        Left::Digits(n, _) => b'0' + (n % 10) as u8,
    }
}

// What is left before it.
fn rest_of(l: Left) -> Left
    ensures { result ≡ rest_of l }
{
    match l {
        Left::Digits(n, minus) if 10 <= n => Left::Digits(n / 10, minus),
        Left::Digits(_, true) => Left::Minus,
        _ => Left::Blanks,
    }
}

// Writes `left` into the `width` bytes from index `at` on, right aligned.
fn fill(buf: &mut [u8], at: usize, width: usize, left: Left)
    requires { at + width ≤ length buf.old }
    ensures { buf.new ≡ take at buf.old ++ (columns width left ++ drop (at + width) buf.old) }
{
    let mut l = left;
    for k in (0..width).rev() {
        buf[at + k] = last_of(l);
        l = rest_of(l);
    }
}

// Whether `width` columns hold `value` (RULES 3.2): w columns hold -(10^(w-1) - 1) to 10^w - 1, and
// one column 0 to 9.
fn in_range(width: usize, value: i32) -> bool
    ensures { result ≡ holds width value }
{
    match width {
        1 => (0 <= value) & (value <= 9),
        2 => (-9 <= value) & (value <= 99),
        3 => (-99 <= value) & (value <= 999),
        4 => (-999 <= value) & (value <= 9999),
        5 => (-9999 <= value) & (value <= 99999),
        6 => (-99999 <= value) & (value <= 999999),
        _ => false,
    }
}

// A value, as what is to be written: its digits, with a minus sign where it is negative.
fn left_of(value: i32) -> Left
    ensures { result ≡ left_of value }
{
    Left::Digits(value.unsigned_abs(), value < 0)
}

// Writes `value` into the number field of `width` columns from `column` on. Refused, with `buf` as
// it was: a field that is not in `buf`, and a value that the width does not hold.
pub fn write_number(buf: &mut [u8], column: usize, width: usize, value: i32) -> Result<(), Unfit>
    ensures { Wrote (number_fits buf.old column width value) buf.old column (spell width value) result buf.new }
{
    if !fields::inside(buf, column, width) {
        return Err(Unfit);
    }
    if !in_range(width, value) {
        return Err(Unfit);
    }
    fill(buf, column - 1, width, left_of(value));
    Ok(())
}

// Writes `name` into the name field of `width` columns from `column` on. Refused, with `buf` as it
// was: a field that is not in `buf`, and a name that is not two-byte characters or not as long.
pub fn write_name(buf: &mut [u8], column: usize, width: usize, name: &[u8]) -> Result<(), Unfit>
    ensures { Wrote (name_fits buf.old column width name.now) buf.old column name.now result buf.new }
{
    if !fields::inside(buf, column, width) {
        return Err(Unfit);
    }
    if name.len() != width {
        return Err(Unfit);
    }
    if !texts::pairs(name) {
        return Err(Unfit);
    }
    let at = column - 1;
    buf[at..at + width].copy_from_slice(name);
    Ok(())
}

// Writes spaces into the blank field of `width` columns from `column` on. Refused, with `buf` as it
// was: a field that is not in `buf`.
pub fn write_blank(buf: &mut [u8], column: usize, width: usize) -> Result<(), Unfit>
    ensures { Wrote (is_inside buf.old column width) buf.old column (replicate width 32) result buf.new }
{
    if !fields::inside(buf, column, width) {
        return Err(Unfit);
    }
    fill(buf, column - 1, width, Left::Blanks);
    Ok(())
}
