// Code fields (RULES 3.6): a number field that has one more spelling, " 0000", which is land. A code has a
// value and a mark; the mark says which spelling stood there. Every public function takes every buffer,
// column, width and value.
//
// In which records " 0000" may stand is no matter of the field: `records` asks for layer 5.
// The contracts cite `specs/Code`; `proofs/CodeLaws` has the laws.
#![tactic(auto)]

ghost use Rattle.std.specs.Prelude.{◌≡◌};
ghost use Rattle.fields.specs.Answer.{Wrote};
ghost use Rattle.codes.specs.Code.{is_land, land_at, code_at, code_fits, spell_code};

use fields::Unfit;

// A code: its value, and its mark, which is 1 for land and else 0. The answer to a code field is an `Option`
// with it, and none for refusal 5.
#[derive(Clone, Copy, Debug, PartialEq, Eq)]
pub struct Code {
    pub value: i32,
    pub mark: u32,
}

// Whether a whole field is a space and four zeros.
fn is_land(f: &[u8]) -> bool
    ensures { result ≡ is_land f.now }
{
    f == b" 0000".as_slice()
}

// Whether the `width` columns from `column` on are.
fn land_at(s: &[u8], column: usize, width: usize) -> bool
    ensures { result ≡ land_at s.now column width }
{
    fields::bytes_at(s, column, width).is_some_and(is_land)
}

// Reads the code field of `width` columns from `column` on: a number, or else land. None: what is
// neither.
pub fn read_code(s: &[u8], column: usize, width: usize) -> Option<Code>
    ensures { result ≡ code_at s.now column width }
{
    if let Some(value) = numerals::read_number(s, column, width) {
        return Some(Code { value, mark: 0 });
    }
    if land_at(s, column, width) {
        return Some(Code { value: 0, mark: 1 });
    }
    None
}

// Writes `value` into the code field of `width` columns from `column` on, spelled as `mark` says. Refused,
// with `buf` as it was: a field that is not in `buf`, a mark that is neither 0 nor 1, and a value that the
// field does not hold with that mark: " 0000" is 0 in five columns.
pub fn write_code(
    buf: &mut [u8],
    column: usize,
    width: usize,
    value: i32,
    mark: u32,
) -> Result<(), Unfit>
    ensures { Wrote (code_fits buf.old column width value mark) buf.old column (spell_code width value mark) result buf.new }
{
    if mark == 0 {
        return writers::write_number(buf, column, width, value);
    }
    if mark != 1 {
        return Err(Unfit);
    }
    if width != 5 {
        return Err(Unfit);
    }
    if value != 0 {
        return Err(Unfit);
    }
    if !fields::inside(buf, column, width) {
        return Err(Unfit);
    }
    let at = column - 1;
    buf[at..at + 5].copy_from_slice(b" 0000");
    Ok(())
}
