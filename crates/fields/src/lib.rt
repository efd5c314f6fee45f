// The fields of a record (RULES 3): numbers, names and blanks. A field is named by the buffer it
// stands in, its first column, counted from 1, and its width. Every function takes every buffer,
// column and width.
//
// The answer to a number field is an `Option`: its value, or none for refusal 5. The answer to a name or a
// blank field is a `bool`: whether it is well formed, and refusal 5 if not.
//
// `specs/` has the definitions: `Number` and `Spelling` say what a number field is, `Text` what the
// other two are, `Answer` which refusal number an answer stands for. `proofs/FieldLaws` has the laws.
//
// The code that reads and writes is in four crates over this one, which has what they share. The laws
// are checked in seconds and the code is not, so a change to a part of the code costs the check of that
// part alone: `texts` reads names and blanks, `numerals` reads numbers, `glances` has what serves
// speed alone, `writers` writes all three.
#![tactic(auto)]

ghost use Rattle.std.specs.Prelude.{◌≡◌, true, false, MatchOption};
ghost use Rattle.fields.specs.Place.{is_inside, bytes_at};

// Refusal 20: what does not fit, with the buffer as it was. A writer's answer is a `Result` with it.
#[derive(Clone, Copy, Debug, PartialEq, Eq)]
pub struct Unfit;

// What is still to be written, column by column from the right: a number's digits and then its
// minus sign, if it has one; the minus sign alone; or spaces.
#[derive(Clone, Copy)]
pub enum Left {
    Blanks,
    Minus,
    Digits(u32, bool),
}

// Whether the `width` columns from `column` on lie within `s`.
pub fn inside(s: &[u8], column: usize, width: usize) -> bool
    ensures { result ≡ is_inside s.now column width }
{
    1 <= column && column - 1 <= s.len() && width <= s.len() - (column - 1)
}

// The bytes of those columns, or none where they do not lie within `s`.
pub fn bytes_at(s: &[u8], column: usize, width: usize) -> Option<&[u8]>
    ensures { MatchOption result (is_inside s.now column width ≡ false) (λ f. (is_inside s.now column width ≡ true) × (f.now ≡ bytes_at s.now column width)) }
{
    if !inside(s, column, width) {
        return None;
    }
    let at = column - 1;
    Some(&s[at..at + width])
}
