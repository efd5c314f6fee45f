// A record written (RULES 9.5), field by field along the layout of its kind, into a line that is then
// copied. The one public function takes every input.
//
// The contracts cite `Writing` of `records`; `specs/Refusals` has the numbers of the errors.
#![tactic(auto)]

ghost use Rattle.std.specs.Prelude.{◌≡◌, ◌&&◌};
ghost use Rattle.records.specs.Reading.{mark_fits};
ghost use Rattle.records.specs.Writing.{no_numbers, no_bytes, second_letter, letters_fit, spelled, Written};
ghost use Rattle.record_writer.specs.Refusals.{error_number, answer_number};
ghost use Rattle.record_writer.specs.declared.WriteError.{WriteError};

use fields::Unfit;
use records::{Field, Kind, Record};

// Why a record is not written: the buffer is under 74 bytes; or letters, a value or an unused entry don't
// fit.
#[derive(Clone, Copy, Debug, PartialEq, Eq)]
pub enum WriteError {
    Short,
    Unfit,
}

impl WriteError {
    // The refusal's number: 21 or 20.
    pub fn number(self) -> u32
        ensures { result ≡ error_number self }
    {
        match self {
            WriteError::Short => 21,
            WriteError::Unfit => 20,
        }
    }
}

impl From<Unfit> for WriteError {
    ghost from_gives = { λ _ e. e ≡ WriteError.Unfit };

    fn from(_unfit: Unfit) -> WriteError {
        WriteError::Unfit
    }
}

// Whether the entries that the kind lacks are 0.
fn all_zero(numbers: &[i32], name: &[u8], marks: &[u32]) -> bool
    ensures { result ≡ no_numbers numbers.now && (no_bytes name.now && no_bytes marks.now) }
{
    numbers.iter().all(|n| *n == 0) && name.iter().all(|b| *b == 0) && marks.iter().all(|m| *m == 0)
}

// Whether a code may have that mark: a mark stands in layer 5 alone.
fn may_mark(five: bool, mark: u32) -> bool
    ensures { result ≡ mark_fits five mark }
{
    mark == 0 || five
}

// Whether the kind may have these letters: an H has 1 or 2, for H1 and H2, and any other kind 0.
fn may_letter(kind: Kind, letters: u32) -> bool
    ensures { result ≡ letters_fit kind letters }
{
    if records::is_head(kind) {
        letters == 1 || letters == 2
    } else {
        letters == 0
    }
}

// The second type letter, which is `b` or `c`: the letters 2 say `c`.
#[tactic(auto, unfolding(records::specs::Writing::second_letter))]
fn second_letter(b: u8, c: u8, letters: u32) -> u8
    ensures { result ≡ second_letter b c letters }
{
    if letters == 2 { c } else { b }
}

// The record's bytes along the layout of its kind.
fn spell_record(r: Record) -> Result<[u8; 74], Unfit>
    ensures { result ≡ spelled r }
{
    let mut line = [b' '; 74];
    let mut n: usize = 0;
    let mut m: usize = 0;
    let mut q: usize = 0;
    for field in records::layout_of(r.kind) {
        match *field {
            Field::Letters(a, b, c) => {
                line[0] = a;
                line[1] = second_letter(b, c, r.letters);
            }
            Field::Number(c, w) => {
                writers::write_number(&mut line, c, w, r.numbers[n])?;
                n += 1;
            }
            Field::Name(c, w) => {
                writers::write_name(&mut line, c, w, &r.name[m..m + w])?;
                m += w;
            }
            Field::Blank(c, w) => {
                writers::write_blank(&mut line, c, w)?;
            }
            Field::Code(c, w) => {
                let mark = r.marks[q];
                if !may_mark(permitted::is(r.numbers[0], 5), mark) {
                    return Err(Unfit);
                }
                codes::write_code(&mut line, c, w, r.numbers[n], mark)?;
                n += 1;
                q += 1;
            }
        }
    }
    if !all_zero(&r.numbers[n..], &r.name[m..], &r.marks[q..]) {
        return Err(Unfit);
    }
    line[72] = b'\r';
    line[73] = b'\n';
    Ok(line)
}

// Writes a record into the first 74 bytes of `buf`. Refused, with `buf` as it was: 21 where `buf` is under
// 74 bytes, then 20 for letters, a value or an unused entry that doesn't fit.
pub fn write_record(buf: &mut [u8], r: Record) -> Result<(), WriteError>
    ensures { Written buf.old r (answer_number result) buf.new }
{
    if buf.len() < 74 {
        return Err(WriteError::Short);
    }
    if !may_letter(r.kind, r.letters) {
        return Err(WriteError::Unfit);
    }
    let line = spell_record(r)?;
    buf[..74].copy_from_slice(&line);
    Ok(())
}
