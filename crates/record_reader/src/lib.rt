// A record read (RULES 9.4), field by field along the layout of its kind; the first fault is the answer.
// The one public function takes every input.
//
// The contracts cite `Reading` of `records`.
#![tactic(auto)]

ghost use Rattle.std.specs.Prelude.{◌≡◌, length};
ghost use Rattle.records.specs.Reading.{refused_at, fields_of, reading_of};

use records::{Field, Kind, Misread, Record};

// A refusal at a column of the one record, which is record 1; the value is the kind with all else 0.
fn refused(kind: Kind, number: u32, column: usize) -> Result<Record, Misread>
    ensures { result ≡ refused_at kind number column }
{
    Err(Misread {
        number,
        place: 1,
        column,
        value: Record::zeroed(kind),
    })
}

// The fields of 74 bytes along the layout of the kind: the first ill-formed one, or the value.
fn read_fields(kind: Kind, s: &[u8]) -> Result<Record, Misread>
    requires { length s.now ≡ 74 }
    ensures { result ≡ fields_of kind s.now }
{
    let mut numbers = [0i32; 16];
    let mut name = [0u8; 40];
    let mut marks = [0u32; 2];
    let mut n: usize = 0;
    let mut m: usize = 0;
    let mut q: usize = 0;
    for field in records::layout_of(kind) {
        match *field {
            Field::Letters(a, b, c) => {
                if !records::letters_right(a, b, c, s[0], s[1]) {
                    return refused(kind, 3, 1);
                }
            }
            Field::Number(c, w) => {
                let Some(v) = numerals::read_number(s, c, w) else {
                    return refused(kind, 5, c);
                };
                numbers[n] = v;
                n += 1;
            }
            Field::Name(c, w) => {
                if !texts::read_name(s, c, w) {
                    return refused(kind, 5, c);
                }
                let at = c - 1;
                name[m..m + w].copy_from_slice(&s[at..at + w]);
                m += w;
            }
            Field::Blank(c, w) => {
                if !texts::read_blank(s, c, w) {
                    return refused(kind, 5, c);
                }
            }
            Field::Code(c, w) => {
                let Some(code) = records::read_code(s, c, w) else {
                    return refused(kind, 5, c);
                };
                numbers[n] = code.value;
                marks[q] = code.mark;
                n += 1;
                q += 1;
            }
        }
    }
    Ok(Record {
        kind,
        numbers,
        name,
        marks,
        letters: records::letters_in(kind, s),
    })
}

// Reads one record of the kind that the caller names. Refused: not 74 bytes (1 at column 1), then a
// wrong line end (2 at 73 or 74), then wrong letters (3 at 1), then the first ill-formed field (5 at its
// start).
#[tactic(auto, unfolding(records::specs::Reading::reading_of))]
pub fn read_record(kind: Kind, s: &[u8]) -> Result<Record, Misread>
    ensures { result ≡ reading_of kind s.now }
{
    if s.len() != 74 {
        return refused(kind, 1, 1);
    }
    if s[72] != b'\r' {
        return refused(kind, 2, 73);
    }
    if s[73] != b'\n' {
        return refused(kind, 2, 74);
    }
    read_fields(kind, s)
}
