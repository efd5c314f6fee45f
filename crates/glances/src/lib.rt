// What serves speed alone: answers about number fields that are found in fewer steps than the number
// itself. Every public function takes every buffer and column. It is a crate of its own, so that
// `numerals` can be read without it, and because its many cases take the longest to check.
//
// The contracts cite `specs/Glimpse`: what a glance says of a field's number, the sum of the remainders
// of its bytes, and the end of a field that says 0.
#![tactic(auto)]

ghost use Rattle.std.specs.Prelude.{◌≡◌, [], ◌∷◌, length};
ghost use Rattle.fields.specs.Number.{number_of, number_at};
ghost use Rattle.glances.specs.Glimpse.{glimpse_of, remainders, remainders_at, is_lone_zero};

// The number that five bytes say where they are spaces and then digits without a leading zero, as
// nearly every field of width 5 is. It is unsure of everything else, and that says no number from 0 to
// 99999.
fn glance_at(a: u8, b: u8, c: u8, d: u8, e: u8) -> Option<u32>
    ensures { result ≡ glimpse_of (number_of (a ∷ b ∷ c ∷ d ∷ e ∷ [])) }
{
    if !e.is_ascii_digit() {
        return None;
    }
    let one = u32::from(e - b'0');
    if !d.is_ascii_digit() {
        return ((a == b' ') & (b == b' ') & (c == b' ') & (d == b' ')).then_some(one);
    }
    let two = one + u32::from(d - b'0') * 10;
    if !c.is_ascii_digit() {
        return ((a == b' ') & (b == b' ') & (c == b' ') & (d != b'0')).then_some(two);
    }
    let three = two + u32::from(c - b'0') * 100;
    if !b.is_ascii_digit() {
        return ((a == b' ') & (b == b' ') & (c != b'0')).then_some(three);
    }
    let four = three + u32::from(b - b'0') * 1000;
    if a == b' ' {
        return (b != b'0').then_some(four);
    }
    if a.is_ascii_digit() & (a != b'0') {
        return Some(four + u32::from(a - b'0') * 10000);
    }
    None
}

// The same of a field of up to five columns: the columns that it lacks count as spaces. Of six the
// first has to be one.
pub fn glance_in(f: &[u8]) -> Option<u32>
    ensures { result ≡ glimpse_of (number_of f.now) }
{
    match *f {
        [e] => glance_at(b' ', b' ', b' ', b' ', e),
        [d, e] => glance_at(b' ', b' ', b' ', d, e),
        [c, d, e] => glance_at(b' ', b' ', c, d, e),
        [b, c, d, e] => glance_at(b' ', b, c, d, e),
        [a, b, c, d, e] => glance_at(a, b, c, d, e),
        [b' ', a, b, c, d, e] => glance_at(a, b, c, d, e),
        _ => None,
    }
}

// What the five columns from `column` on say at a glance: the number from 0 on that they say, or nothing.
pub fn glance_number(s: &[u8], column: usize) -> Option<u32>
    ensures { result ≡ glimpse_of (number_at s.now column 5) }
{
    glance_in(fields::bytes_at(s, column, 5)?)
}

// The remainders by 16 of five bytes, added up at the powers of ten: a space gives 0, and a digit itself.
fn remainders_of(f: &[u8]) -> u32
    requires { length f.now ≡ 5 }
    ensures { result ≡ remainders 0 f.now }
{
    u32::from(f[0] % 16) * 10000
        + u32::from(f[1] % 16) * 1000
        + u32::from(f[2] % 16) * 100
        + u32::from(f[3] % 16) * 10
        + u32::from(f[4] % 16)
}

// The same of the five columns from `column` on, 166665 at most: the field's number where that is one from
// 0 on, found without a test of a byte.
pub fn sum_of_five(s: &[u8], column: usize) -> u32
    ensures { result ≡ remainders_at s.now column 5 }
{
    let Some(f) = fields::bytes_at(s, column, 5) else {
        return 0;
    };
    remainders_of(f)
}

// Whether a field ends in a space and a "0": then its number is 0, or it has none (`zero_alone`).
pub fn lone_zero(f: &[u8]) -> bool
    ensures { result ≡ is_lone_zero f.now }
{
    let [.., a, b] = *f else {
        return false;
    };
    (b == b'0') & (a == b' ')
}
