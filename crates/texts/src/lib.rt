// Name and blank fields (RULES 3.3, 3.4), read in place. Every function takes every buffer, column and
// width. The number reader and the writers ask here too, so it is a crate below theirs.
//
// The contracts cite `Text` of `fields`.
#![tactic(auto)]

ghost use Rattle.std.specs.Prelude.{◌≡◌};
ghost use Rattle.fields.specs.Text.{is_pair, is_name, is_blanks, text_at};

// Whether a field is spaces alone.
pub fn blanks(f: &[u8]) -> bool
    ensures { result ≡ is_blanks f.now }
{
    f.iter().all(|b| *b == b' ')
}

// Whether `a`, `b` is a two-byte character of Shift JIS (RULES 3.3): the first byte is 81 to 9F or
// E0 to FC, the second 40 to 7E or 80 to FC.
fn pair(a: u8, b: u8) -> bool
    ensures { result ≡ is_pair a b }
{
    matches!(a, 0x81..=0x9f | 0xe0..=0xfc) & matches!(b, 0x40..=0x7e | 0x80..=0xfc)
}

// Whether a field is two-byte characters alone.
pub fn pairs(f: &[u8]) -> bool
    ensures { result ≡ is_name f.now }
{
    let mut rest = f;
    while let [a, b, behind @ ..] = rest {
        if !pair(*a, *b) {
            return false;
        }
        rest = behind;
    }
    rest.is_empty()
}

// Whether the name field of `width` columns from `column` on is well formed. It is not where it is not in `s`,
// and where it is not two-byte characters.
pub fn read_name(s: &[u8], column: usize, width: usize) -> bool
    ensures { result ≡ text_at is_name s.now column width }
{
    fields::bytes_at(s, column, width).is_some_and(pairs)
}

// Whether the blank field of `width` columns from `column` on is well formed. It is not where it is not in `s`,
// and where it has another byte than a space.
pub fn read_blank(s: &[u8], column: usize, width: usize) -> bool
    ensures { result ≡ text_at is_blanks s.now column width }
{
    fields::bytes_at(s, column, width).is_some_and(blanks)
}
