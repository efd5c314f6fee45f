// The page that a text is put on, piece by piece: clauses see a `Page` as the bytes that stand on it.

ghost use Rattle.std.specs.Prelude.{◌≡◌, ◌+◌, ◌≤◌, [], ◌++◌, length};
ghost use Rattle.report.specs.Texts.{decimal, signed, text_line};

use std::marker::Model;

// Room for 120,000 bytes, of which the first `used` are the text.
#[derive(Drop)]
pub struct Page {
    bytes: [u8; 120000],
    used: usize,
}

impl Model for Page {
    ghost use Rattle.std.specs.Prelude.{ℕ, ◌≤◌, List, take};

    ghost Value = { List ℕ };

    ghost view = { λ p. take p.used p.bytes };

    ghost invariant = { λ p. p.used ≤ 120000 };
}

impl Page {
    // A page with nothing on it.
    pub fn new() -> Self
        ensures { result ≡ [] }
    {
        Page {
            bytes: [0; 120000],
            used: 0,
        }
    }

    // Takes all off the page.
    pub(crate) fn clear(&mut self)
        ensures { self.new ≡ [] }
    {
        self.used = 0;
    }

    // The text on the page.
    pub fn text(&self) -> &[u8]
        ensures text { result.now ≡ self.now }
        ensures within { length self.now ≤ 120000 }
    {
        &self.bytes[..self.used]
    }

    // The bytes `s`.
    pub(crate) fn put(&mut self, s: &[u8])
        requires { length self.old + length s.now ≤ 120000 }
        ensures { self.new ≡ self.old ++ s.now }
    {
        let end = self.used + s.len();
        self.bytes[self.used..end].copy_from_slice(s);
        self.used = end;
    }

    // A number.
    pub(crate) fn put_number(&mut self, v: u64)
        requires { length self.old + 20 ≤ 120000 }
        ensures text { self.new ≡ self.old ++ decimal v }
        ensures within { length self.new ≤ length self.old + 20 }
    {
        let mut text = [0u8; 20];
        let n = io::decimal(v, &mut text);
        self.put(&text[..n]);
    }

    // A signed number.
    pub(crate) fn put_signed(&mut self, v: i64)
        requires { length self.old + 21 ≤ 120000 }
        ensures text { self.new ≡ self.old ++ signed v }
        ensures within { length self.new ≤ length self.old + 21 }
    {
        if v < 0 {
            self.put(b"-");
        }
        self.put_number(v.unsigned_abs());
    }

    // A name and a number.
    pub(crate) fn put_named(&mut self, name: &[u8], v: usize)
        requires { length self.old + (length name.now + 20) ≤ 120000 }
        ensures text { self.new ≡ self.old ++ (name.now ++ decimal v) }
        ensures within { length self.new ≤ length self.old + (length name.now + 20) }
    {
        self.put(name);
        self.put_number(v as u64);
    }

    // A line: a name and a number.
    pub(crate) fn put_line(&mut self, name: &[u8], v: u32)
        requires { length self.old + (length name.now + 21) ≤ 120000 }
        ensures text { self.new ≡ self.old ++ text_line name.now v }
        ensures within { length self.new ≤ length self.old + (length name.now + 21) }
    {
        self.put_named(name, v as usize);
        self.put(b"\n");
    }
}
