// What the programs read and write. Where it is known which bytes a reader gives or a writer holds, as of those
// over memory, the contracts say which were read and written; of the system's no contract can say. That a read
// or a write fails is told to `errors`, which is the programs' standard error.
//
// The contract of `read_input` cites `specs/Reading`.
#![tactic(auto)]

ghost use Rattle.std.specs.Prelude.{◌≤◌, length, OnOk};
ghost use Rattle.std.specs.Io.KnownBytes.{Appends};
ghost use Rattle.streams.specs.Reading.{Within, Taken};

use std::io::{Error, Read, Write};

// A read or a write failed, and the standard error was told why.
#[derive(Clone, Copy, Debug)]
pub struct Failed;

// Reads until `input` is full or what `source` gives ends, and answers how many bytes that were. Where a read
// fails, `errors` is told `what` and why.
pub fn read_input<R: Read, E: Write>(
    source: &mut R,
    errors: &mut E,
    input: &mut [u8],
    what: &[u8],
) -> Result<usize, Failed>
    ensures within { Within result input.new }
    ensures bytes { Taken (R.remaining source.old) (R.remaining source.new) result input.new }
{
    let mut n: usize = 0;
    // a read gives as much as it likes, so no range counts this
    while n < input.len() {
        match source.read(&mut input[n..]) {
            Ok(0) => return Ok(n),
            Ok(more) => n += more,
            Err(why) => return Err(tell(errors, what, &why)),
        }
    }
    Ok(n)
}

// Writes all of `text` to `output`. Where a write fails, `errors` is told `what` and why.
pub fn write_text<W: Write, E: Write>(
    output: &mut W,
    errors: &mut E,
    text: &[u8],
    what: &[u8],
) -> Result<(), Failed>
    ensures { OnOk result (Appends (W.contents output.old) (W.contents output.new) text.now) }
{
    output
        .write_all(text)
        .map_err(|why| tell(errors, what, &why))
}

// Tells `errors` in a line `what`, a colon and why. If that fails too, there is nobody left to tell.
pub fn tell<E: Write>(errors: &mut E, what: &[u8], why: &Error) -> Failed {
    let mut text = [0u8; 320];
    let n = put_shown(&mut text, why);
    let _ = errors.write_all(what);
    let _ = errors.write_all(b": ");
    let _ = errors.write_all(in_words(&text[..n]).as_bytes());
    let _ = errors.write_all(b"\n");
    Failed
}

// What is shown of `why` stands in the first bytes of `text`, as many as are answered.
fn put_shown(text: &mut [u8], why: &Error) -> usize
    ensures { result ≤ length text.new }
{
    let size = text.len();
    let mut rest: &mut [u8] = text;
    let _ = write!(rest, "{why}");
    size.saturating_sub(rest.len())
}

// The system's words alone: its number stands behind them in brackets.
fn in_words(shown: &[u8]) -> &str {
    let shown = str::from_utf8(shown).unwrap_or("");
    match shown.split_once(" (os error ") {
        Some((words, _)) => words,
        None => shown,
    }
}
