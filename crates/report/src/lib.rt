// What the programs `check` and `measure` print of an input (RULES 12). The text is put on a page, and the
// contracts say which text; the page is written in one call. Where it is known which bytes a reader gives and a
// writer holds, the programs' contracts say that this text of all that was given is what was written.
//
// The contracts cite `specs/`: `Texts` has the text of every input.
#![tactic(auto)]

ghost use Rattle.std.specs.Prelude.{◌≡◌, [], ◌++◌, ◌+◌, ◌≤◌, length, OnOk, IfSome};
ghost use Rattle.std.specs.Io.KnownBytes.{Appends};
ghost use Rattle.walk.specs.Stages.{records_of};
ghost use Rattle.report.specs.Texts.{status_too_long, refused_text, ok_text, shown_in, area_text, areas_text, check_text, measure_text};

use judge::Outcome;
pub use page::Page;
use rules::Due;
use std::io::{Read, Write};
use streams::Failed;
use walk::State;

mod page;

// What is printed of an area, beside its measure.
#[derive(Clone, Copy)]
pub struct Shown {
    pub mesh: usize,
    pub layer: usize,
    pub area: usize,
    pub code: usize,
}

// ---- what is said of an outcome, on a page with nothing on it

// All that is said of an input that is too long.
fn put_too_long(page: &mut Page)
    requires { page.old ≡ [] }
    ensures { page.new ≡ status_too_long }
{
    page.put(b"status=toolong\n");
}

// A refused file's four lines.
#[tactic(auto, using(std::proofs::Common::append_assoc), unfolding(crate::specs::Texts::refused_text))]
fn put_refused(page: &mut Page, o: Outcome)
    requires { page.old ≡ [] }
    ensures { page.new ≡ refused_text o }
{
    page.put(b"status=refused\n");
    page.put_line(b"number=", o.number);
    page.put_line(b"record=", o.place);
    page.put_line(b"column=", o.column);
}

// An accepted file's seven lines.
#[tactic(auto, using(std::proofs::Common::append_assoc), unfolding(crate::specs::Texts::ok_text))]
fn put_ok(page: &mut Page, o: Outcome)
    requires { page.old ≡ [] }
    ensures { page.new ≡ ok_text o }
{
    page.put(b"status=ok\n");
    page.put_line(b"meshes=", o.meshes);
    page.put_line(b"layers=", o.layers);
    page.put_line(b"nodes=", o.nodes);
    page.put_line(b"lines=", o.lines);
    page.put_line(b"areas=", o.areas);
    page.put_line(b"records=", o.records);
}

// ---- the areas

// What is printed of the area whose A is the record `t`, due in the state `s`.
fn shown_of(s: State, t: &[u8]) -> Shown
    ensures { result ≡ shown_in s t.now }
{
    Shown {
        mesh: s.mesh.code,
        layer: s.layer.code,
        area: walk::size_at(t, records::AREA_SERIAL),
        code: walk::size_at(t, records::AREA_CODE),
    }
}

// An area's line; `m` is its measure.
fn put_area(page: &mut Page, x: Shown, m: i64)
    requires { length page.old + 135 ≤ 120000 }
    ensures text { page.new ≡ page.old ++ area_text x m }
    ensures within { length page.new ≤ length page.old + 135 }
{
    page.put_named(b"mesh=", x.mesh);
    page.put_named(b" layer=", x.layer);
    page.put_named(b" area=", x.area);
    page.put_named(b" code=", x.code);
    page.put(b" measure=");
    page.put_signed(m);
    page.put(b"\n");
}

// The lines of all areas, in file order, on a page with nothing on it; `measures` has their measures.
fn put_areas(page: &mut Page, file: &[u8], measures: &[i64])
    requires empty { page.old ≡ [] }
    requires few { records_of file.now ≤ 885 }
    ensures { page.new ≡ areas_text file.now measures.now (records_of file.now) }
{
    let mut s = walk::at_start();
    let mut a: usize = 0;
    for k in 0..walk::records_of(file) {
        let t = records::record_view(file, k + 1);
        if let Due::Area(..) = walk::due(s) {
            let m = measures.get(a).copied().unwrap_or(0);
            put_area(page, shown_of(s, t), m);
            a += 1;
        }
        s = walk::next(s, t);
    }
}

// ---- the programs' texts

// The bytes that are taken at most: 885 records.
const MOST: usize = 65490;

// What the judge is lent for up to 885 records: a record gives the table at most a row, and behind each A
// stands a loop record at least.
const WORDS: usize = walk::ROW_LENGTH * 885;

const PLACES: usize = 443;

// What `check` prints of an input: that text alone stands on the page then, whatever stood there.
pub fn check_text(input: &[u8], page: &mut Page)
    ensures { page.new ≡ check_text input.now }
{
    page.clear();
    if MOST < input.len() {
        put_too_long(page);
        return;
    }
    let mut table = [0u32; WORDS];
    let mut measures = [0i64; PLACES];
    let o = judge::load(input, &mut table, &mut measures);
    if o.number == 0 {
        put_ok(page, o);
    } else {
        put_refused(page, o);
    }
}

// What `measure` prints of an input, likewise. Kept beside `check_text`: each promises a text of its own.
pub fn measure_text(input: &[u8], page: &mut Page)
    ensures { page.new ≡ measure_text input.now }
{
    page.clear();
    if MOST < input.len() {
        put_too_long(page);
        return;
    }
    let mut table = [0u32; WORDS];
    let mut measures = [0i64; PLACES];
    let o = judge::load(input, &mut table, &mut measures);
    if o.number == 0 {
        put_areas(page, input, &measures);
    } else {
        put_refused(page, o);
    }
}

// ---- the programs

// The bytes that are read at most: one more than is taken.
const READ: usize = MOST + 1;

// The program `check` over what `source` gives. What it prints goes to `output`. Where a read fails nothing is
// judged; `errors` is told of it, and of a write that fails.
pub fn check<R: Read, W: Write, E: Write>(
    source: &mut R,
    output: &mut W,
    errors: &mut E,
) -> Result<(), Failed>
    ensures { OnOk result (IfSome (R.remaining source.old) (λ input. Appends (W.contents output.old) (W.contents output.new) (check_text input))) }
{
    let mut input = [0u8; READ];
    let n = streams::read_input(
        source,
        errors,
        &mut input,
        b"check: standard input: not everything could be read",
    )?;
    let mut page = Page::new();
    check_text(&input[..n], &mut page);
    streams::write_text(
        output,
        errors,
        page.text(),
        b"check: standard output: not everything could be written",
    )
}

// The program `measure`, likewise. Kept beside `check`: each promises a text of its own.
pub fn measure<R: Read, W: Write, E: Write>(
    source: &mut R,
    output: &mut W,
    errors: &mut E,
) -> Result<(), Failed>
    ensures { OnOk result (IfSome (R.remaining source.old) (λ input. Appends (W.contents output.old) (W.contents output.new) (measure_text input))) }
{
    let mut input = [0u8; READ];
    let n = streams::read_input(
        source,
        errors,
        &mut input,
        b"measure: standard input: not everything could be read",
    )?;
    let mut page = Page::new();
    measure_text(&input[..n], &mut page);
    streams::write_text(
        output,
        errors,
        page.text(),
        b"measure: standard output: not everything could be written",
    )
}
