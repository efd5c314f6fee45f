// Each argument names a file of data/: its name, and what the programs `check` and `measure` print of it.
#![tactic(auto)]

use std::env::FillError;
use std::fs::File;
use std::io::{Error, ErrorKind, Write};
use std::rt::{Env, Files};
use streams::Failed;

// Opens a file for one program. Where that fails, `errors` is told.
fn opened<R: Files, E: Write>(rt: &R, errors: &mut E, name: &[u8]) -> Result<R::File, Failed> {
    let opened = match str::from_utf8(name) {
        Ok(path) => File::open(rt, path),
        Err(_) => Err(Error::from(ErrorKind::InvalidFilename)),
    };
    opened.map_err(|why| streams::tell(errors, name, &why))
}

// Both programs over one file.
fn both<R: Files, W: Write, E: Write>(rt: &R, output: &mut W, errors: &mut E, name: &[u8]) {
    let _ = output.write_all(name);
    let _ = output.write_all(b":\n");
    if let Ok(mut first) = opened(rt, errors, name) {
        let _ = report::check(&mut first, output, errors);
    }
    if let Ok(mut second) = opened(rt, errors, name) {
        let _ = report::measure(&mut second, output, errors);
    }
}

fn main(rt: HostRuntime) {
    let mut output = rt.stdout();
    let mut errors = rt.stderr();
    for k in 1..usize::MAX {
        let mut name = [0u8; 64];
        let n = match rt.arg(k, &mut name) {
            Ok(n) => n,
            Err(FillError::TooLong) => 0,
            Err(FillError::NotPresent) => break,
        };
        both(&rt, &mut output, &mut errors, &name[..n]);
    }
}
