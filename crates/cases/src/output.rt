// The standard output by the library `io`, as a handle for std's macros.
use std::fmt;
use std::fmt::{Display, Write};
use std::io::{Error, ErrorKind};

// Not std's own handle: that rests on errno of the C library too, `io` on write alone.
#[derive(Clone, Copy)]
pub struct Output;

// A piece whose write fails is passed over: the run goes on, and the pieces behind it are written where the output takes them.
fn write(bytes: &[u8]) {
    io::write_all(1, bytes);
}

impl fmt::Write for Output {
    fn write_str(&mut self, s: &str) -> fmt::Result {
        write(s.as_bytes());
        Ok(())
    }
}

fn failed(_error: fmt::Error) -> Error {
    Error::from(ErrorKind::Other)
}

impl Print for Output {
    fn print<D: Display + Drop>(&self, value: D) -> std::io::Result<()> {
        let mut out = *self;
        write!(out, "{value}").map_err(failed)
    }

    fn println<D: Display + Drop>(&self, value: D) -> std::io::Result<()> {
        let mut out = *self;
        writeln!(out, "{value}").map_err(failed)
    }

    fn write_all(&self, bytes: &[u8]) -> std::io::Result<()> {
        write(bytes);
        Ok(())
    }
}
