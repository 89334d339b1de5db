// Where a program prints its lines, and where it tells what failed.
use saying::Said;
use std::fmt;
use std::io::Error;

// A script that cannot be read, or a line that cannot be written, ends the run.
#[derive(Clone, Copy)]
pub(crate) enum Failed {
    Read(Error),
    Write(Error),
}

impl fmt::Display for Failed {
    fn fmt<W: fmt::Write>(&self, f: &mut fmt::Formatter<W>) -> fmt::Result {
        match self {
            Failed::Read(error) => write!(f, "read: {error}"),
            Failed::Write(error) => write!(f, "write: {error}"),
        }
    }
}

#[derive(Drop)]
pub(crate) struct Streams<O: Print, E: Print> {
    pub out: O,
    pub err: E,
}

impl<O: Print, E: Print> Streams<O, E> {
    // The line with its answer behind it. One that is not understood is told on standard error too, since the status is made of what stands
    // there (tools/run).
    pub(crate) fn answered(&self, line: &[u8], answer: Option<Said>) -> Result<(), Failed> {
        if answer.is_none() {
            self.complain(b"not understood: ", line);
        }
        self.print(line)?;
        self.print(b" :")?;
        self.print(answer.unwrap_or_else(Said::not_understood).as_bytes())?;
        self.print(b"\n")
    }

    pub(crate) fn print(&self, s: &[u8]) -> Result<(), Failed> {
        self.out.write_all(s).map_err(Failed::Write)
    }

    pub(crate) fn complain(&self, words: &[u8], line: &[u8]) {
        let _ = self.err.write_all(words);
        let _ = self.err.write_all(line);
        let _ = self.err.write_all(b"\n");
    }
}
