// Where lines are printed, and where it is told what failed.
use arrayvec::ArrayString;
use std::fmt::{Display, Write};
use std::io::{Error, Stderr, Stdout};

// What failed, a read or a line's write, has been told on standard error where it failed.
#[derive(Clone, Copy, Debug)]
pub(crate) struct Failed;

// The room of a line. No line that is told of a message has as many bytes; of one that had, what does not fit would be left out.
const WIDTH: usize = 120;

const SPACES: &str = "                                                            ";

// A line on its way to be printed, which grows to the right. It stays on the stack, so that no line needs memory that may be missing.
#[derive(Clone, Copy)]
pub(crate) struct Line {
    text: ArrayString<WIDTH>,
}

impl Line {
    pub(crate) fn blank() -> Line {
        Line {
            text: ArrayString::new(),
        }
    }

    pub(crate) fn add<D: Display + Drop>(&mut self, words: D) {
        let _ = self.text.write(words);
    }

    // The next words begin at this column, or a space after what is there.
    pub(crate) fn column(&mut self, column: usize) {
        let spaces = column.saturating_sub(self.text.len()).max(1);
        self.add(SPACES.get(..spaces).unwrap_or(" "));
    }
}

#[derive(Clone, Copy)]
pub(crate) struct Streams {
    pub out: Stdout,
    pub err: Stderr,
}

impl Streams {
    pub(crate) fn say<D: Display + Drop>(self, line: D) -> Result<(), Failed> {
        self.out
            .println(line)
            .map_err(|error| self.fails("write", error))
    }

    pub(crate) fn print(self, mut line: Line) -> Result<(), Failed> {
        line.add("\n");
        self.out
            .write_all(line.text.as_str().as_bytes())
            .map_err(|error| self.fails("write", error))
    }

    // What failed, and why.
    pub(crate) fn fails(self, what: &str, error: Error) -> Failed {
        self.complain(format_args!("{what}: {error}"));
        Failed
    }

    // What stands on standard error makes the status of whoever runs the program (tools/run). What it does not take is lost: there is nowhere
    // else to tell it.
    pub(crate) fn complain<D: Display + Drop>(self, line: D) {
        let _ = self.err.println(line);
    }
}
