// The lines that are printed of each turn.
use crate::page::{Failed, Line, Streams};

// Where the columns of a line begin.
const WAY: usize = 13;

const MESSAGE: usize = 26;

pub(crate) const ANSWER: usize = 48;

pub(crate) const PHASE: usize = 56;

// Where the lines are printed, the milliseconds since the start, and the blocks of the file.
#[derive(Clone, Copy)]
pub(crate) struct View {
    pub to: Streams,
    pub quiet: bool,
    pub clock: u64,
    pub blocks: u64,
}

impl View {
    // The same view at another time.
    pub(crate) fn at(self, clock: u64) -> View {
        View { clock, ..self }
    }

    // The headings of the columns.
    pub(crate) fn heading(self) -> Result<(), Failed> {
        let mut line = Line::blank();
        line.add("       time");
        line.column(WAY);
        line.add("way");
        line.column(MESSAGE);
        line.add("message");
        line.column(ANSWER);
        line.add("answer");
        line.column(PHASE);
        line.add("who answers, and where it then stands");
        self.print(line)
    }

    // The start of a line: the time, and the direction of the message or what is told in its place.
    pub(crate) fn line(self, way: &str) -> Line {
        let mut line = Line::blank();
        line.add(format_args!("{:>8} ms", self.clock));
        line.column(WAY);
        line.add(way);
        line.column(MESSAGE);
        line
    }

    // An end has found the silence limit reached.
    pub(crate) fn silence(self, words: &str) -> Result<(), Failed> {
        let mut line = self.line("silence");
        line.add(words);
        self.print(line)
    }

    pub(crate) fn print(self, line: Line) -> Result<(), Failed> {
        if self.quiet {
            return Ok(());
        }
        self.to.print(line)
    }
}
