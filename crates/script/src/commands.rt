// A script: one call to a line. Blank lines and lines that begin with # say nothing.
ghost use Rattle.std.specs.Prelude.{◌≤◌, IfOk};

use crate::hex::spelled;
use crate::lines::Statements;
use crate::problems::{Problem, Wrong};
use crate::sizes::MOST_SECTORS;
use std::alloc::Global;
use std::fmt;
use std::str::SplitWhitespace;

// Where the text of a write comes from.
#[derive(Drop)]
pub enum Source {
    Bytes(Vec<u8>),
    File(String),
}

// Where the text of a read goes.
#[derive(Drop)]
pub enum Target {
    Nowhere,
    Shown,
    File(String),
}

// A call as a line has it.
// Kept: an enum of its own beside the calls on a card, which have bytes where a line names a file, the sectors to make or where a text goes.
#[derive(Drop)]
pub enum Command {
    Format {
        sectors: usize,
        number: Vec<u8>,
    },
    Open,
    Write {
        sector: usize,
        key: usize,
        text: Source,
    },
    Read {
        sector: usize,
        to: Target,
    },
    Rekey {
        sector: usize,
        key: usize,
    },
    Copy {
        from: usize,
        to: usize,
    },
    Erase {
        sector: usize,
    },
}

// A call and the number of its line, counted from 1.
#[derive(Drop)]
pub struct Line {
    pub line: usize,
    pub command: Command,
}

// The words of a line, read from left to right. What is wrong with one is told with the number of the line.
#[derive(Drop)]
struct Words<'a> {
    heap: Global,
    line: usize,
    words: SplitWhitespace<'a>,
}

impl<'a> Words<'a> {
    // The next word.
    fn word(&mut self) -> Result<&'a str, Problem> {
        self.words.next().ok_or(Wrong::TooFewWords.on(self.line))
    }

    // The next word as a number.
    fn number(&mut self) -> Result<usize, Problem> {
        let word = self.word()?;
        word.parse().map_err(|_| Wrong::NotANumber.on(self.line))
    }

    // The next word as a number of sectors that a format may ask for.
    fn sectors(&mut self) -> Result<usize, Problem>
        ensures { IfOk result (λ n. n ≤ 65536) }
    {
        let sectors = self.number()?;
        if sectors > MOST_SECTORS {
            return Err(Wrong::TooManySectors.on(self.line));
        }
        Ok(sectors)
    }

    // The next word as the bytes that it spells.
    fn bytes(&mut self) -> Result<Vec<u8>, Problem> {
        let word = self.word()?;
        self.spelled(word)
    }

    // The bytes that a word of hexadecimal digits spells.
    fn spelled(&self, word: &str) -> Result<Vec<u8>, Problem> {
        spelled(self.heap, word, self.line)
    }

    // The next word as a text's source: the file that it names after an @, or the bytes that it spells.
    fn source(&mut self) -> Result<Source, Problem> {
        let word = self.word()?;
        match word.strip_prefix('@') {
            Some(name) => Ok(Source::File(String::from_str(self.heap, name)?)),
            None => Ok(Source::Bytes(self.spelled(word)?)),
        }
    }

    // The next word as a place for a text, which is nowhere if there is no word more.
    fn target(&mut self) -> Result<Target, Problem> {
        match self.words.next() {
            None => Ok(Target::Nowhere),
            Some("show") => Ok(Target::Shown),
            Some(word) => match word.strip_prefix('@') {
                Some(name) => Ok(Target::File(String::from_str(self.heap, name)?)),
                None => Err(Wrong::TooManyWords.on(self.line)),
            },
        }
    }

    // Refuses a word too many.
    fn end(&mut self) -> Result<(), Problem> {
        match self.words.next() {
            None => Ok(()),
            Some(_) => Err(Wrong::TooManyWords.on(self.line)),
        }
    }

    // The call that the first word names, with the words that it needs.
    fn command(&mut self) -> Result<Command, Problem> {
        match self.words.next() {
            Some("format") => Ok(Command::Format {
                sectors: self.sectors()?,
                number: self.bytes()?,
            }),
            Some("open") => Ok(Command::Open),
            Some("write") => Ok(Command::Write {
                sector: self.number()?,
                key: self.number()?,
                text: self.source()?,
            }),
            Some("read") => Ok(Command::Read {
                sector: self.number()?,
                to: self.target()?,
            }),
            Some("rekey") => Ok(Command::Rekey {
                sector: self.number()?,
                key: self.number()?,
            }),
            Some("copy") => Ok(Command::Copy {
                from: self.number()?,
                to: self.number()?,
            }),
            Some("erase") => Ok(Command::Erase {
                sector: self.number()?,
            }),
            _ => Err(Wrong::UnknownCall.on(self.line)),
        }
    }
}

// The call of a line.
fn parse_command(heap: Global, text: &str, line: usize) -> Result<Command, Problem> {
    let mut words = Words {
        heap,
        line,
        words: text.split_whitespace(),
    };
    let command = words.command()?;
    words.end()?;
    Ok(command)
}

// The calls of a script. A wrong line is told by its number.
pub fn parse_script(heap: Global, text: &str) -> Result<Vec<Line>, Problem> {
    let mut lines = Vec::new(heap);
    for (line, words) in Statements::new(text) {
        let command = parse_command(heap, words, line)?;
        lines.push(Line { line, command })?;
    }
    Ok(lines)
}

// The call as a script writes it, without its text.
impl fmt::Display for Command {
    fn fmt<W: fmt::Write>(&self, f: &mut fmt::Formatter<W>) -> fmt::Result {
        match self {
            Command::Format { sectors, .. } => write!(f, "format {sectors}"),
            Command::Open => f.write_str("open"),
            Command::Write { sector, key, .. } => write!(f, "write {sector} {key}"),
            Command::Read { sector, .. } => write!(f, "read {sector}"),
            Command::Rekey { sector, key } => write!(f, "rekey {sector} {key}"),
            Command::Copy { from, to } => write!(f, "copy {from} {to}"),
            Command::Erase { sector } => write!(f, "erase {sector}"),
        }
    }
}
