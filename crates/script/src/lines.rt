// The lines of a script or a ring that say something. Blank lines and lines that begin with # do not.
use std::iter::{Iterator, Zip};
use std::ops::RangeFrom;
use std::str::Lines;

// Each line that says something, with its number, counted from 1, and without the blanks around it.
#[derive(Drop)]
pub(crate) struct Statements<'a> {
    lines: Zip<RangeFrom<usize>, Lines<'a>>,
}

impl<'a> Statements<'a> {
    // Those of a text, from its first line on.
    pub(crate) fn new(text: &'a str) -> Statements<'a> {
        Statements {
            lines: (1..).zip(text.lines()),
        }
    }
}

impl<'a> Iterator for Statements<'a> {
    type Item = (usize, &'a str);

    ghost remaining = { λ s. ⟦<Zip<RangeFrom<usize>, Lines<'a>> as Iterator>⟧.remaining s.lines };

    // The next one.
    fn next(&mut self) -> Option<(usize, &'a str)> {
        self.lines.find_map(|(number, line)| {
            let words = line.trim();
            says_something(words).then_some((number, words))
        })
    }
}

// Whether a line is neither blank nor a remark.
fn says_something(words: &str) -> bool {
    !words.is_empty() && !words.starts_with('#')
}
