//! The lines of a file of cases: some make texts, and the others are cases.

use crate::calls::call;
use crate::runs::Fails;
use crate::texts::{Texts, cut, numbered, times, unescaped, with_line};
use life_cells::NoMemory;
use life_io::{Depot, PutFail};
use life_steps::Steps;
use std::alloc::Global;
use std::sync::ledger::Ledger;

/// The most bytes of a file.
const MOST_BYTES: usize = 16_777_216;

/// The name of the text that a case is about.
const CASE: &str = "it";

/// What the lines so far have said.
#[derive(Drop)]
pub struct Cases {
    alloc: Global,
    /// The texts so far.
    texts: Texts,
    /// The name of the text that `line` and `cut` begin with.
    base: String,
    /// What `line`, `cut` and `text` run.
    words: String,
    /// What fails in the next run.
    fails: Fails,
}

impl Cases {
    /// Nothing is said yet.
    pub fn new(alloc: Global) -> Cases {
        Cases {
            alloc,
            texts: Texts::new(alloc),
            base: String::new(alloc),
            words: String::new(alloc),
            fails: Fails::new(alloc),
        }
    }

    /// What the file of that name answers.
    pub fn answers<D: Depot, L: Ledger>(
        &mut self,
        depot: &mut D,
        name: &str,
        steps: &mut Steps<L>,
    ) -> Result<String, NoMemory> {
        let mut report = format!(in self.alloc; "== {name}\n")?;
        let mut bytes = Vec::new(self.alloc);
        if depot.fetch(name, MOST_BYTES, &mut bytes).is_err() {
            report.push_str("bad file\n")?;
            return Ok(report);
        }
        let Ok(text) = str::from_utf8(&bytes) else {
            report.push_str("bad file\n")?;
            return Ok(report);
        };
        for line in text.lines() {
            if !line.is_empty() && !line.starts_with('#') {
                write!(report, "> {line}\n")?;
                if !self.take(depot, line, &mut report, steps)? {
                    report.push_str("bad case\n")?;
                }
            }
        }
        Ok(report)
    }

    /// Does what a line says; whether it says something.
    fn take<D: Depot, L: Ledger>(
        &mut self,
        depot: &mut D,
        line: &str,
        report: &mut String,
        steps: &mut Steps<L>,
    ) -> Result<bool, NoMemory> {
        let (word, rest) = line.split_once(' ').unwrap_or((line, ""));
        if word == "load" {
            return self.load(depot, rest);
        }
        if word == "run" {
            return call(
                self.alloc,
                &self.texts,
                &mut self.fails,
                rest,
                report,
                steps,
            );
        }
        if !self.make(word, rest)? {
            return Ok(self.fails.take(word, rest)?);
        }
        if word == "line" || word == "cut" || word == "text" {
            let words = self.words.as_str();
            return call(
                self.alloc,
                &self.texts,
                &mut self.fails,
                words,
                report,
                steps,
            );
        }
        Ok(true)
    }

    /// Reads a file as the text of its name.
    fn load<D: Depot>(&mut self, depot: &mut D, name: &str) -> Result<bool, NoMemory> {
        let mut bytes = Vec::new(self.alloc);
        if depot.fetch(name, MOST_BYTES, &mut bytes).is_err() {
            return Ok(false);
        }
        self.texts.set(self.alloc, name, bytes)?;
        Ok(true)
    }

    /// Does what a line says that makes a text, or chooses one; whether it says something.
    fn make(&mut self, word: &str, rest: &str) -> Result<bool, NoMemory> {
        match word {
            "base" => self.base = String::from_str(self.alloc, rest)?,
            "words" => self.words = String::from_str(self.alloc, rest)?,
            "text" => return self.keep(CASE, Some(unescaped(self.alloc, rest)?)),
            "line" => return self.edit(CASE, rest),
            "cut" => return self.cut(rest),
            _ => {
                let (name, rest) = rest.split_once(' ').unwrap_or((rest, ""));
                return self.make_named(word, name, rest);
            }
        }
        Ok(true)
    }

    /// Makes a text with a name; whether the line says one.
    fn make_named(&mut self, word: &str, name: &str, rest: &str) -> Result<bool, NoMemory> {
        match word {
            "edit" => self.edit(name, rest),
            "make" => self.keep(name, Some(unescaped(self.alloc, rest)?)),
            "join" => self.join(name, rest),
            "times" => self.times(name, rest),
            "numbered" => self.numbered(name, rest),
            _ => Ok(false),
        }
    }

    /// Keeps a text, where there is one; whether there is.
    fn keep(&mut self, name: &str, text: Option<Vec<u8>>) -> Result<bool, NoMemory> {
        match text {
            Some(text) => {
                self.texts.set(self.alloc, name, text)?;
                Ok(true)
            }
            None => Ok(false),
        }
    }

    /// The base with one line put another way.
    fn edit(&mut self, name: &str, rest: &str) -> Result<bool, NoMemory> {
        let (place, line) = rest.split_once(' ').unwrap_or((rest, ""));
        let Ok(place) = place.parse::<usize>() else {
            return Ok(false);
        };
        let Some(base) = text_of(&self.texts, self.base.as_str()) else {
            return Ok(false);
        };
        let line = unescaped(self.alloc, line)?;
        let text = with_line(self.alloc, base, place, &line)?;
        self.keep(name, Some(text))
    }

    /// The first lines of the base.
    fn cut(&mut self, count: &str) -> Result<bool, NoMemory> {
        let Ok(count) = count.parse::<usize>() else {
            return Ok(false);
        };
        let Some(base) = text_of(&self.texts, self.base.as_str()) else {
            return Ok(false);
        };
        let text = cut(self.alloc, base, count)?;
        self.keep(CASE, Some(text))
    }

    /// Texts, one behind the other.
    fn join(&mut self, name: &str, others: &str) -> Result<bool, NoMemory> {
        let mut all = Vec::new(self.alloc);
        for other in others.split_whitespace() {
            let Some(text) = self.texts.get(other) else {
                return Ok(false);
            };
            all.extend_from_slice(text)?;
        }
        self.keep(name, Some(all))
    }

    /// A text so many times.
    fn times(&mut self, name: &str, rest: &str) -> Result<bool, NoMemory> {
        let Some((count, other)) = rest.split_once(' ') else {
            return Ok(false);
        };
        let Ok(count) = count.parse::<usize>() else {
            return Ok(false);
        };
        let Some(text) = self.texts.get(other) else {
            return Ok(false);
        };
        let all = times(self.alloc, count, text)?;
        self.keep(name, Some(all))
    }

    /// A line for each of some numbers.
    fn numbered(&mut self, name: &str, rest: &str) -> Result<bool, NoMemory> {
        let Some((first, rest)) = rest.split_once(' ') else {
            return Ok(false);
        };
        let Some((last, line)) = rest.split_once(' ') else {
            return Ok(false);
        };
        let (Ok(first), Ok(last)) = (first.parse::<u32>(), last.parse::<u32>()) else {
            return Ok(false);
        };
        let text = numbered(self.alloc, first, last, line)?;
        self.keep(name, Some(text))
    }
}

/// The text of that name, where its bytes are letters.
fn text_of<'a>(texts: &'a Texts, name: &str) -> Option<&'a str> {
    str::from_utf8(texts.get(name)?).ok()
}
