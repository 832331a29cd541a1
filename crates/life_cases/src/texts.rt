//! Texts by name, and how one is made of others.

use life_cells::NoMemory;
use life_io::NamedText;
use std::alloc::{AllocError, Global};

/// Texts, each with a name of its own.
#[derive(Drop)]
pub struct Texts {
    list: Vec<NamedText>,
}

impl Texts {
    /// No texts.
    pub fn new(alloc: Global) -> Texts {
        Texts {
            list: Vec::new(alloc),
        }
    }

    /// The text of that name.
    pub fn get(&self, name: &str) -> Option<&[u8]> {
        for held in &self.list {
            if held.name.as_str() == name {
                return Some(held.text.as_slice());
            }
        }
        None
    }

    /// Keeps a text; one of the same name is gone.
    pub fn set(&mut self, alloc: Global, name: &str, text: Vec<u8>) -> Result<(), NoMemory> {
        self.list.retain(|held| held.name.as_str() != name);
        let name = String::from_str(alloc, name)?;
        self.list.push(NamedText { name, text })?;
        Ok(())
    }
}

/// The bytes that a line means: `\n`, `\r`, `\t` and `\v` are a line feed, a carriage return, a tab and a vertical tab, `\s` is a
/// space, and any other byte behind a `\` is itself.
pub fn unescaped(alloc: Global, line: &str) -> Result<Vec<u8>, AllocError> {
    let mut bytes = Vec::new(alloc);
    let mut is_escaped = false;
    for byte in line.bytes() {
        if is_escaped {
            bytes.push(escaped(byte))?;
            is_escaped = false;
        } else if byte == b'\\' {
            is_escaped = true;
        } else {
            bytes.push(byte)?;
        }
    }
    Ok(bytes)
}

fn escaped(byte: u8) -> u8 {
    match byte {
        b'n' => b'\n',
        b'r' => b'\r',
        b't' => b'\t',
        b'v' => 0x0b,
        b's' => b' ',
        other => other,
    }
}

/// The base's lines with one of them, counted from 1, put another way; a line past the last comes behind it.
pub fn with_line(
    alloc: Global,
    base: &str,
    place: usize,
    line: &[u8],
) -> Result<Vec<u8>, AllocError> {
    let mut text = Vec::new(alloc);
    let mut number = 0_usize;
    for kept in base.lines() {
        number = number.saturating_add(1);
        let said = if number == place {
            line
        } else {
            kept.as_bytes()
        };
        text.extend_from_slice(said)?;
        text.push(b'\n')?;
    }
    if place > number {
        text.extend_from_slice(line)?;
        text.push(b'\n')?;
    }
    Ok(text)
}

/// The first lines of the base, so many of them.
pub fn cut(alloc: Global, base: &str, count: usize) -> Result<Vec<u8>, AllocError> {
    let mut text = Vec::new(alloc);
    for line in base.lines().take(count) {
        text.extend_from_slice(line.as_bytes())?;
        text.push(b'\n')?;
    }
    Ok(text)
}

/// A text so many times.
pub fn times(alloc: Global, count: usize, text: &[u8]) -> Result<Vec<u8>, AllocError> {
    let mut all = Vec::new(alloc);
    for _time in 0..count {
        all.extend_from_slice(text)?;
    }
    Ok(all)
}

/// A line for each number from the first to the last, which stands in the place of each `#`.
pub fn numbered(alloc: Global, first: u32, last: u32, line: &str) -> Result<Vec<u8>, AllocError> {
    let mut text = String::new(alloc);
    for number in first..=last {
        for letter in line.chars() {
            if letter == '#' {
                write!(text, "{number}")?;
            } else {
                text.push(letter)?;
            }
        }
        text.push('\n')?;
    }
    Ok(text.into_bytes())
}
