//! The index of the worked scripts: a line for each call of the program.

use std::alloc::{AllocError, Global};

/// A call of the program: its name, the file of its script, its words, and what fails in it.
#[derive(Drop)]
pub struct Case {
    pub name: String,
    pub script: String,
    pub words: Vec<String>,
    pub failing: Failing,
}

/// Which calls of the source or of the sink fail, by their numbers from 0 on.
#[derive(Clone, Copy, PartialEq, Eq)]
pub enum Failing {
    Nothing,
    Read(u64),
    Write(u64),
    /// The call is made again and again, and each of its reads fails in turn.
    EachRead,
    /// The same of its writes.
    EachWrite,
}

/// The call that a line tells as `NAME | SCRIPT | WORDS`, with a fourth part `read N` or `write N` where that one fails, or
/// `each read` or `each write`. `None` for a line that tells no call, such as a comment's.
pub fn case_of(alloc: Global, line: &str) -> Result<Option<Case>, AllocError> {
    if line.starts_with('#') {
        return Ok(None);
    }
    let mut parts = line.split('|');
    let (Some(name), Some(script), Some(words)) = (parts.next(), parts.next(), parts.next()) else {
        return Ok(None);
    };
    let fault = words_of(alloc, parts.next().unwrap_or(""))?;
    Ok(Some(Case {
        name: String::from_str(alloc, name.trim())?,
        script: String::from_str(alloc, script.trim())?,
        words: words_of(alloc, words)?,
        failing: what_fails(&fault),
    }))
}

fn words_of(alloc: Global, text: &str) -> Result<Vec<String>, AllocError> {
    let mut words = Vec::new(alloc);
    for word in text.split_whitespace() {
        words.push(String::from_str(alloc, word)?)?;
    }
    Ok(words)
}

// What the words of a fault tell.
fn what_fails(fault: &[String]) -> Failing {
    let [first, second] = fault else {
        return Failing::Nothing;
    };
    match (first.as_str(), second.as_str()) {
        ("each", "read") => Failing::EachRead,
        ("each", "write") => Failing::EachWrite,
        (end, number) => call_that_fails(end, number.parse::<u64>().unwrap_or(0)),
    }
}

fn call_that_fails(end: &str, number: u64) -> Failing {
    match end {
        "read" => Failing::Read(number),
        "write" => Failing::Write(number),
        _ => Failing::Nothing,
    }
}
