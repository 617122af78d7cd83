//! The lines that are written, one for each call.

use std::alloc::Global;
use std::fmt::{Debug, Write};

/// A call that gave no value. It has no `Debug`, so that each fault that has one can become it.
#[derive(Drop)]
pub struct NoValue;

impl<E: Debug + Drop> From<E> for NoValue {
    fn from(_fault: E) -> NoValue {
        NoValue
    }
}

/// The lines so far, and whether a call had no value.
#[derive(Drop)]
pub struct Table {
    text: String,
    is_ended: bool,
}

impl Table {
    /// No lines.
    pub fn new(alloc: Global) -> Table {
        Table {
            text: String::new(alloc),
            is_ended: false,
        }
    }

    /// A call and its value. The table ends at the first call that has none.
    pub fn put<T: Debug + Drop, E: Drop>(&mut self, call: &str, value: Result<T, E>) {
        match value {
            Ok(value) => self.tell(call, &value),
            Err(_) => self.end(),
        }
    }

    /// A call and its value, which is a text and stands as it is.
    pub fn put_text<E: Drop>(&mut self, call: &str, text: Result<String, E>) {
        match text {
            Ok(text) => self.line(call, text.as_str()),
            Err(_) => self.end(),
        }
    }

    /// The same where the text comes as bytes, with its ends of lines written as `\n`.
    pub fn put_bytes<E: Drop>(&mut self, call: &str, bytes: Result<Vec<u8>, E>) {
        match bytes {
            Ok(bytes) => match str::from_utf8(&bytes) {
                Ok(text) => self.tell(call, &text),
                Err(_) => self.end(),
            },
            Err(_) => self.end(),
        }
    }

    /// A call that always has a value.
    pub fn tell<T: Debug>(&mut self, call: &str, value: &T) {
        if !self.is_ended {
            self.is_ended = writeln!(self.text, "{call}: {value:?}").is_err();
        }
    }

    // A line of two texts.
    fn line(&mut self, call: &str, text: &str) {
        if !self.is_ended {
            self.is_ended = writeln!(self.text, "{call}: {text}").is_err();
        }
    }

    /// No more lines.
    pub fn end(&mut self) {
        self.is_ended = true;
    }

    /// Whether a call had no value.
    pub fn is_ended(&self) -> bool {
        self.is_ended
    }

    /// All lines.
    pub fn text(&self) -> &str {
        self.text.as_str()
    }
}
