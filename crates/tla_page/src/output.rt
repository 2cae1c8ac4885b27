//! The text of an explanation.

use crate::codes::text_of;
use crate::places::{Sources, source_name, source_text};
use std::alloc::{AllocError, Global};
use std::io::Write;
use tla_config::Source;
use tla_core::Place;
use tla_hints::{blanks, front, line_of, word_of};
use tla_value::Value;

/// The longest line of a file that is shown.
const LONGEST_LINE: usize = 500;

/// How many bytes of a value are shown.
const LONGEST_VALUE: usize = 160;

/// The text of an explanation. Once memory ran out, nothing more is added.
#[derive(Drop)]
pub struct Output {
    bytes: Vec<u8>,
    alloc: Global,
    /// Whether values are shown whole.
    full: bool,
    refused: bool,
}

impl Output {
    /// An empty output. With `full` it shows values whole, else it cuts long ones.
    pub fn new(alloc: Global, full: bool) -> Output {
        Output {
            bytes: Vec::new(alloc),
            alloc,
            full,
            refused: false,
        }
    }

    pub fn alloc(&self) -> Global {
        self.alloc
    }

    /// Whether values are shown whole.
    pub fn is_full(&self) -> bool {
        self.full
    }

    /// Whether nothing was added.
    pub fn is_empty(&self) -> bool {
        self.bytes.is_empty()
    }

    /// The bytes that were added. The only error is that memory ran out.
    pub fn bytes(&self) -> Result<&[u8], AllocError> {
        if self.refused {
            Err(AllocError)
        } else {
            Ok(self.bytes.as_slice())
        }
    }

    /// Records that memory ran out.
    pub fn refuse(&mut self) {
        self.refused = true;
    }

    /// Adds bytes.
    pub fn put_bytes(&mut self, bytes: &[u8]) {
        self.refused = self.refused || self.bytes.extend_from_slice(bytes).is_err();
    }

    /// Adds a text.
    pub fn put_text(&mut self, text: &str) {
        self.put_bytes(text.as_bytes());
    }

    /// Adds texts.
    pub fn put(&mut self, texts: &[&str]) {
        for text in texts {
            self.put_text(text);
        }
    }

    /// Adds a number.
    pub fn put_number(&mut self, number: u128) {
        self.refused = self.refused || write!(self.bytes, "{number}").is_err();
    }

    /// Adds a hint, of these texts.
    pub fn hint(&mut self, texts: &[&str]) {
        self.put_text("hint: ");
        self.put(texts);
        self.put_text("\n");
    }

    /// Adds the place that an editor jumps to: `Lock.tla:12:5: `.
    pub fn put_place(&mut self, sources: &Sources<'_>, source: Source, place: Place) {
        self.put_text(source_name(sources, source));
        self.put_text(":");
        self.put_number(u128::from(place.line));
        self.put_text(":");
        self.put_number(place.column);
        self.put_text(": ");
    }

    /// Adds the text of a value, or its beginning and the number of bytes that follow.
    pub fn put_value(&mut self, value: &Value) {
        self.put_value_within(value, LONGEST_VALUE);
    }

    /// Adds the text of a value. A text of more than `longest` bytes is cut, unless values are shown whole.
    pub fn put_value_within(&mut self, value: &Value, longest: usize) {
        let from = self.bytes.len();
        self.refused = self.refused || value.write_text(&mut self.bytes).is_err();
        if self.full {
            return;
        }
        let text = self.bytes.get(from..).unwrap_or(&[]);
        if let Some(shown) = shown_of(text, longest) {
            let more = text.len().saturating_sub(shown);
            self.bytes.truncate(from.saturating_add(shown));
            self.put_more(more);
        }
    }

    /// Whether this is the text of a value.
    pub fn is_text_of(&mut self, value: &Value, text: &[u8]) -> bool {
        let from = self.bytes.len();
        self.refused = self.refused || value.write_text(&mut self.bytes).is_err();
        let is_same = self.bytes.get(from..).is_some_and(|bytes| bytes == text);
        self.bytes.truncate(from);
        is_same
    }

    /// Adds the text of a value, or `..` if it has more than `longest` bytes.
    pub fn put_short_value(&mut self, value: &Value, longest: usize) {
        let from = self.bytes.len();
        self.refused = self.refused || value.write_text(&mut self.bytes).is_err();
        if self.bytes.len().saturating_sub(from) > longest {
            self.bytes.truncate(from);
            self.put_text("..");
        }
    }

    fn put_more(&mut self, more: usize) {
        self.put_text(" .. (");
        self.put_number(more as u128);
        self.put_text(" bytes more)");
    }

    /// Adds the line of a place, and a caret below each character of the word that begins there.
    pub fn show(&mut self, sources: &Sources<'_>, source: Source, place: Place) {
        if let Some(line) = line_of(source_text(sources, source), place.line)
            && line.len() <= LONGEST_LINE
        {
            let shown = line.strip_suffix(b"\r".as_slice()).unwrap_or(line);
            self.show_line(shown, place.column);
        }
    }

    fn show_line(&mut self, line: &[u8], column: u128) {
        let before = front(line, column);
        let rest = line.get(before.len()..).unwrap_or(&[]);
        self.put_bytes(line);
        self.put_text("\n");
        self.put_blanks(before);
        for _ in 0..word_of(rest).len().max(1) {
            self.put_text("^");
        }
        self.put_text("\n");
    }

    /// Adds blanks as wide as these bytes.
    fn put_blanks(&mut self, before: &[u8]) {
        match blanks(self.alloc, before) {
            Ok(blanks) => self.put_bytes(&blanks),
            Err(_) => self.refuse(),
        }
    }

    /// Adds the rule and the cure of a code.
    pub fn put_rule(&mut self, code: &str) {
        if let Some(text) = text_of(code) {
            self.put(&[text.rule, " ", text.cure, "\n"]);
        }
    }
}

/// How many bytes of a text are shown, if it is too long to be shown whole.
fn shown_of(text: &[u8], longest: usize) -> Option<usize> {
    if text.len() <= longest {
        return None;
    }
    let start = text.get(..longest)?;
    match str::from_utf8(start) {
        Ok(_) => Some(longest),
        Err(error) => Some(error.valid_up_to()),
    }
}
