//! Lines that are written from left to right.

use som_model::{List, NoMemory, Text};
use std::alloc::Global;

/// So many bytes of a text are shown; of a longer one only their number is.
const MOST_SHOWN: usize = 200;

const DIGITS: &[u8; 16] = b"0123456789abcdef";

/// Lines so far, the last of which may be begun alone.
#[derive(Drop)]
pub(crate) struct Lines {
    bytes: Vec<u8>,
}

impl Lines {
    pub(crate) fn new(alloc: Global) -> Lines {
        Lines {
            bytes: Vec::new(alloc),
        }
    }

    pub(crate) fn into_bytes(self) -> List<u8> {
        let Lines { bytes } = self;
        List::from_vec(bytes)
    }

    pub(crate) fn add(&mut self, text: &str) -> Result<(), NoMemory> {
        Ok(self.bytes.extend_from_slice(text.as_bytes())?)
    }

    pub(crate) fn add_number(&mut self, number: usize) -> Result<(), NoMemory> {
        som_show::add_number(&mut self.bytes, number as u64)
    }

    /// Ends the line.
    pub(crate) fn end(&mut self) -> Result<(), NoMemory> {
        Ok(self.bytes.push(b'\n')?)
    }

    /// Adds a line that has its end.
    pub(crate) fn add_line(&mut self, line: &Text) -> Result<(), NoMemory> {
        Ok(self.bytes.extend_from_slice(line.as_slice())?)
    }

    /// Adds bytes as they are, but for those that can't be printed.
    pub(crate) fn add_bytes(&mut self, bytes: &[u8]) -> Result<(), NoMemory> {
        if bytes.len() > MOST_SHOWN {
            return self.add_length(bytes.len());
        }
        for byte in bytes {
            self.add_byte(*byte)?;
        }
        Ok(())
    }

    /// Adds a text between quotes, with its escapes.
    pub(crate) fn add_literal(&mut self, text: &[u8]) -> Result<(), NoMemory> {
        if text.len() > MOST_SHOWN {
            return self.add_length(text.len());
        }
        self.add("\"")?;
        for byte in text {
            self.add_escaped(*byte)?;
        }
        self.add("\"")
    }

    fn add_length(&mut self, len: usize) -> Result<(), NoMemory> {
        self.add("<")?;
        self.add_number(len)?;
        self.add(" bytes>")
    }

    fn add_escaped(&mut self, byte: u8) -> Result<(), NoMemory> {
        match byte {
            b'"' => self.add("\\\""),
            b'\\' => self.add("\\\\"),
            b'\n' => self.add("\\n"),
            b'\t' => self.add("\\t"),
            _ => self.add_byte(byte),
        }
    }

    fn add_byte(&mut self, byte: u8) -> Result<(), NoMemory> {
        if matches!(byte, b' '..=b'~') {
            return Ok(self.bytes.push(byte)?);
        }
        self.add("\\x")?;
        self.bytes.push(DIGITS[(byte / 16) as usize])?;
        Ok(self.bytes.push(DIGITS[(byte % 16) as usize])?)
    }
}
