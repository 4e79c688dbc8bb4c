//! Texts and byte strings that keep their allocator.
ghost use Rattle.std.specs.Prelude.{◌≡◌, ◌↔◌, ◌+◌, ◌<◌, ◌≤◌, [], ◌∷◌, ◌++◌, length, decimal, string_bytes, IsTrue, IfOk, OnOk, OnErr};

use crate::NoMemory;
use std::alloc::Global;
use std::marker::Model;

/// A text: bytes of UTF-8, with room kept for more.
#[derive(Debug, Drop)]
pub struct Text {
    text: String,
}

impl Model for Text {
    ghost use Rattle.std.specs.Prelude.{◌-◌, string_bytes, string_len, string_capacity};
    ghost use Rattle.blk_base.specs.Written.{Written};

    ghost Value = { Written };

    ghost view = { λ t. record {
      bytes = string_bytes t.text;
      spare = string_capacity t.text - string_len t.text;
    } };
}

impl Text {
    ghost use Rattle.blk_base.specs.Written.{memory_of};

    /// The empty text.
    pub fn new(alloc: Global) -> Self
        ensures { result.bytes ≡ [] }
    {
        Text {
            text: String::new(alloc),
        }
    }

    /// The empty text, with room for so many bytes.
    pub fn with_room(alloc: Global, room: usize) -> Result<Self, NoMemory>
        ensures empty { IfOk result (λ t. t.bytes ≡ []) }
        ensures room { IfOk result (λ t. room ≤ t.spare) }
    {
        let text = String::with_capacity(alloc, room)?;
        Ok(Text { text })
    }

    /// A copy of a text.
    pub fn copied(alloc: Global, text: &str) -> Result<Self, NoMemory>
        ensures { IfOk result (λ t. t.bytes ≡ text.now) }
    {
        let text = String::from_str(alloc, text)?;
        Ok(Text { text })
    }

    /// The text of a string, which is taken over with its memory.
    pub fn from_string(text: String) -> Self
        ensures { result.bytes ≡ string_bytes text }
    {
        Text { text }
    }

    /// The string of the text, with its memory.
    pub fn into_string(self) -> String
        ensures { string_bytes result ≡ self.bytes }
    {
        self.text
    }

    pub fn as_str(&self) -> &str
        ensures { result.now ≡ self.now.bytes }
    {
        self.text.as_str()
    }

    pub fn len(&self) -> usize
        ensures { result ≡ length self.now.bytes }
    {
        self.text.len()
    }

    pub fn is_empty(&self) -> bool
        ensures { IsTrue result ↔ (self.now.bytes ≡ []) }
    {
        self.text.is_empty()
    }

    /// Makes room for so many more bytes. After a refusal the text is as before.
    pub fn reserve(&mut self, more: usize) -> Result<(), NoMemory>
        ensures bytes { self.new.bytes ≡ self.old.bytes }
        ensures room { OnOk result (more ≤ self.new.spare) }
        ensures kept { self.old.spare ≤ self.new.spare }
        ensures only_where_needed { OnErr result (self.old.spare < more) }
        ensures err { OnErr result (self.new ≡ self.old) }
    {
        self.text.reserve(more)?;
        Ok(())
    }

    /// How many more bytes go in without taking memory.
    pub fn spare(&self) -> usize
        ensures { result ≡ self.now.spare }
    {
        self.text.capacity() - self.text.len()
    }

    /// Takes every byte out, and keeps the room.
    pub fn clear(&mut self)
        ensures empty { self.new.bytes ≡ [] }
        ensures room { self.new.spare ≡ self.old.spare + length self.old.bytes }
    {
        self.text.clear();
    }

    /// Puts a text at the end. Takes no memory.
    pub fn push_str(&mut self, text: &str)
        requires { length text.now ≤ self.old.spare }
        ensures bytes { self.new.bytes ≡ self.old.bytes ++ text.now }
        ensures room { self.old.spare ≤ self.new.spare + length text.now }
        ensures memory { memory_of self.old ≤ memory_of self.new }
    {
        self.text.push_str(text).unwrap();
    }

    /// Puts one character of ASCII at the end. Takes no memory.
    pub fn push_ascii(&mut self, byte: u8)
        requires ascii { byte < 128 }
        requires room { 0 < self.old.spare }
        ensures bytes { self.new.bytes ≡ self.old.bytes ++ byte ∷ [] }
        ensures room { self.old.spare ≤ self.new.spare + 1 }
        ensures memory { memory_of self.old ≤ memory_of self.new }
    {
        self.text.push(char::from(byte)).unwrap();
    }

    /// Puts a number at the end, in decimal. Takes no memory.
    pub fn push_number(&mut self, n: u64)
        requires { length (decimal n) ≤ self.old.spare }
        ensures bytes { self.new.bytes ≡ self.old.bytes ++ decimal n }
        ensures room { self.old.spare ≤ self.new.spare + length (decimal n) }
        ensures memory { memory_of self.old ≤ memory_of self.new }
    {
        let mut buffer = itoa::Buffer::new();
        self.push_str(buffer.format(n));
    }
}

/// Bytes of any kind.
#[derive(Debug, Drop)]
pub struct Bytes {
    bytes: Vec<u8>,
}

impl Model for Bytes {
    ghost use Rattle.std.specs.Prelude.{List, ℕ};

    ghost Value = { List ℕ };

    ghost view = { λ b. b.bytes.items };
}

impl Bytes {
    /// The bytes of a vector, which is taken over with its memory.
    pub fn from_vec(bytes: Vec<u8>) -> Self
        ensures { result ≡ bytes.items }
    {
        Bytes { bytes }
    }

    /// The vector of the bytes, with its memory.
    pub fn into_vec(self) -> Vec<u8>
        ensures { result.items ≡ self }
    {
        self.bytes
    }

    pub fn as_slice(&self) -> &[u8]
        ensures { result.now ≡ self.now }
    {
        self.bytes.as_slice()
    }

    pub fn len(&self) -> usize
        ensures { result ≡ length self.now }
    {
        self.bytes.len()
    }

    pub fn is_empty(&self) -> bool
        ensures { IsTrue result ↔ (self.now ≡ []) }
    {
        self.bytes.is_empty()
    }
}
