// Pages, to which text is written piece by piece.
use itoa::Buffer;
use omega_kinds::Mem;
use std::alloc::Global;

// The most bytes that a page holds: 64 MiB.
const MOST: usize = 67108864;

/// A page of text, which grows with what is written, up to 64 MiB.
#[derive(Drop)]
pub struct Page {
    alloc: Global,
    bytes: Vec<u8>,
}

impl Page {
    /// A page with nothing on it. Takes no memory.
    pub fn new(alloc: Global) -> Page {
        Page {
            alloc,
            bytes: Vec::new(alloc),
        }
    }

    /// What the page takes its memory from.
    pub fn alloc(&self) -> Global {
        self.alloc
    }

    /// Writes a piece at the end. `Err` is out of memory, also where the page would be longer than 64 MiB.
    pub fn put(&mut self, piece: &[u8]) -> Result<(), Mem> {
        if piece.len() > MOST.saturating_sub(self.bytes.len()) {
            return Err(Mem);
        }
        self.bytes.extend_from_slice(piece)?;
        Ok(())
    }

    /// Writes pieces one after the other. `Err` is as in `put`.
    pub fn put_all(&mut self, pieces: &[&[u8]]) -> Result<(), Mem> {
        for piece in pieces {
            self.put(piece)?;
        }
        Ok(())
    }

    /// Writes a character. `Err` is as in `put`.
    pub fn put_char(&mut self, c: char) -> Result<(), Mem> {
        let mut buffer = [0u8; 4];
        self.put(c.encode_utf8(&mut buffer).as_bytes())
    }

    /// Writes a byte so many times. `Err` is as in `put`.
    pub fn put_times(&mut self, byte: u8, count: usize) -> Result<(), Mem> {
        for _ in 0..count {
            self.put(&[byte])?;
        }
        Ok(())
    }

    /// Writes a number in decimal. `Err` is as in `put`.
    pub fn put_number(&mut self, n: u64) -> Result<(), Mem> {
        let mut buffer = Buffer::new();
        self.put(buffer.format(n).as_bytes())
    }

    /// What is written on the page.
    pub fn bytes(&self) -> &[u8] {
        self.bytes.as_slice()
    }

    /// What was written on the page.
    pub fn into_bytes(self) -> Vec<u8> {
        self.bytes
    }
}
