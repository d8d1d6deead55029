//! What reads bytes that were put aside.
ghost use Rattle.flute_asides.specs.Readers.{left_to_read};

use std::io::{self, Read};

/// Bytes that were put aside: in a file, or in memory.
#[derive(Drop)]
pub enum AsideReader<F, H> {
    /// All that the file has.
    File(F),
    /// None went to a file.
    Held(H),
}

impl<F: Read, H: Read> Read for AsideReader<F, H> {
    ghost remaining = { left_to_read F.remaining H.remaining };

    fn read(&mut self, buf: &mut [u8]) -> io::Result<usize> {
        match self {
            AsideReader::File(file) => file.read(buf),
            AsideReader::Held(bytes) => bytes.read(buf),
        }
    }
}
