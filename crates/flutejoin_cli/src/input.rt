//! An input of a command: a file, standard input, or bytes that were put aside.

use flute_asides::{AsideReader, SystemAsides, UnnamedFile};
use flute_parts::BufferedSource;
use std::fs::File;
use std::io::{self, BufReader, Cursor, Read};
use std::rt::Stdin;

/// How many bytes of one input are read at once.
const BUFFER: usize = 131_072;

/// How many bytes of all inputs are held: more would not fit a processor's own cache.
const BUFFERS: usize = 1_048_576;

/// How many bytes of an input are read at once, however many inputs there are.
const LEAST_BUFFER: usize = 16_384;

pub type Input<'a> = BufferedSource<Reader<'a>>;

type UnnamedInput<'a> = UnnamedFile<SystemAsides<'a, HostRuntime>>;

/// A file, standard input, or bytes that were put aside.
#[derive(Drop)]
pub enum Reader<'a> {
    File(File),
    StandardInput(Stdin),
    Aside(AsideReader<UnnamedInput<'a>, Cursor<Vec<u8>>>),
}

impl Read for Reader<'_> {
    fn read(&mut self, buf: &mut [u8]) -> io::Result<usize> {
        match self {
            Reader::File(file) => file.read(buf),
            Reader::StandardInput(stdin) => stdin.read(buf),
            Reader::Aside(bytes) => bytes.read(buf),
        }
    }
}

/// An input, one of so many, which share the memory for reading. None if there is no memory for it.
pub fn input_of<'a>(rt: &HostRuntime, reader: Reader<'a>, among: usize) -> Option<Input<'a>> {
    let capacity = (BUFFERS / among.max(1)).max(LEAST_BUFFER).min(BUFFER);
    match BufReader::with_capacity(rt.alloc(), capacity, reader) {
        Ok(reader) => Some(BufferedSource::new(reader)),
        Err(_) => None,
    }
}
