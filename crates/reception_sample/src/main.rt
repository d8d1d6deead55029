//! A program over the libraries: two stations receive a file, and each loses another datagram.
//!
//! A packet is read (`packets`), each station's store takes datagrams, and the file comes out of
//! both stores together (`stores`), the journals of both stations are merged (`journals`), and
//! replicas that are given the same write equal journals (`replicas`).
#![tactic(auto)]

mod journals;
mod packets;
mod replicas;
mod stores;

use anyhow::{Context, Result};
use flute_parts::{Info, Key, ObjectKey, Sender, SessionKey};
use flute_wire::carousel;
use journals::{journal_of, store_of_both};
use packets::tell_packet;
use replicas::tell_replicas;
use stores::{store_without, tell_object};

/// The file that is sent: 17 bytes.
const CONTENT: &[u8] = b"a file of symbols";

fn main(rt: HostRuntime) -> Result<()> {
    let sender = Sender::v4(0x0A00_0001);
    let session = SessionKey::new(sender, 7).context("a session")?;
    let object = ObjectKey::file(1).context("a file")?;
    let key = Key { session, object };
    // 5 symbols of 4 bytes, of which the last has 1, in blocks of up to 3 symbols
    let info = Info::new(CONTENT.len() as u64, 4, 3)?;
    let datagrams = carousel(rt.alloc(), &key, &info, CONTENT)?;
    tell_packet(&rt, &datagrams)?;

    let first = store_without(rt.alloc(), sender, &datagrams, 1)?;
    let second = store_without(rt.alloc(), sender, &datagrams, 4)?;
    tell_object(&rt, &first, &key)?;
    tell_object(&rt, &second, &key)?;

    let first = journal_of(rt.alloc(), &first)?;
    let second = journal_of(rt.alloc(), &second)?;
    let both = store_of_both(rt.alloc(), first.as_slice(), second.as_slice())?;
    tell_object(&rt, &both, &key)?;
    tell_replicas(&rt, sender, &datagrams)
}
