//! Each public call of `flute_journal` and `flute_streams` once. Worked examples are in
//! `trials/journal`.

mod datagram_files;
mod reading;
mod stores;
mod streams;

use flute_journal::{laws, *};
use flute_parts::{Key, ObjectKey, Sender, SessionKey};
use flute_store::Store;
use flute_streams::*;
use std::test::Fail;

/// More than any of the journals here needs.
type Small = Store<4, 4, 4>;

/// The bound of journals that are not refused for it.
const MANY: u64 = 16_777_216;

/// File 1 of session 7 of the sender 0.
fn file() -> Option<Key> {
    let session = SessionKey::new(Sender::new(0), 7)?;
    let object = ObjectKey::file(1)?;
    Some(Key { session, object })
}

#[test]
fn laws_can_be_called() {
    laws::a_journal_is_its_content();
    laws::bytes_are_a_journal_or_stop();
    laws::bytes_are_a_file_or_stop();
    flute_streams::laws::merging_merged_is_merging_all();
    flute_streams::laws::minus_is_what_a_join_needs();
    flute_streams::laws::a_comparison_tells_of_the_join();
}
