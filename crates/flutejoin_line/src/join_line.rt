//! The line of `join`. What it is read of is in `join_words.rt`: a record with a ghost field may
//! not name what is defined of it.
ghost use Rattle.std.specs.Prelude.{◌≤◌, length};

use crate::limit::Limit;
use crate::target::Target;
use flute_parts::Sender;
use flute_streams::Scope;

/// Join what the journals and datagram files `inputs`, 1 to 64 of them, have of the objects of
/// `scope` into a journal, without those that the file `without` lists. The datagrams of the files
/// are of this sender, and about `memory` bytes of them may be held in memory. `reasons` is whether
/// it is told why any are refused.
#[derive(Drop)]
pub struct JoinLine<'a> {
    pub target: Target<'a>,
    pub limit: Limit,
    pub memory: u64,
    pub sender: Sender,
    pub scope: Scope,
    pub without: Option<&'a str>,
    pub reasons: bool,
    pub inputs: Vec<&'a str>,
    pub ghost few: { length inputs.items ≤ 64 },
}
