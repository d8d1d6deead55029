//! Writes one stream as a journal.
ghost use Rattle.std.specs.Prelude.{◌≡◌, ◌+◌, ◌<◌, ◌^◌, IfOk, IfErr};
ghost use Rattle.flute_streams.specs.OneStream.{FailsAs, StopsAs, WritesAll, WritesPart};
ghost use Rattle.flute_streams.specs.StreamMerges.{streams_sink_failed};
ghost use Rattle.flute_streams.specs.Streams.{IsNew};

use crate::merge::all_streams::merge_all;
use crate::merge::streams_fault::StreamsFault;
use crate::streams::stream::Stream;
use flute_parts::Sink;
use std::alloc::Global;

/// Appends the journal of what a stream gives, as `merge_all` does, and returns the number of its
/// entries.
///
/// # Errors
///
/// Those of `merge_all`, and what it says of them: the stream has the number 0.
pub fn write_stream<S: Stream, W: Sink>(
    alloc: Global,
    stream: &mut S,
    sink: &mut W,
) -> Result<u64, StreamsFault>
    requires new { IsNew S.behaviour stream.old }
    requires few { S.behaviour.most stream.old < 2 ^ 64 }
    ensures written { IfOk result (WritesAll S.behaviour stream.old stream.new
        (W.written sink.old) (W.written sink.new)) }
    ensures short { IfErr result
        (λ _. WritesPart S.behaviour stream.old (W.written sink.old) (W.written sink.new)) }
    ensures fault { IfErr result (StopsAs S.behaviour stream.old) }
    ensures failures { FailsAs S.behaviour stream.old stream.new result }
    ensures sink_failures { W.failures sink.new ≡ W.failures sink.old + streams_sink_failed result }
{
    let mut one = &mut *stream;
    // `within` is not used, so the limits are 0, and nothing is counted
    match merge_all::<0, 0, 0, _, _>(alloc, &mut one, sink) {
        Ok(merged) => Ok(merged.entries),
        Err(fault) => Err(fault),
    }
}
