//! Two streams, compared object by object.
ghost use Rattle.std.specs.Prelude.{◌≡◌, ◌<◌, ◌^◌, [], OnOk, OnErr, IfOk, IfErr};
ghost use Rattle.flute_streams.specs.Streams.{IsNew, address_of};
ghost use Rattle.flute_streams.specs.Compares.{ComparedAs, GoesOnBoth, StopsComparing, StopsOne};
ghost use Rattle.flute_streams.specs.Compares.{IsSideOf, Tells, TellsBefore};
ghost use Rattle.flute_streams.specs.Counting.{counted, meeting_of, row_for, to_tell};

use crate::merge::lowest::{is_same, order_of};
use crate::merge::sides::{Meeting, Row, Rows, Side};
use crate::merge::streams_fault::{InputFault, StreamsFault};
use crate::streams::stream::Stream;
use flute_parts::DeviceFault;
use std::alloc::Global;
use std::cmp::Ordering;

// What both hold at the lowest address.
#[inline(always)]
fn meet<S: Stream, T: Stream>(first: &S, second: &T) -> Option<Meeting>
    ensures { result ≡ meeting_of (S.behaviour.held first.now) (T.behaviour.held second.now) }
{
    match (first.address(), second.address()) {
        (Some(place), Some(other)) => Some(match order_of(Some(place), Some(other)) {
            Ordering::Less => Meeting {
                at: *place,
                side: Side::First,
            },
            Ordering::Greater => Meeting {
                at: *other,
                side: Side::Second,
            },
            Ordering::Equal => Meeting {
                at: *place,
                side: side_of_both(first, second),
            },
        }),
        (Some(place), None) => Some(Meeting {
            at: *place,
            side: Side::First,
        }),
        (None, Some(other)) => Some(Meeting {
            at: *other,
            side: Side::Second,
        }),
        (None, None) => None,
    }
}

// Whether what both hold at one address is the same.
#[inline(always)]
fn side_of_both<S: Stream, T: Stream>(first: &S, second: &T) -> Side
    requires place { address_of (S.behaviour.held first.now)
        ≡ address_of (T.behaviour.held second.now) }
    ensures { IsSideOf (S.behaviour.held first.now) (T.behaviour.held second.now) result }
{
    match (first.head(), second.head()) {
        (Some(one), Some(other)) => {
            if is_same(&one, &other) {
                Side::Same
            } else {
                Side::Differ
            }
        }
        _ => Side::Differ,
    }
}

// The row that is counted on, once two sides met. The one before it is told if it was of another
// object.
#[inline(always)]
fn count<V: Rows>(row: Option<Row>, meeting: &Meeting, rows: &mut V) -> Result<Row, DeviceFault>
    ensures row { IfOk result (λ next.
        next ≡ counted (row_for row meeting.now.at.key) meeting.now) }
    ensures told { OnOk result (V.takes rows.old (to_tell row meeting.now.at.key) rows.new) }
    ensures failed { OnErr result (V.fails rows.old rows.new) }
{
    let Some(row) = row else {
        return Ok(Row::new(meeting.at.key).counted(meeting));
    };
    if let Ordering::Equal = row.key.cmp(&meeting.at.key) {
        return Ok(row.counted(meeting));
    }
    rows.row(row)?;
    Ok(Row::new(meeting.at.key).counted(meeting))
}

// Advances those that have a fact there.
#[inline(always)]
fn go_on<S: Stream, T: Stream>(
    alloc: Global,
    first: &mut S,
    second: &mut T,
    side: Side,
) -> Result<(), StreamsFault>
    ensures goes_on { OnOk result (GoesOnBoth S.behaviour T.behaviour side
        first.old second.old first.new second.new) }
    ensures stops { IfErr result (StopsOne S.behaviour T.behaviour side
        first.old second.old first.new second.new) }
{
    if !matches!(side, Side::Second) {
        if let Err(fault) = first.advance(alloc) {
            return Err(StreamsFault::Input(InputFault { number: 0, fault }));
        }
    }
    if !matches!(side, Side::First) {
        if let Err(fault) = second.advance(alloc) {
            return Err(StreamsFault::Input(InputFault { number: 1, fault }));
        }
    }
    Ok(())
}

/// Tells of each object that one of two streams has, in their order, how many symbols both have,
/// the same or not, how many only the one or the other, and which has its information. It takes no
/// memory of its own.
///
/// # Errors
///
/// - `Input` with the number of the stream, 0 or 1, and the fault that it met;
/// - `Write` if a row was not taken. No more is read then.
pub fn compare_to<S: Stream, T: Stream, V: Rows>(
    alloc: Global,
    first: &mut S,
    second: &mut T,
    rows: &mut V,
) -> Result<(), StreamsFault>
    requires first { IsNew S.behaviour first.old }
    requires second { IsNew T.behaviour second.old }
    requires first_few { S.behaviour.most first.old < 2 ^ 64 }
    requires second_few { T.behaviour.most second.old < 2 ^ 64 }
    ensures compared { OnOk result (Tells V.takes (ComparedAs S.behaviour T.behaviour
        first.old second.old first.new second.new []) rows.old rows.new) }
    ensures fault { IfErr result (StopsComparing S.behaviour T.behaviour
        first.old second.old first.new second.new) }
    ensures rows { IfErr result (TellsBefore V.takes V.fails rows.old rows.new) }
{
    go_on(alloc, first, second, Side::Same)?;
    let mut row = None;
    while let Some(meeting) = meet(first, second) {
        row = match count(row, &meeting, rows) {
            Ok(row) => Some(row),
            Err(_) => return Err(StreamsFault::Write),
        };
        go_on(alloc, first, second, meeting.side)?;
    }
    match row {
        Some(row) => match rows.row(row) {
            Ok(()) => Ok(()),
            Err(_) => Err(StreamsFault::Write),
        },
        None => Ok(()),
    }
}
