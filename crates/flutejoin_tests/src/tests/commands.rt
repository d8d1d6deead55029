//! Tests that call the parts of commands once, and compare what they write.

use super::*;
use flute_parts::{Info, MemorySink, MemorySource, SymbolId};
use flute_streams::Selection;
use flutejoin::{
    Asking, CommandFault, CompareStyle, Form, Listed, MAX_OBJECTS, MAX_SESSIONS, MAX_SYMBOLS,
    ShowStyle, Style, compare_from, compare_input, extract_to, fill_input, fill_to, forget_input,
    forget_list_to, forget_to, gaps_from, info_to, merge_to, minus_input, minus_to, packet_to,
    read_keys, sender_of, show_to,
};
use flutejoin_line::{Line, PacketLine, line_of};
use flutejoin_replicas::{MemoryAside, gaps_to, load, save_to};
use test_vectors::{bytes, journals};

#[test]
fn a_line_is_read(rt: HostRuntime) -> Result<(), Fail> {
    let words = ["packet".to_string(rt.alloc())?, "10".to_string(rt.alloc())?];
    assert!(rt;
        matches!(
            line_of(rt.alloc(), &words)?,
            Line::Packet(PacketLine { hex: "10", .. })
        )
    );
    Ok(())
}

#[test]
fn a_sender_is_named(rt: HostRuntime) {
    assert!(rt; sender_of("0A000001").is_some());
}

#[test]
fn a_packet_is_printed(rt: HostRuntime) -> Result<(), Fail> {
    let hex = "10A004000000000000000007000000010000000068656C6C";
    let mut sink = MemorySink::new(rt.alloc());
    packet_to(rt.alloc(), hex, Form::Json, &mut sink)?;
    let lines = "{\"tsi\":7}\n{\"toi\":\"1\"}\n{\"info\":null}\n\
        {\"symbol\":{\"sbn\":0,\"esi\":0,\"length\":4,\"bytes\":\"68656c6c\"}}\n";
    assert_eq!(rt; sink.as_slice(), lines.as_bytes());
    Ok(())
}

#[test]
fn a_journal_is_shown(rt: HostRuntime) -> Result<(), Fail> {
    let journal = bytes(rt.alloc(), journals::CONFLICT)?;
    let mut sink = MemorySink::new(rt.alloc());
    show_to(
        rt.alloc(),
        &mut MemorySource::new(&journal),
        &Selection::all(),
        ShowStyle {
            form: Form::Json,
            sums: true,
        },
        &mut sink,
    )?;
    let lines = "{\"tsi\":7,\"toi\":\"1\",\"info\":\"conflict\"}\n{\"entries\":1}\n";
    assert_eq!(rt; sink.as_slice(), lines.as_bytes());
    Ok(())
}

#[test]
fn an_object_of_a_list_is_shown(rt: HostRuntime) -> Result<(), Fail> {
    let journal = bytes(rt.alloc(), journals::CONFLICT)?;
    let mut list = MemorySource::new(b"session 7 object 2\n");
    let picks = Listed {
        listed: Some(read_keys(rt.alloc(), &mut list)?),
        picks: Selection::all(),
    };
    let mut sink = MemorySink::new(rt.alloc());
    show_to(
        rt.alloc(),
        &mut MemorySource::new(&journal),
        &picks,
        ShowStyle {
            form: Form::Plain,
            sums: false,
        },
        &mut sink,
    )?;
    assert_eq!(rt; sink.as_slice(), b"entries 0\n".as_slice());
    Ok(())
}

#[test]
fn a_journal_is_loaded(rt: HostRuntime) -> Result<(), Fail> {
    let journal = bytes(rt.alloc(), journals::WHOLE)?;
    let shelf = load(rt.alloc(), &mut MemorySource::new(&journal))?;
    let mut sink = MemorySink::new(rt.alloc());
    gaps_to(&shelf, &mut sink)?;
    assert!(rt; save_to(&shelf, &mut sink)? == 3);
    Ok(())
}

#[test]
fn gaps_are_printed_as_the_journal_is_read(rt: HostRuntime) -> Result<(), Fail> {
    let journal = bytes(rt.alloc(), journals::WHOLE)?;
    let mut sink = MemorySink::new(rt.alloc());
    let mut lines = MemoryAside::new(rt.alloc());
    let mut gap_lines = MemoryAside::new(rt.alloc());
    let mut source = MemorySource::new(&journal);
    let all_whole = gaps_from::<MAX_SESSIONS, MAX_OBJECTS, MAX_SYMBOLS, _, _, _, _>(
        rt.alloc(),
        &mut source,
        &Selection::all(),
        Style {
            check: false,
            summary: false,
            conflicts: false,
            ranges: false,
            form: Form::Plain,
        },
        &mut lines,
        &mut gap_lines,
        &mut sink,
    )?;
    assert!(rt; all_whole && !sink.as_slice().is_empty());
    Ok(())
}

#[test]
fn ranges_are_printed(rt: HostRuntime) -> Result<(), Fail> {
    let journal = bytes(rt.alloc(), journals::JOINED)?;
    for form in [Form::Plain, Form::Json] {
        let mut sink = MemorySink::new(rt.alloc());
        let mut lines = MemoryAside::new(rt.alloc());
        let mut gap_lines = MemoryAside::new(rt.alloc());
        let style = Style {
            check: false,
            summary: false,
            conflicts: false,
            ranges: true,
            form,
        };
        let all_whole = gaps_from::<MAX_SESSIONS, MAX_OBJECTS, MAX_SYMBOLS, _, _, _, _>(
            rt.alloc(),
            &mut MemorySource::new(&journal),
            &Selection::all(),
            style,
            &mut lines,
            &mut gap_lines,
            &mut sink,
        )?;
        let line = match form {
            Form::Plain => b"bytes 4-4\n".as_slice(),
            Form::Json => b"{\"first\":4,\"last\":4}\n".as_slice(),
        };
        assert!(rt; !all_whole && sink.as_slice().ends_with(line));
    }
    Ok(())
}

#[test]
fn sums_are_printed_of_a_session(rt: HostRuntime) -> Result<(), Fail> {
    let journal = bytes(rt.alloc(), journals::WHOLE)?;
    let mut sink = MemorySink::new(rt.alloc());
    let mut lines = MemoryAside::new(rt.alloc());
    let mut gap_lines = MemoryAside::new(rt.alloc());
    let style = Style {
        check: false,
        summary: true,
        conflicts: false,
        ranges: false,
        form: Form::Plain,
    };
    let all_whole = gaps_from::<MAX_SESSIONS, MAX_OBJECTS, MAX_SYMBOLS, _, _, _, _>(
        rt.alloc(),
        &mut MemorySource::new(&journal),
        &Selection::all(),
        style,
        &mut lines,
        &mut gap_lines,
        &mut sink,
    )?;
    assert!(rt;
        all_whole
            && sink
                .as_slice()
                .starts_with(b"session 7 objects 1 whole 1 partial 0")
    );
    Ok(())
}

#[test]
fn an_object_is_extracted(rt: HostRuntime) -> Result<(), Fail> {
    let key = file().ok_or("a key")?;
    let journal = bytes(rt.alloc(), journals::WHOLE)?;
    let mut source = MemorySource::new(&journal);
    let mut sink = MemorySink::new(rt.alloc());
    assert!(rt;
        extract_to::<MAX_SESSIONS, MAX_OBJECTS, MAX_SYMBOLS, _, _>(
            rt.alloc(),
            &mut source,
            &key,
            &mut sink
        )? == 5
    );
    Ok(())
}

#[test]
fn information_is_added(rt: HostRuntime) -> Result<(), Fail> {
    let key = file().ok_or("a key")?;
    let info = Info::new(5, 4, 2)?;
    let symbols = bytes(rt.alloc(), journals::SYMBOLS)?;
    let mut source = MemorySource::new(&symbols);
    let mut sink = MemorySink::new(rt.alloc());
    assert!(rt;
        info_to::<MAX_SESSIONS, MAX_OBJECTS, MAX_SYMBOLS, _, _>(
            rt.alloc(),
            &mut source,
            key,
            info,
            &mut sink
        )? == 3
    );
    Ok(())
}

#[test]
fn journals_are_merged(rt: HostRuntime) -> Result<(), Fail> {
    let journal = bytes(rt.alloc(), journals::WHOLE)?;
    let mut first = MemorySource::new(&journal);
    let mut second = MemorySource::new(&journal);
    let mut sink = MemorySink::new(rt.alloc());
    assert!(rt; merge_to(rt.alloc(), &mut first, &mut second, &mut sink)? == 3);
    Ok(())
}

#[test]
fn what_a_journal_lacks_is_written(rt: HostRuntime) -> Result<(), Fail> {
    let whole = bytes(rt.alloc(), journals::WHOLE)?;
    let symbols = bytes(rt.alloc(), journals::SYMBOLS)?;
    let mut input = minus_input(MemorySource::new(&whole), MemorySource::new(&symbols));
    let mut sink = MemorySink::new(rt.alloc());
    assert!(rt; minus_to(rt.alloc(), &mut input, &mut sink)? == 1);
    Ok(())
}

#[test]
fn what_is_asked_for_is_written(rt: HostRuntime) -> Result<(), Fail> {
    let journal = bytes(rt.alloc(), journals::WHOLE)?;
    for (asking, entries) in [(Asking::All, 3), (Asking::Only, 1)] {
        let lines = MemorySource::new(b"session 7 object 1 no information\n");
        let mut input = fill_input(MemorySource::new(&journal), lines, asking);
        let mut sink = MemorySink::new(rt.alloc());
        assert!(rt; fill_to(rt.alloc(), &mut input, &mut sink)? == entries);
    }
    Ok(())
}

#[test]
fn two_journals_are_compared(rt: HostRuntime) -> Result<(), Fail> {
    let whole = bytes(rt.alloc(), journals::WHOLE)?;
    let symbols = bytes(rt.alloc(), journals::SYMBOLS)?;
    let all = Selection::all();
    for summary in [false, true] {
        let mut lines = MemoryAside::new(rt.alloc());
        let mut sink = MemorySink::new(rt.alloc());
        let style = CompareStyle {
            check: true,
            summary,
            form: Form::Plain,
        };
        let same = compare_from(
            rt.alloc(),
            &mut compare_input(MemorySource::new(&whole), all),
            &mut compare_input(MemorySource::new(&symbols), all),
            style,
            &mut lines,
            &mut sink,
        )?;
        let line = if summary {
            b"session 7 objects 1 same 2 differ 0 first 0 second 0 information same 0".as_slice()
        } else {
            b"session 7 object 1 same 2 differ 0 first 0 second 0 information first\n".as_slice()
        };
        assert!(rt; same && sink.as_slice().starts_with(line));
    }
    Ok(())
}

#[test]
fn two_journals_are_compared_in_json(rt: HostRuntime) -> Result<(), Fail> {
    let whole = bytes(rt.alloc(), journals::WHOLE)?;
    let all = Selection::all();
    let mut lines = MemoryAside::new(rt.alloc());
    let mut sink = MemorySink::new(rt.alloc());
    let style = CompareStyle {
        check: false,
        summary: false,
        form: Form::Json,
    };
    let same = compare_from(
        rt.alloc(),
        &mut compare_input(MemorySource::new(&whole), all),
        &mut compare_input(MemorySource::new(&whole), all),
        style,
        &mut lines,
        &mut sink,
    )?;
    let line = b"{\"tsi\":7,\"toi\":\"1\",\"same\":2,".as_slice();
    assert!(rt; same && sink.as_slice().starts_with(line));
    Ok(())
}

#[test]
fn a_symbol_is_forgotten(rt: HostRuntime) -> Result<(), Fail> {
    let journal = bytes(rt.alloc(), journals::WHOLE)?;
    let mut selection = Selection::all();
    selection.symbol = Some(SymbolId { sbn: 0, esi: 1 });
    let mut input = forget_input(MemorySource::new(&journal), selection);
    let mut sink = MemorySink::new(rt.alloc());
    let counts = forget_to(rt.alloc(), &mut input, &mut sink)?;
    assert!(rt; counts.forgotten == 1 && counts.entries == 2);
    Ok(())
}

#[test]
fn an_object_of_a_list_is_forgotten(rt: HostRuntime) -> Result<(), Fail> {
    let journal = bytes(rt.alloc(), journals::WHOLE)?;
    let mut list = MemorySource::new(b"session 7 object 1 whole 5\n");
    let mut input = forget_input(MemorySource::new(&journal), Selection::all());
    let mut sink = MemorySink::new(rt.alloc());
    let counts = forget_list_to(rt.alloc(), &mut list, &mut input, &mut sink)?;
    assert!(rt; counts.forgotten == 3 && counts.entries == 0);
    Ok(())
}

#[test]
fn a_fault_has_its_text(rt: HostRuntime) -> Result<(), Fail> {
    let fault = CommandFault::CannotOpen(2);
    assert!(rt; fault.to_string(rt.alloc())?.as_str() == "cannot open input 2");
    assert!(rt; fault.status() == 3);
    Ok(())
}
