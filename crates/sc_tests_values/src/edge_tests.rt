use sc_texts::{Failed, MemSink, MemSource, ReadError, Sink, Source, StdSink, StdSource, read_all};
use std::alloc::Global;
use std::mem::forget;
use std::process::Abort;

// Returns the number of bytes that one call reads.
fn read_len<S: Source>(alloc: Global, source: &mut S, most: u64) -> Result<usize, ReadError> {
    match read_all(alloc, source, most) {
        Ok(bytes) => Ok(bytes.len()),
        Err(error) => Err(error),
    }
}

// Returns how many bytes of "scatter" are read with this limit and then with 100, where these calls
// of the source fail.
fn two_reads(
    rt: &impl Abort,
    alloc: Global,
    failing: &[u64],
    most: u64,
) -> (Result<usize, ReadError>, Result<usize, ReadError>) {
    let mut source = MemSource::new(alloc, b"scatter", failing).expect(rt, "memory");
    let first = read_len(alloc, &mut source, most);
    let second = read_len(alloc, &mut source, 100);
    forget(source);
    (first, second)
}

#[test]
fn a_source_is_read_to_its_end_past_the_limit_or_until_it_fails(rt: HostRuntime) {
    let whole = two_reads(&rt, rt.alloc(), &[], 100);
    let parts = two_reads(&rt, rt.alloc(), &[], 3);
    assert!(rt; whole == (Ok(7), Ok(0)) && parts == (Ok(4), Ok(3)));
    let failed = Err(ReadError::Failed);
    let first = two_reads(&rt, rt.alloc(), &[1], 100).0;
    let second = two_reads(&rt, rt.alloc(), &[2], 100).0;
    assert!(rt; first == failed && second == failed);
}

// Writes two texts, and returns the first error.
fn put_twice<K: Sink>(sink: &mut K) -> Result<(), Failed> {
    match sink.put(b"first\n") {
        Ok(()) => sink.put(b"second\n"),
        Err(failed) => Err(failed),
    }
}

// Returns whether two writes end so, with this much room and these calls failing, and the sink then
// holds these bytes.
fn is_held(
    rt: &impl Abort,
    alloc: Global,
    (room, failing): (usize, &[u64]),
    end: Result<(), Failed>,
    held: &[u8],
) -> bool {
    let mut sink = MemSink::new(alloc, room, failing).expect(rt, "memory");
    let is_held = put_twice(&mut sink) == end && sink.held() == held;
    forget(sink);
    is_held
}

#[test]
fn a_sink_holds_what_was_put_before_it_failed(rt: HostRuntime) {
    let all = is_held(&rt, rt.alloc(), (13, &[]), Ok(()), b"first\nsecond\n");
    let no_room = is_held(&rt, rt.alloc(), (12, &[]), Err(Failed), b"first\n");
    let failed = is_held(&rt, rt.alloc(), (100, &[2]), Err(Failed), b"first\n");
    assert!(rt; all && no_room && failed);
}

#[test]
fn readers_and_writers_of_std_serve(rt: HostRuntime) {
    let mut source = StdSource::new(&b"scatter"[..]);
    let read = read_len(rt.alloc(), &mut source, 100);
    let mut room = [0u8; 13];
    let mut sink = StdSink::new(&mut room[..]);
    let puts = [put_twice(&mut sink), put_twice(&mut sink)];
    assert!(rt; read == Ok(7) && puts == [Ok(()), Err(Failed)]);
}
