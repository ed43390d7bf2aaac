//! Whole runs with and without a fault, in memory and over real files.
use outside::{
    Bytes, FileFault, FolderShelf, MemoryShelf, MemorySink, Shelf, Sink, StreamSink, SureShelf,
    SureSink, Words, read_file, write_all,
};
use std::alloc::{AllocError, Global};
use std::fs;
use std::test::Fail;

fn are_words(words: &Words) -> bool {
    words.len() == 2 && !words.is_empty() && words.get(1) == "größe.txt"
}

fn two_words(alloc: Global) -> Result<Words, AllocError> {
    let mut words = Words::new(alloc);
    words.push("extract")?;
    words.push("größe.txt")?;
    Ok(words)
}

fn nine_bytes(alloc: Global) -> Result<Bytes, AllocError> {
    let mut bytes = Bytes::new(alloc);
    bytes.append(b"line 7: ")?;
    bytes.push(b'X')?;
    Ok(bytes)
}

fn are_nine(bytes: &Bytes) -> bool {
    bytes.len() == 9 && !bytes.is_empty() && bytes.slice() == b"line 7: X".as_slice()
}

#[test]
fn words_and_bytes_keep_what_they_are_given(rt: HostRuntime) -> Result<(), Fail> {
    assert!(rt; are_words(&two_words(rt.alloc())?));
    assert!(rt; are_nine(&nine_bytes(rt.alloc())?));
    Ok(())
}

// Bytes that differ from their neighbours, past two pieces of a read.
fn long_bytes(alloc: Global) -> Result<Bytes, AllocError> {
    let mut bytes = Bytes::new(alloc);
    for i in 0..140_000u32 {
        bytes.push((i % 251) as u8)?;
    }
    Ok(bytes)
}

// What reading these bytes as a file of at most `limit` gives, over a shelf that does not fail.
fn read_within(alloc: Global, bytes: &[u8], limit: u64) -> Result<Bytes, FileFault> {
    let mut shelf = SureShelf::new(alloc);
    if shelf.holds("file") || shelf.add_file("file", bytes).is_err() {
        return Err(FileFault::NoMemory);
    }
    read_file(alloc, &mut shelf, "file", limit)
}

fn is_read(answer: &Result<Bytes, FileFault>, want: &[u8]) -> bool {
    match answer {
        Ok(bytes) => bytes.slice() == want,
        Err(_) => false,
    }
}

fn is_fault(answer: &Result<Bytes, FileFault>, want: FileFault) -> bool {
    match answer {
        Ok(_) => false,
        Err(fault) => *fault == want,
    }
}

// The front of the bytes is read where its length is the limit, and too long where the limit is one less.
fn is_read_to_its_limit(alloc: Global, bytes: &[u8], len: usize) -> bool {
    if len > bytes.len() {
        return false;
    }
    let front = &bytes[..len];
    let limit = len as u64;
    is_read(&read_within(alloc, front, limit), front)
        && (limit == 0 || is_fault(&read_within(alloc, front, limit - 1), FileFault::TooLong))
}

#[test]
fn files_are_read_to_their_limit(rt: HostRuntime) -> Result<(), Fail> {
    let long = long_bytes(rt.alloc())?;
    for len in [0, 1, 65_535, 65_536, 65_537, 140_000] {
        assert!(rt;
            is_read_to_its_limit(rt.alloc(), long.slice(), len),
            "a limit of {len}"
        );
    }
    Ok(())
}

// What reading a file of three bytes gives where this call fails.
fn read_failing(alloc: Global, name: &str, call: u64) -> Result<Bytes, FileFault> {
    let mut shelf = MemoryShelf::new(alloc);
    if shelf.holds("file")
        || shelf.add_file("file", b"abc").is_err()
        || shelf.fail_at(call).is_err()
    {
        return Err(FileFault::NoMemory);
    }
    read_file(alloc, &mut shelf, name, 9)
}

#[test]
fn a_shelf_fails_at_the_chosen_call(rt: HostRuntime) {
    // One call begins the file, one gives its bytes, and one finds its end.
    for call in [1, 2, 3] {
        assert!(rt; is_fault(&read_failing(rt.alloc(), "file", call), FileFault::Read));
    }
    assert!(rt; is_fault(&read_failing(rt.alloc(), "nowhere", 2), FileFault::Absent));
    assert!(rt; is_read(&read_failing(rt.alloc(), "file", 4), b"abc"));
}

// A sink with this text, of which it took at most so many bytes a call until this call failed.
fn written_failing(alloc: Global, most: usize, call: u64) -> Result<MemorySink, AllocError> {
    let mut sink = MemorySink::new(alloc, most);
    sink.fail_at(call)?;
    let _stopped = write_all(&mut sink, b"abcde").is_err();
    Ok(sink)
}

fn is_left(alloc: Global, most: usize, call: u64, text: &str) -> Result<bool, AllocError> {
    Ok(written_failing(alloc, most, call)?.written() == text.as_bytes())
}

fn is_written(alloc: Global, text: &[u8]) -> bool {
    let mut sink = SureSink::new(alloc);
    write_all(&mut sink, text).is_ok() && sink.written() == text
}

#[test]
fn a_sink_takes_its_part_and_fails_at_the_chosen_call(rt: HostRuntime) -> Result<(), Fail> {
    for (most, call, text) in [
        (0, 3, "ab"),
        (1, 9, "abcde"),
        (2, 3, "abcd"),
        (4, 1, ""),
        (8, 2, "abcde"),
    ] {
        assert!(rt; is_left(rt.alloc(), most, call, text)?, "{text}");
    }
    assert!(rt; is_written(rt.alloc(), b"abc"));
    Ok(())
}

fn gives_fault<S: Shelf>(alloc: Global, shelf: &mut S, name: &str, want: FileFault) -> bool {
    is_fault(&read_file(alloc, shelf, name, 7), want)
}

#[test]
fn real_files_are_read(rt: HostRuntime) -> Result<(), Fail> {
    let name = "outside_folder_shelf.txt";
    fs::write(&rt, name, "one,two\n")?;
    let mut shelf = FolderShelf::new(&rt);
    assert!(rt; is_read(&read_file(rt.alloc(), &mut shelf, name, 8), b"one,two\n"));
    // A folder opens and cannot be read; a name that leads through a file does not open.
    for (name, fault) in [
        (name, FileFault::TooLong),
        ("outside_no_such_file.txt", FileFault::Absent),
        (".", FileFault::Read),
        ("outside_folder_shelf.txt/name", FileFault::Read),
    ] {
        assert!(rt; gives_fault(rt.alloc(), &mut shelf, name, fault), "{name}");
    }
    fs::remove_file(&rt, name)?;
    Ok(())
}

fn takes<W: Sink>(sink: &mut W, text: &[u8]) -> bool {
    write_all(sink, text).is_ok()
}

#[test]
fn real_files_are_written(rt: HostRuntime) -> Result<(), Fail> {
    let name = "outside_stream_sink.txt";
    let mut sink = StreamSink::new(fs::create(&rt, name)?);
    assert!(rt; takes(&mut sink, b"events 2\n"));
    assert!(rt; sink.write(b"").is_ok());
    let text = fs::read_to_string(&rt, name)?;
    assert!(rt; text.as_str() == "events 2\n");
    // A file that was opened to be read takes nothing.
    let mut closed = StreamSink::new(fs::open(&rt, name)?);
    assert!(rt; !takes(&mut closed, b"x"));
    fs::remove_file(&rt, name)?;
    Ok(())
}
