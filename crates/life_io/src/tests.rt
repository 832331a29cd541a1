use crate::reading::read_text;
use crate::writing::write_piece;
use crate::{
    Depot, FetchError, HostDepot, HostSink, MemDepot, MemSink, NamedText, PutError, PutFail, Sink,
};
use std::alloc::{AllocError, Global};
use std::io::{ErrorKind, Read, Write};
use std::test::Fail;
use std::{fs, io};

/// The answer of any depot, and what it gives after the byte that the buffer holds before.
fn fetched<D: Depot>(
    alloc: Global,
    depot: &mut D,
    name: &str,
    limit: usize,
) -> Result<(Result<(), FetchError>, Vec<u8>), AllocError> {
    let mut into = vec![in alloc; b'>']?;
    let answer = depot.fetch(name, limit, &mut into);
    Ok((answer, into))
}

fn put_to<K: Sink>(sink: &mut K, bytes: &[u8]) -> Result<(), PutError> {
    sink.put(bytes)
}

fn named(alloc: Global, name: &str, text: &str) -> Result<NamedText, AllocError> {
    Ok(NamedText {
        name: String::from_str(alloc, name)?,
        text: Vec::from_slice(alloc, text.as_bytes())?,
    })
}

#[test]
fn fetches_from_memory(rt: HostRuntime) -> Result<(), Fail> {
    let alloc = rt.alloc();
    let mut texts = Vec::new(alloc);
    texts.push(named(alloc, "a", "first")?)?;
    texts.push(named(alloc, "a", "second")?)?;
    let mut depot = MemDepot::new(texts, vec![in alloc; 2u64]?);
    let (answer, into) = fetched(alloc, &mut depot, "a", 5)?;
    assert_eq!(rt; answer, Ok(()));
    assert_eq!(rt; into.as_slice(), b">first".as_slice());
    let (answer, into) = fetched(alloc, &mut depot, "a", 5)?;
    assert_eq!(rt; answer, Err(FetchError::Failed));
    assert_eq!(rt; into.as_slice(), b">".as_slice());
    assert_eq!(rt; depot.faults(), 1);
    let (answer, into) = fetched(alloc, &mut depot, "a", 3)?;
    assert_eq!(rt; answer, Err(FetchError::TooLong));
    assert_eq!(rt; into.as_slice(), b">firs".as_slice());
    let (answer, _) = fetched(alloc, &mut depot, "b", 5)?;
    assert_eq!(rt; answer, Err(FetchError::Failed));
    assert_eq!(rt; depot.faults(), 2);
    Ok(())
}

#[test]
fn puts_to_memory(rt: HostRuntime) -> Result<(), Fail> {
    let alloc = rt.alloc();
    let mut sink = MemSink::new(
        alloc,
        vec![in alloc;
            PutFail { call: 2, after: 1 },
            PutFail { call: 3, after: 9 },
        ]?,
    );
    assert_eq!(rt; put_to(&mut sink, b"ab"), Ok(()));
    assert_eq!(rt; sink.faults(), 0);
    assert_eq!(rt; put_to(&mut sink, b"cd"), Err(PutError::Failed));
    assert_eq!(rt; put_to(&mut sink, b"ef"), Err(PutError::Failed));
    assert_eq!(rt; put_to(&mut sink, b"gh"), Ok(()));
    assert_eq!(rt; sink.bytes(), b"abcefgh".as_slice());
    assert_eq!(rt; sink.faults(), 2);
    Ok(())
}

#[test]
fn fetches_a_file(rt: HostRuntime) -> Result<(), Fail> {
    let alloc = rt.alloc();
    fs::write(&rt, "held", vec![in alloc; b'x'; 40000]?.as_slice())?;
    let mut depot = HostDepot::new(rt);
    let (answer, into) = fetched(alloc, &mut depot, "held", 40000)?;
    assert_eq!(rt; answer, Ok(()));
    assert_eq!(rt; into.len(), 40001);
    let (answer, into) = fetched(alloc, &mut depot, "held", 39999)?;
    assert_eq!(rt; answer, Err(FetchError::TooLong));
    assert_eq!(rt; into.len(), 40001);
    let (answer, into) = fetched(alloc, &mut depot, "missing", 1)?;
    assert_eq!(rt; answer, Err(FetchError::Failed));
    assert_eq!(rt; into.as_slice(), b">".as_slice());
    Ok(())
}

#[test]
fn puts_to_a_stream(rt: HostRuntime) {
    assert_eq!(rt; put_to(&mut HostSink::output(rt), b"out\n"), Ok(()));
    assert_eq!(rt; put_to(&mut HostSink::error(rt), b"err\n"), Ok(()));
}

/// A stream that takes or gives one byte at a time, and has an error at one call.
#[derive(Drop)]
struct Faulty {
    calls: u8,
    error_at: u8,
}

impl Faulty {
    fn count(&mut self) -> io::Result<usize> {
        self.calls = self.calls.saturating_add(1);
        if self.calls == self.error_at {
            return Err(io::Error::from(ErrorKind::Interrupted));
        }
        Ok(1)
    }
}

impl Read for Faulty {
    fn read(&mut self, buf: &mut [u8]) -> io::Result<usize> {
        Ok(self.count()?.min(buf.len()))
    }
}

impl Write for Faulty {
    fn write(&mut self, buf: &[u8]) -> io::Result<usize> {
        Ok(self.count()?.min(buf.len()))
    }

    fn flush(&mut self) -> io::Result<()> {
        Ok(())
    }
}

#[test]
fn each_error_is_a_fault(rt: HostRuntime) {
    let mut into = Vec::new(rt.alloc());
    let mut stream = Faulty {
        calls: 0,
        error_at: 3,
    };
    assert_eq!(rt;
        read_text(&mut stream, 9, &mut into),
        Err(FetchError::Failed)
    );
    assert_eq!(rt; into.len(), 2);
    let mut stream = Faulty {
        calls: 0,
        error_at: 3,
    };
    assert_eq!(rt; write_piece(&mut stream, b"abcd"), Err(PutError::Failed));
    assert_eq!(rt; stream.calls, 3);
}
