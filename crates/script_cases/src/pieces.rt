// How the source and the sink in memory cut bytes into pieces, which each case asks of them.
use anyhow::Result;
use outside_mem::{Failing, MemorySink, MemorySource};
use std::alloc::{AllocError, Global};
use vm_outside::{Failed, Sink, Source};

/// `abcde` read and then written in pieces of at most so many bytes: a bar before each piece, and a cross for each call
/// that was to fail.
pub fn pieces_of(alloc: Global, most: usize, fails: &[u64]) -> Result<String> {
    let bytes = Vec::from_slice(alloc, b"abcde")?;
    let mut source = MemorySource::new(bytes, most, Failing::new(Vec::from_slice(alloc, fails)?));
    let mut sink = MemorySink::new(alloc, most, Failing::new(Vec::from_slice(alloc, fails)?));
    let read = read_pieces(alloc, &mut source)?;
    let wrote = written_pieces(alloc, &mut sink)?;
    let read = str::from_utf8(&read)?;
    let wrote = str::from_utf8(&wrote)?;
    Ok(format!(in alloc; "{read} {wrote}")?)
}

fn read_pieces<S: Source>(alloc: Global, source: &mut S) -> Result<Vec<u8>, AllocError> {
    let mut seen = Vec::new(alloc);
    for _ in 0..7 {
        let mut buf = [0; 8];
        match source.read(&mut buf) {
            Ok(count) => {
                seen.push(b'|')?;
                seen.extend_from_slice(&buf[..count])?;
            }
            Err(Failed) => seen.push(b'x')?,
        }
    }
    Ok(seen)
}

fn written_pieces<K: Sink>(alloc: Global, sink: &mut K) -> Result<Vec<u8>, AllocError> {
    let mut seen = Vec::new(alloc);
    let mut rest = b"abcde".as_slice();
    for _ in 0..7 {
        match sink.write(rest) {
            Ok(count) => {
                seen.push(b'|')?;
                seen.extend_from_slice(&rest[..count])?;
                rest = &rest[count..];
            }
            Err(Failed) => seen.push(b'x')?,
        }
    }
    Ok(seen)
}
