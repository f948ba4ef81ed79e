// The bytes that a case stands for, and bytes as text.
use std::alloc::{AllocError, Global};

/// The text with the bytes that `\r`, `\n` and `\0` stand for.
pub fn unescaped(alloc: Global, text: &str) -> Result<String, AllocError> {
    let text = text.replace(alloc, "\\r", "\r")?;
    let text = text.replace(alloc, "\\n", "\n")?;
    text.replace(alloc, "\\0", "\0")
}

/// The bytes of a piece: `COUNT*TEXT` is a text so many times.
pub fn bytes_of(alloc: Global, piece: &str) -> Result<Vec<u8>, AllocError> {
    match counted(piece) {
        Some((count, text)) => repeated(alloc, unescaped(alloc, text)?.as_bytes(), count),
        None => Ok(unescaped(alloc, piece)?.into_bytes()),
    }
}

/// The count and the text of `COUNT*TEXT`.
pub fn counted(piece: &str) -> Option<(u32, &str)> {
    let (count, text) = piece.split_once('*')?;
    match count.parse::<u32>() {
        Ok(count) => Some((count, text)),
        Err(_) => None,
    }
}

fn repeated(alloc: Global, text: &[u8], count: u32) -> Result<Vec<u8>, AllocError> {
    let mut bytes = Vec::new(alloc);
    for _ in 0..count {
        bytes.extend_from_slice(text)?;
    }
    Ok(bytes)
}

pub fn text_of(bytes: &[u8]) -> &str {
    str::from_utf8(bytes).unwrap_or("no text")
}
