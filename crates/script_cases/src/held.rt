// What a file holds, as a line says it.
use anyhow::{Context, Result};
use std::alloc::Global;

/// What the file of this name holds, or that there is no such file.
#[derive(Drop)]
pub struct Held {
    pub name: String,
    pub content: Option<Vec<u8>>,
}

/// The lines `file NAME PART..`, with parts `HEX` and `HEX*COUNT`, and `none NAME`; `None` where the line is neither.
pub fn held_from(alloc: Global, line: &str) -> Result<Option<Held>> {
    let (name, content) = if let Some(rest) = line.strip_prefix("file ") {
        let (name, parts) = rest.split_once(' ').context("a file without bytes")?;
        (name, Some(content_of(alloc, parts)?))
    } else if let Some(name) = line.strip_prefix("none ") {
        (name, None)
    } else {
        return Ok(None);
    };
    let name = String::from_str(alloc, name)?;
    Ok(Some(Held { name, content }))
}

fn content_of(alloc: Global, parts: &str) -> Result<Vec<u8>> {
    let mut content = Vec::new(alloc);
    for part in parts.split(' ') {
        let (digits, count) = match part.split_once('*') {
            Some((digits, count)) => (digits, count.parse::<u64>()?),
            None => (part, 1),
        };
        let bytes = hex::decode(alloc, digits)?;
        for _ in 0..count {
            content.extend_from_slice(&bytes)?;
        }
    }
    Ok(content)
}
