// The file of a tree's tokens.
ghost use Rattle.std.specs.Prelude.{◌≡◌, ◌<◌, ◌≤◌, ◌∷◌, ◌++◌, ◌^◌, IfOk, OnOk, [], length};
ghost use Rattle.std.specs.List.{list_any};
ghost use Rattle.std.specs.Str.{bytes_eq};
ghost use Rattle.devtree.specs.Coding.{all_of, name_by, now_of, token_of, value_of};
ghost use Rattle.devtree.specs.Flat as flat;
ghost use Rattle.devtree.specs.Tree.{cell, text};

use crate::token::{Token, Value, cell, name_text, value_bytes};
use std::alloc::{AllocError, Global};

const MAGIC: u128 = 0xd00d_feed;

const HEADER_SIZE: u128 = 40;

// The header, and the end of the list of reservations.
const STRUCTURE_START: u128 = 56;

const VERSION: u128 = 17;

const COMPATIBLE_VERSION: u128 = 16;

const BOOT_HART: u128 = 0;

fn is_among(names: &[&str], name: &str) -> bool
    ensures { result ≡ list_any (λ known. bytes_eq known.now name.now) names.now }
{
    names.iter().any(|known| *known == name)
}

fn is_noted(names: &[&str], name: &str) -> bool
    ensures { result ≡ list_any (λ known. bytes_eq known name.now) (now_of names.now) }
{
    is_among(names, name)
}

// The name, unless it is there already.
fn note<'a>(names: &mut Vec<&'a str>, name: &'a str) -> Result<(), AllocError>
    ensures { OnOk result (now_of names.new.items ≡ flat.noted (now_of names.old.items) name.now) }
{
    if is_noted(names, name) {
        return Ok(());
    }
    names.push(name)?;
    Ok(())
}

// The name of a property, if this is one.
fn note_token<'a>(names: &mut Vec<&'a str>, token: &Token<'a>) -> Result<(), AllocError>
    ensures { OnOk result (
        now_of names.new.items ≡ flat.noting (now_of names.old.items) (token_of token.now ∷ [])) }
{
    match token {
        Token::Property(name, _) => note(names, *name),
        Token::Begin(_, _) | Token::End => Ok(()),
    }
}

// The names of properties, each once, in the order of first use.
fn names_of<'a>(alloc: Global, tokens: &[Token<'a>]) -> Result<Vec<&'a str>, AllocError>
    ensures { IfOk result (λ names. now_of names.items ≡ flat.names_of (all_of tokens.now)) }
{
    let mut names = Vec::new(alloc);
    for token in tokens {
        note_token(&mut names, token)?;
    }
    Ok(names)
}

fn strings_of(alloc: Global, names: &[&str]) -> Result<Vec<u8>, AllocError>
    ensures { IfOk result (λ strings. strings.items ≡ flat.strings_of (now_of names.now)) }
{
    let mut strings = Vec::new(alloc);
    for name in names {
        push_text(&mut strings, name)?;
    }
    Ok(strings)
}

fn push_text(bytes: &mut Vec<u8>, written: &str) -> Result<(), AllocError>
    ensures { OnOk result (bytes.new.items ≡ bytes.old.items ++ text written.now) }
{
    bytes.extend_from_slice(written.as_bytes())?;
    bytes.push(0)?;
    Ok(())
}

// Where a name starts among the strings.
fn offset_of(names: &[&str], name: &str) -> usize
    requires { length (flat.strings_of (now_of names.now)) < 2 ^ 64 }
    ensures offset { result ≡ flat.offset_of (now_of names.now) name.now }
    ensures inside { result ≤ length (flat.strings_of (now_of names.now)) }
{
    match names {
        [] => 0,
        [known, rest @ ..] => {
            if *known == name {
                0
            } else {
                known.len() + 1 + offset_of(rest, name)
            }
        }
    }
}

fn padding(len: usize) -> &'static [u8]
    ensures { result.now ≡ flat.padding len }
{
    match len % 4 {
        0 => &[],
        1 => &[0, 0, 0],
        2 => &[0, 0],
        _ => &[0],
    }
}

// These bytes, and zeros up to a multiple of 4.
fn push_padded(out: &mut Vec<u8>, bytes: &[u8]) -> Result<(), AllocError>
    ensures { OnOk result (out.new.items ≡ out.old.items ++ flat.padded bytes.now) }
{
    out.extend_from_slice(bytes)?;
    out.extend_from_slice(padding(bytes.len()))
}

fn push_begin(
    alloc: Global,
    out: &mut Vec<u8>,
    name: &str,
    unit: Option<u64>,
) -> Result<(), AllocError>
    ensures { OnOk result (
        out.new.items ≡ out.old.items ++ cell 1 ++ flat.padded (text (name_by name.now unit))) }
{
    let mut name = name_text(alloc, name, unit)?;
    name.push('\0')?;
    push_cell(out, 1)?;
    push_padded(out, name.as_bytes())
}

fn push_property(
    alloc: Global,
    out: &mut Vec<u8>,
    offset: usize,
    value: &Value<'_>,
) -> Result<(), AllocError>
    ensures { OnOk result (
        out.new.items ≡ out.old.items ++ cell 3 ++ cell (length (value_of value.now)) ++ cell offset
        ++ flat.padded (value_of value.now)) }
{
    let bytes = value_bytes(alloc, value)?;
    push_cell(out, 3)?;
    push_cell(out, bytes.len() as u128)?;
    push_cell(out, offset as u128)?;
    push_padded(out, &bytes)
}

fn push_token(
    alloc: Global,
    out: &mut Vec<u8>,
    names: &[&str],
    token: &Token<'_>,
) -> Result<(), AllocError>
    requires { length (flat.strings_of (now_of names.now)) < 2 ^ 64 }
    ensures { OnOk result (
        out.new.items ≡ out.old.items ++ flat.bytes_of (now_of names.now) (token_of token.now)) }
{
    match token {
        Token::Begin(name, unit) => push_begin(alloc, out, *name, *unit),
        Token::Property(name, value) => push_property(alloc, out, offset_of(names, *name), value),
        Token::End => push_cell(out, 2),
    }
}

fn structure_of(alloc: Global, names: &[&str], tokens: &[Token<'_>]) -> Result<Vec<u8>, AllocError>
    requires { length (flat.strings_of (now_of names.now)) < 2 ^ 64 }
    ensures { IfOk result (λ out. out.items ≡ flat.structure_of (now_of names.now) (all_of tokens.now)) }
{
    let mut out = Vec::new(alloc);
    for token in tokens {
        push_token(alloc, &mut out, names, token)?;
    }
    push_cell(&mut out, 9)?;
    Ok(out)
}

fn push_cell(out: &mut Vec<u8>, n: u128) -> Result<(), AllocError>
    ensures { OnOk result (out.new.items ≡ out.old.items ++ cell n) }
{
    out.extend_from_slice(&cell(n))
}

fn push_header(out: &mut Vec<u8>, structure: u128, strings: u128) -> Result<(), AllocError>
    requires structure { structure < 2 ^ 64 }
    requires strings { strings < 2 ^ 64 }
    ensures { OnOk result (out.new.items ≡ out.old.items ++ flat.header structure strings) }
{
    push_cell(out, MAGIC)?;
    push_cell(out, STRUCTURE_START + structure + strings)?;
    push_cell(out, STRUCTURE_START)?;
    push_cell(out, STRUCTURE_START + structure)?;
    push_cell(out, HEADER_SIZE)?;
    push_cell(out, VERSION)?;
    push_cell(out, COMPATIBLE_VERSION)?;
    push_cell(out, BOOT_HART)?;
    push_cell(out, strings)?;
    push_cell(out, structure)
}

// The header, no reservation, the structure and the strings.
fn joined(alloc: Global, structure: &[u8], strings: &[u8]) -> Result<Vec<u8>, AllocError>
    ensures { IfOk result (λ file. file.items ≡ flat.file_of structure.now strings.now) }
{
    let mut file = Vec::new(alloc);
    push_header(&mut file, structure.len() as u128, strings.len() as u128)?;
    file.extend_from_slice(&[0; 16])?;
    file.extend_from_slice(structure)?;
    file.extend_from_slice(strings)?;
    Ok(file)
}

/// The file of a tree with these tokens.
pub fn file_of(alloc: Global, tokens: &[Token<'_>]) -> Result<Vec<u8>, AllocError>
    ensures { IfOk result (λ file. file.items ≡ flat.file_by (all_of tokens.now)) }
{
    let names = names_of(alloc, tokens)?;
    let strings = strings_of(alloc, &names)?;
    let structure = structure_of(alloc, &names, tokens)?;
    let file = joined(alloc, &structure, &strings)?;
    Ok(file)
}
