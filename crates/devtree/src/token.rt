// The tokens that a tree is written as, and the bytes of their values.
ghost use Rattle.std.specs.Prelude.{◌≡◌, ◌++◌, IfOk, OnOk, false, string_bytes};
ghost use Rattle.std.specs.Fmt.{digits};
ghost use Rattle.devtree.specs.Coding as coding;
ghost use Rattle.devtree.specs.Tree as tree;

use std::alloc::{AllocError, Global};

/// What a property holds (Devicetree Specification 0.4, 2.2.4). A number is taken modulo the width that it has there.
#[derive(Clone, Copy, Drop)]
pub enum Value<'a> {
    Empty,
    /// 32 bits
    Cell(u64),
    /// 64 bits
    Wide(u128),
    /// The address and the length of a region, of 64 bits each.
    Region(u64, u128),
    Text(&'a str),
}

/// A token of the structure (5.4.1).
#[derive(Clone, Copy, Drop)]
pub enum Token<'a> {
    /// A node begins: its name, and the address of its unit if it has one.
    Begin(&'a str, Option<u64>),
    Property(&'a str, Value<'a>),
    End,
}

#[tactic(auto, unfolding(crate::specs::Tree::cell))]
/// The four bytes of a cell, the highest first.
pub fn cell(n: u128) -> [u8; 4]
    ensures { result ≡ tree.cell n }
{
    [
        (n / 0x100_0000 % 256) as u8,
        (n / 0x1_0000 % 256) as u8,
        (n / 0x100 % 256) as u8,
        (n % 256) as u8,
    ]
}

fn push_wide(bytes: &mut Vec<u8>, n: u128) -> Result<(), AllocError>
    ensures { OnOk result (bytes.new.items ≡ bytes.old.items ++ tree.wide n) }
{
    bytes.extend_from_slice(&cell(n / 0x1_0000_0000))?;
    bytes.extend_from_slice(&cell(n))
}

/// The bytes of a value.
pub fn value_bytes(alloc: Global, value: &Value<'_>) -> Result<Vec<u8>, AllocError>
    ensures { IfOk result (λ bytes. bytes.items ≡ coding.value_of value.now) }
{
    let mut bytes = Vec::new(alloc);
    match value {
        Value::Empty => {}
        Value::Cell(n) => bytes.extend_from_slice(&cell(*n as u128))?,
        Value::Wide(n) => push_wide(&mut bytes, *n)?,
        Value::Region(at, len) => {
            push_wide(&mut bytes, *at as u128)?;
            push_wide(&mut bytes, *len)?;
        }
        Value::Text(text) => {
            bytes.extend_from_slice(text.as_bytes())?;
            bytes.push(0)?;
        }
    }
    Ok(bytes)
}

fn hex_digits(alloc: Global, n: u64) -> Result<String, AllocError>
    ensures { IfOk result (λ text. string_bytes text ≡ digits 16 false n) }
{
    format!(in alloc; "{n:x}")
}

fn at_unit(alloc: Global, name: &str, unit: u64) -> Result<String, AllocError>
    ensures { IfOk result (λ text. string_bytes text ≡ tree.at_unit name.now unit) }
{
    let digits = hex_digits(alloc, unit)?;
    let mut text = String::from_str(alloc, name)?;
    text.push('@')?;
    text.push_str(digits.as_str())?;
    Ok(text)
}

/// The name of a node, as it is written.
pub fn name_text(alloc: Global, name: &str, unit: Option<u64>) -> Result<String, AllocError>
    ensures { IfOk result (λ text. string_bytes text ≡ coding.name_by name.now unit) }
{
    match unit {
        None => String::from_str(alloc, name),
        Some(unit) => at_unit(alloc, name, unit),
    }
}
