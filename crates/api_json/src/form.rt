// The fields of one object, by a table.
ghost use Rattle.std.specs.Prelude.{◌≡◌, length, map, nat_le, option_map, string_bytes, is_some};
ghost use Rattle.std.specs.List.{list_all, list_any};
ghost use Rattle.std.specs.Str.{bytes_eq};
ghost use Rattle.std.specs.BTreeMap.{keys};
ghost use Rattle.serde_json.specs.View.{view};
ghost use Rattle.api_calls.specs.Form as form;
ghost use Rattle.api_json.specs.Tables.{row_of, kind_of};

use crate::ids::{are_ids, are_texts, is_id_text};
use api_calls::{Test, is_mac, is_metadata_address};
use serde_json::{Map, Value};

const LONGEST_PATH: usize = 4095;

const LONGEST_ID: usize = 64;

const LONGEST_ADDRESS: usize = 15;

/// What a field's value must be.
#[derive(Clone, Copy)]
pub enum Kind {
    /// The name of a file: 1 to 4,095 bytes, none of them a NUL.
    Path,
    /// The id of a thing: 1 to 64 letters and digits of ASCII, and `_`.
    Id,
    /// A list of 1 to 16 ids.
    Ids,
    /// The address of a network device: six pairs of hexadecimal digits with colons between.
    Mac,
    /// The address of metadata: from 169.254.1.0 to 169.254.254.255.
    Address,
    /// A text of at most so many bytes.
    Text(usize),
    /// One of these texts.
    Choice(&'static [&'static str]),
    /// A whole number, at least and at most.
    Whole(u64, u64),
    Flag,
    /// A flag that must not be set.
    Unset,
    /// An object, whose fields have a level of their own.
    Group,
}

/// A row of a table.
#[derive(Clone, Copy)]
pub struct Row {
    pub name: &'static str,
    pub required: bool,
    pub kind: Kind,
}

// An optional field that is null counts as absent.
fn field<'v>(object: &'v Value, row: &Row) -> Option<&'v Value>
    ensures { option_map (λ v. view v.now) result ≡ form.field (view object.now) (row_of row.now) }
{
    let value = object.get(row.name)?;
    if !row.required && value.is_null() {
        None
    } else {
        Some(value)
    }
}

fn has_name(rows: &[Row], name: &str) -> bool
    ensures { result ≡ list_any (λ row. bytes_eq (row_of row).name name.now) rows.now }
{
    rows.iter().any(|row| row.name == name)
}

fn is_known(rows: &[Row], name: &str) -> bool
    ensures { result ≡ form.is_known (map row_of rows.now) name.now }
{
    has_name(rows, name)
}

fn has_known_keys(rows: &[Row], members: &Map<String, Value>) -> bool
    ensures { result ≡ list_all (λ key. form.is_known (map row_of rows.now) (string_bytes key))
        (keys members.now) }
{
    members.keys().all(|key| is_known(rows, key.as_str()))
}

fn are_known(rows: &[Row], object: &Value) -> bool
    ensures { result ≡ list_all (form.is_known (map row_of rows.now)) (form.names (view object.now)) }
{
    match object.as_object() {
        Some(members) => has_known_keys(rows, members),
        None => true,
    }
}

fn has_path_bytes(text: &str) -> bool
    ensures { result ≡ form.has_path_bytes text.now }
{
    !text.is_empty() && text.len() <= LONGEST_PATH && !text.as_bytes().contains(&0)
}

fn is_path(text: &str) -> bool
    ensures { result ≡ form.is_path text.now }
{
    has_path_bytes(text)
}

fn is_within(most: usize, text: &str) -> bool
    ensures { result ≡ nat_le (length text.now) most }
{
    text.len() <= most
}

fn is_short_text(most: usize, text: &str) -> bool
    ensures { result ≡ form.is_short_text most text.now }
{
    is_within(most, text)
}

fn is_address(text: &str) -> bool
    ensures { result ≡ form.is_address text.now }
{
    is_short_text(LONGEST_ADDRESS, text) && is_metadata_address(text.as_bytes())
}

fn is_id_byte(byte: u8) -> bool
    ensures { result ≡ form.is_id_byte byte }
{
    byte.is_ascii_alphanumeric() || byte == b'_'
}

fn are_id_bytes(text: &[u8]) -> bool
    ensures { result ≡ list_all form.is_id_byte text.now }
{
    text.iter().all(|byte| is_id_byte(*byte))
}

/// Whether this is an id: 1 to 64 letters and digits of ASCII, and `_`.
pub fn is_id(text: &[u8]) -> bool
    ensures { result ≡ form.is_id text.now }
{
    !text.is_empty() && text.len() <= LONGEST_ID && are_id_bytes(text)
}

#[tactic(auto, unfolding(api_calls::specs::Form::is_of_kind))]
fn is_of_kind(kind: &Kind, value: &Value) -> bool
    ensures { result ≡ form.is_of_kind (kind_of kind.now) (view value.now) }
{
    match kind {
        Kind::Path | Kind::Id | Kind::Mac | Kind::Address | Kind::Text(_) | Kind::Choice(_) =>
            value.is_string(),
        Kind::Ids => are_texts(value),
        Kind::Whole(_, _) => value.is_u64(),
        Kind::Flag | Kind::Unset => value.is_boolean(),
        Kind::Group => value.is_object(),
    }
}

fn is_among(texts: &[&str], text: &str) -> bool
    ensures { result ≡ list_any (λ choice. bytes_eq choice.now text.now) texts.now }
{
    texts.iter().any(|choice| *choice == text)
}

fn is_choice(texts: &[&str], text: &str) -> bool
    ensures { result ≡ list_any (λ choice. bytes_eq choice text.now) (map (λ t. t.now) texts.now) }
{
    is_among(texts, text)
}

#[tactic(auto, unfolding(api_calls::specs::Form::is_in_range))]
fn is_in_range(kind: &Kind, value: &Value) -> bool
    ensures { result ≡ form.is_in_range (kind_of kind.now) (view value.now) }
{
    match kind {
        Kind::Path => match value.as_str() {
            Some(text) => is_path(text),
            None => true,
        },
        Kind::Id => is_id_text(value),
        Kind::Ids => are_ids(value),
        Kind::Mac => match value.as_str() {
            Some(text) => is_mac(text.as_bytes()),
            None => true,
        },
        Kind::Address => match value.as_str() {
            Some(text) => is_address(text),
            None => true,
        },
        Kind::Text(most) => match value.as_str() {
            Some(text) => is_short_text(*most, text),
            None => true,
        },
        Kind::Choice(texts) => match value.as_str() {
            Some(text) => is_choice(texts, text),
            None => true,
        },
        Kind::Whole(least, most) => match value.as_u64() {
            Some(n) => *least <= n && n <= *most,
            None => true,
        },
        Kind::Flag | Kind::Group => true,
        Kind::Unset => match value.as_bool() {
            Some(set) => !set,
            None => true,
        },
    }
}

fn has_kind(object: &Value, row: &Row) -> bool
    ensures { result ≡ form.holds (form.is_of_kind (kind_of row.now.kind))
        (form.field (view object.now) (row_of row.now)) }
{
    match field(object, row) {
        Some(value) => is_of_kind(&row.kind, value),
        None => true,
    }
}

fn has_range(object: &Value, row: &Row) -> bool
    ensures { result ≡ form.holds (form.is_in_range (kind_of row.now.kind))
        (form.field (view object.now) (row_of row.now)) }
{
    match field(object, row) {
        Some(value) => is_in_range(&row.kind, value),
        None => true,
    }
}

#[tactic(auto, unfolding(api_calls::specs::Form::row_passes))]
fn row_passes(test: Test, object: &Value, row: &Row) -> bool
    ensures { result ≡ form.row_passes test (view object.now) (row_of row.now) }
{
    match test {
        Test::Known => true,
        Test::There => !row.required || field(object, row).is_some(),
        Test::Kind => has_kind(object, row),
        Test::Range => has_range(object, row),
    }
}

fn rows_pass(test: Test, rows: &[Row], object: &Value) -> bool
    ensures { result ≡ list_all (λ row. form.row_passes test (view object.now) (row_of row)) rows.now }
{
    rows.iter().all(|row| row_passes(test, object, row))
}

/// Whether the fields of an object pass a test, by their table.
#[tactic(auto, using(crate::proofs::FormLemmas::list_all_map), unfolding(api_calls::specs::Form::object_passes))]
pub fn object_passes(test: Test, rows: &[Row], object: &Value) -> bool
    ensures { result ≡ form.object_passes test (map row_of rows.now) (view object.now) }
{
    match test {
        Test::Known => are_known(rows, object),
        Test::There | Test::Kind | Test::Range => rows_pass(test, rows, object),
    }
}
