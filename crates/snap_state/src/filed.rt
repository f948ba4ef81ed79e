// Values of other crates.
ghost use Rattle.std.specs.Prelude.{◌≡◌};

use std::marker::Model;

/// A value, as a state file has it.
#[derive(Drop)]
pub struct Filed<T> {
    pub value: T,
}

impl<T> Model for Filed<T> {
    ghost Value = { T };

    ghost view = { λ f. f.value };
}

/// The value, if there is one, for the file.
pub fn for_file<T>(value: Option<T>) -> Option<Filed<T>>
    ensures { result ≡ value }
{
    match value {
        None => None,
        Some(value) => Some(Filed { value }),
    }
}

/// And out of it.
pub fn taken<T>(filed: Option<Filed<T>>) -> Option<T>
    ensures { result ≡ filed }
{
    match filed {
        None => None,
        Some(filed) => Some(filed.value),
    }
}
