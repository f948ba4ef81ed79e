// A JSON value, which contracts see as the tree that it stands for.
ghost use Rattle.std.specs.Prelude.{◌≡◌};
ghost use Rattle.serde_json.specs.View.{view};

use serde_json::Value;
use std::marker::Model;

/// A JSON value as plain data.
#[derive(Drop)]
pub struct Tree {
    value: Value,
}

impl Model for Tree {
    ghost use Rattle.serde_json.specs.Data.{Data};
    ghost use Rattle.metadata_store.specs.Code.{data_code};
    ghost use Rattle.serde_json.specs.View as json;

    ghost Value = { Data };

    ghost coded = { data_code };

    ghost view = { λ t. json.view t.value };
}

impl Tree {
    pub fn of_value(value: Value) -> Tree
        ensures { result ≡ view value }
    {
        Tree { value }
    }

    pub fn value(&self) -> &Value
        ensures { view result.now ≡ self.now }
    {
        &self.value
    }

    pub fn into_value(self) -> Value
        ensures { view result ≡ self }
    {
        self.value
    }
}
