// All fields of a body, at all levels, and the first refusal by them.
ghost use Rattle.std.specs.Prelude.{◌≡◌, map, option_map, not};
ghost use Rattle.std.specs.List.{list_all, list_any, find};
ghost use Rattle.std.specs.Str.{bytes_eq};
ghost use Rattle.serde_json.specs.View.{view};
ghost use Rattle.api_calls.specs.Form as form;
ghost use Rattle.api_json.specs.Tables.{form_of, level_of, together_of};

use crate::form::{Row, object_passes};
use api_calls::Test;
use refusals::Refusal;
use serde_json::Value;

/// The fields of the object that these names lead to from the body.
#[derive(Clone, Copy)]
pub struct Level {
    pub place: &'static [&'static str],
    pub rows: &'static [Row],
}

/// What fields must be together.
#[derive(Clone, Copy)]
pub enum Together<'i> {
    Free,
    /// At least one of these is given.
    SomeOf(&'static [&'static str]),
    /// One of the two is given, and not both.
    Either(&'static str, &'static str),
    /// Two texts that differ.
    Differing(&'static str, &'static str),
    /// A text that is this one.
    Naming(&'static str, &'i [u8]),
}

/// The fields of a body.
#[derive(Clone, Copy)]
pub struct Form<'i> {
    pub levels: &'static [Level],
    pub together: Together<'i>,
}

/// In the order of the refusals.
static TESTS: [Test; 4] = [Test::Known, Test::There, Test::Kind, Test::Range];

fn object_at<'v>(place: &[&str], body: &'v Value) -> Option<&'v Value>
    ensures { option_map (λ v. view v.now) result
        ≡ form.object_at (map (λ t. t.now) place.now) (view body.now) }
{
    let mut value = body;
    for name in place {
        value = value.get(*name)?;
    }
    if value.is_object() { Some(value) } else { None }
}

fn level_passes(test: Test, body: &Value, level: &Level) -> bool
    ensures { result ≡ form.level_passes test (view body.now) (level_of level.now) }
{
    match object_at(level.place, body) {
        Some(object) => object_passes(test, level.rows, object),
        None => true,
    }
}

fn levels_pass(test: Test, body: &Value, levels: &[Level]) -> bool
    ensures { result ≡ list_all (λ level. form.level_passes test (view body.now) (level_of level)) levels.now }
{
    levels.iter().all(|level| level_passes(test, body, level))
}

fn is_given(name: &str, body: &Value) -> bool
    ensures { result ≡ form.is_given name.now (view body.now) }
{
    match body.get(name) {
        Some(value) => !value.is_null(),
        None => false,
    }
}

fn some_given(names: &[&str], body: &Value) -> bool
    ensures { result ≡ list_any (λ name. form.is_given name.now (view body.now)) names.now }
{
    names.iter().any(|name| is_given(*name, body))
}

fn differ(one: &str, other: &str, body: &Value) -> bool
    ensures { result ≡ form.differ (form.text_at one.now (view body.now)) (form.text_at other.now (view body.now)) }
{
    let a = body.get(one).and_then(Value::as_str);
    let b = body.get(other).and_then(Value::as_str);
    match (a, b) {
        (Some(a), Some(b)) => a != b,
        _ => true,
    }
}

fn is_named(name: &str, due: &[u8], body: &Value) -> bool
    ensures { result ≡ form.holds (λ t. bytes_eq t due.now) (form.text_at name.now (view body.now)) }
{
    match body.get(name).and_then(Value::as_str) {
        Some(text) => text.as_bytes() == due,
        None => true,
    }
}

#[tactic(auto, using(crate::proofs::FormLemmas::list_any_map))]
fn has_enough(together: &Together<'_>, body: &Value) -> bool
    ensures { result ≡ form.has_enough (together_of together.now) (view body.now) }
{
    match together {
        Together::SomeOf(names) => some_given(names, body),
        Together::Either(one, other) => is_given(one, body) || is_given(other, body),
        Together::Free | Together::Differing(_, _) | Together::Naming(_, _) => true,
    }
}

fn agrees(together: &Together<'_>, body: &Value) -> bool
    ensures { result ≡ form.agrees (together_of together.now) (view body.now) }
{
    match together {
        Together::Either(one, other) => !(is_given(one, body) && is_given(other, body)),
        Together::Differing(one, other) => differ(one, other, body),
        Together::Naming(name, due) => is_named(name, due, body),
        Together::Free | Together::SomeOf(_) => true,
    }
}

#[tactic(auto, unfolding(api_calls::specs::Form::together_passes))]
fn together_passes(test: Test, together: &Together<'_>, body: &Value) -> bool
    ensures { result ≡ form.together_passes test (together_of together.now) (view body.now) }
{
    match test {
        Test::There => has_enough(together, body),
        Test::Range => agrees(together, body),
        Test::Known | Test::Kind => true,
    }
}

#[tactic(auto, using(crate::proofs::FormLemmas::list_all_map), unfolding(api_calls::specs::Form::passes))]
fn passes(fields: &Form<'_>, body: &Value, test: Test) -> bool
    ensures { result ≡ form.passes (form_of fields.now) (view body.now) test }
{
    levels_pass(test, body, fields.levels) && together_passes(test, &fields.together, body)
}

fn first_failed<'t>(tests: &'t [Test], fields: &Form<'_>, body: &Value) -> Option<&'t Test>
    ensures { option_map (λ test. test.now) result
        ≡ find (λ test. not (form.passes (form_of fields.now) (view body.now) test)) tests.now }
{
    tests.iter().find(|test| !passes(fields, body, **test))
}

fn refusal_by(test: Test) -> Refusal
    ensures { result ≡ form.refusal_by test }
{
    match test {
        Test::Known => Refusal::UnknownField,
        Test::There => Refusal::MissingField,
        Test::Kind => Refusal::WrongKind,
        Test::Range => Refusal::OutOfRange,
    }
}

/// The first refusal of a body by its tables, if there is one.
#[tactic(auto, unfolding(api_calls::specs::Form::refusal))]
pub fn refusal(fields: &Form<'_>, body: &Value) -> Option<Refusal>
    ensures { result ≡ form.refusal (form_of fields.now) (view body.now) }
{
    let failed = first_failed(&TESTS, fields, body)?;
    Some(refusal_by(*failed))
}
