// The lines of the actors: `step` and `reply`.
ghost use Rattle.std.specs.Prelude.{◌≡◌, codes, IfOk};
ghost use Rattle.script_text.specs.Items.{actor_line, reply_of, step_of};
ghost use Rattle.script_words.specs.Words.{after};

use crate::answers::answer_from;
use crate::item::Item;
use script_words::{actor_from, behind, cut, number_within};
use std::alloc::{AllocError, Global};

const MOST_STEPS: u64 = 1_000_000_000;

pub fn actor_line_from(alloc: Global, line: &[u8]) -> Result<Option<Item>, AllocError>
    ensures { IfOk result (λ item. item ≡ actor_line line.now) }
{
    if let Some(item) = step_line_from(line) {
        return Ok(Some(item));
    }
    match behind(b"reply ", line) {
        Some(rest) => Ok(reply_from(alloc, rest)?),
        None => Ok(None),
    }
}

fn step_line_from(line: &[u8]) -> Option<Item>
    ensures { result ≡ after (codes "step ") step_of line.now }
{
    step_from(behind(b"step ", line)?)
}

// `step ACTOR N`
fn step_from(rest: &[u8]) -> Option<Item>
    ensures { result ≡ step_of rest.now }
{
    let (word, digits) = cut(rest)?;
    let actor = actor_from(word)?;
    let count = number_within(digits, 1, MOST_STEPS)?;
    Some(Item::Step { actor, count })
}

// `reply ACTOR R`
fn reply_from(alloc: Global, rest: &[u8]) -> Result<Option<Item>, AllocError>
    ensures { IfOk result (λ item. item ≡ reply_of rest.now) }
{
    let Some((word, answer)) = cut(rest) else {
        return Ok(None);
    };
    let Some(actor) = actor_from(word) else {
        return Ok(None);
    };
    match answer_from(alloc, answer)? {
        Some(reply) => Ok(Some(Item::Reply { actor, reply })),
        None => Ok(None),
    }
}
