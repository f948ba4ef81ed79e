// What the walk of a chain comes to.
use crate::chains::memory::read;
use crate::chains::setting::Setting;
use vm_types::{Op, Reply, is_fit};
use vq_split::{ChainWalk, Walk, Why};

// The reply to an act of a walk.
fn answered(memory: &[u8], op: &Op) -> Reply {
    match op {
        Op::Read { at, len } => read(memory, *at, *len),
        Op::Write { .. } => Reply::Done,
        _ => Reply::AccessFault,
    }
}

// The walk of chain 0, of at most 256 descriptors.
fn walked(memory: &[u8], setting: &Setting) -> Result<Walk, Why> {
    let mut walk = ChainWalk::new(setting.queue(), 0)?;
    for _ in 0..300 {
        let op = walk.want();
        let reply = answered(memory, &op);
        if !is_fit(&op, &reply) {
            return Ok(Walk::More);
        }
        match walk.give(reply) {
            Walk::More => {}
            came => return Ok(came),
        }
    }
    Ok(Walk::More)
}

fn name(why: Why) -> &'static str {
    match why {
        Why::Size => "size",
        Why::Table => "table",
        Why::Ahead => "ahead",
        Why::Index => "index",
        Why::Indirect => "indirect",
        Why::TableLength => "table length",
        Why::TableOutside => "table outside",
        Why::Entry => "entry",
        Why::Length => "length",
        Why::Outside => "outside",
        Why::Order => "order",
        Why::Long => "long",
    }
}

/// A word for what the walk comes to.
pub fn walk_word(memory: &[u8], setting: &Setting) -> &'static str {
    match walked(memory, setting) {
        Ok(Walk::Chain { .. }) => "chain",
        Ok(Walk::Empty) => "empty",
        Ok(Walk::Broken { why }) => name(why),
        Ok(Walk::More) => "more",
        Err(why) => name(why),
    }
}
