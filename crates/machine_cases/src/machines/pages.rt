// What acts on a page are answered, and a star where it is marked afterwards.
use crate::machines::reading::act_from;
use crate::machines::telling::add_reply;
use guest_pages::Page;
use std::alloc::{AllocError, Global};
use vm_types::Place;

/// The second page of RAM, all zeros.
pub fn first(alloc: Global) -> Result<Page, AllocError> {
    Page::new(alloc, 1)
}

pub fn add(
    alloc: Global,
    page: &mut Page,
    command: &str,
    text: &mut String,
) -> Result<(), AllocError> {
    match act_from(command) {
        Some((actor, op)) => add_reply(alloc, text, &page.act(actor, &op))?,
        None => text.push_str(begin(alloc, page, command)?)?,
    }
    text.push_str(if page.is_marked() { "*" } else { "" })
}

// `new` is another page, and `clear` takes its mark off.
fn begin(alloc: Global, page: &mut Page, command: &str) -> Result<&'static str, AllocError> {
    match command {
        "new" => *page = first(alloc)?,
        "clear" => page.clear_mark(),
        _ => return Ok("none"),
    }
    Ok("-")
}
