// Files in memory: what a second make leaves of one, and how much is written down.
use crate::showing::{Shown, text_of};
use outside_mem::{Failing, MemoryFiles};
use std::alloc::{AllocError, Global};
use vm_outside::Files;

pub fn show(alloc: Global, shown: &mut Shown) -> Result<(), AllocError> {
    let mut files = MemoryFiles::new(alloc, Failing::new(Vec::new(alloc)));
    show_calls(&mut files, shown);
    Ok(())
}

fn show_calls(files: &mut MemoryFiles, shown: &mut Shown) {
    shown.show("files: make", &files.make("f"));
    shown.show("files: write", &files.write_at("f", 0, b"abc"));
    shown.show("files: sync", &files.sync("f"));
    show_file(files, shown);
    shown.show("files: make", &files.make("f"));
    show_file(files, shown);
    shown.show("files: written down", &files.log().len());
}

fn show_file(files: &MemoryFiles, shown: &mut Shown) {
    shown.show("files: holds", &files.find("f").map(text_of));
}
