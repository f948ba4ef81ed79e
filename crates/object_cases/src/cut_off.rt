// A merge that is cut off at each of its calls, then another diff's, and the same merge again.
use crate::merges::{FILLING, files_failing, fill, merge};
use crate::showing::{Shown, text_of};
use outside_mem::MemoryFiles;
use rebase_cli::End;
use std::alloc::{AllocError, Global};

/// Its slot has a name once the merging byte is set; then no other diff is merged.
pub fn show(alloc: Global, shown: &mut Shown) -> Result<(), AllocError> {
    for call in 0..17 {
        show_call(alloc, call, shown)?;
    }
    Ok(())
}

fn show_call(alloc: Global, call: u64, shown: &mut Shown) -> Result<(), AllocError> {
    let mut files = files_failing(alloc, FILLING.saturating_add(call))?;
    shown.text("cut off: fill before ");
    shown.value(&call);
    shown.show("", &fill(&mut files));
    shown.text("cut off: at ");
    shown.value(&call);
    show_cut_off(alloc, &mut files, shown)
}

fn show_cut_off(
    alloc: Global,
    files: &mut MemoryFiles,
    shown: &mut Shown,
) -> Result<(), AllocError> {
    let (end, out) = merge(alloc, files, "m1", "m2")?;
    shown.show_two("", &end, &text_of(out.taken()));
    show_others(alloc, files, shown)
}

fn show_others(
    alloc: Global,
    files: &mut MemoryFiles,
    shown: &mut Shown,
) -> Result<(), AllocError> {
    let other = end_of(alloc, files, "m3")?;
    let again = end_of(alloc, files, "m2")?;
    shown.show_two("cut off: the other, again", &other, &again);
    Ok(())
}

fn end_of(alloc: Global, files: &mut MemoryFiles, diff: &str) -> Result<End, AllocError> {
    let (end, _) = merge(alloc, files, "m1", diff)?;
    Ok(end)
}
