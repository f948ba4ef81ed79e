// Files in a folder, what stands under a name but is no regular file, and the folder of a name.
use crate::showing::{Shown, text_of};
use outside_real::{Folder, folder_of};
use std::alloc::AllocError;
use std::path::AsPath;
use std::{fs, io};
use vm_outside::{Failed, Files};

// The file that the cases are about.
const NAME: &str = "case";

// One byte more than a name can have.
const LONG: &str =
    "nnnnnnnnnnnnnnnnnnnnnnnnnnnnnnnnnnnnnnnnnnnnnnnnnnnnnnnnnnnnnnnnnnnnnnnnnnnnnnnnnnnnnnnnnnnnnnnnnnnnnnnnnnnnnnnnnnnnnnnnnnnnnnnnnnnnnnnnnnnnnnnnnnnnnnnnnnnnnnnnnnnnnnnnnnnnnnnnnnnnnnnnnnnnnnnnnnnnnnnnnnnnnnnnnnnnnnnnnnnnnnnnnnnnnnnnnnnnnnnnnnnnnnnnnnnnnnnn";

enum Call<'a> {
    Size,
    /// At an offset, so many bytes, at most eight.
    Read(u64, usize),
    Write(u64, &'a [u8]),
    Sync,
    Make,
}

const EACH: [Call<'_>; 5] = [
    Call::Size,
    Call::Read(0, 0),
    Call::Write(0, b"a"),
    Call::Sync,
    Call::Make,
];

/// What the file holds before, if there is one, and the calls.
struct Case<'a> {
    before: Option<&'a str>,
    calls: &'a [Call<'a>],
}

const CASES: [Case<'_>; 4] = [
    Case {
        before: None,
        calls: &[
            Call::Make,
            Call::Size,
            Call::Write(0, b"abcd"),
            Call::Size,
            Call::Read(1, 2),
            Call::Make,
            Call::Size,
            Call::Write(0, b"abc"),
            Call::Write(2, b"XYZ"),
            Call::Write(0, b"-"),
            Call::Sync,
            Call::Read(0, 5),
        ],
    },
    Case {
        before: None,
        calls: &EACH,
    },
    Case {
        before: Some("abc"),
        calls: &[
            Call::Write(5, b"d"),
            Call::Write(9, b""),
            Call::Write(1 << 63, b"e"),
            Call::Write(u64::MAX, b"e"),
        ],
    },
    Case {
        before: Some("abcd"),
        calls: &[
            Call::Read(2, 2),
            Call::Read(3, 2),
            Call::Read(4, 2),
            Call::Read(u64::MAX, 2),
            Call::Read(4, 0),
            Call::Read(5, 0),
        ],
    },
];

pub fn show(rt: &HostRuntime, shown: &mut Shown) -> io::Result<()> {
    for case in &CASES {
        show_case(rt, &mut Folder::new(rt), case, shown)?;
        show_case(rt, &mut Folder::keeping_open(rt), case, shown)?;
    }
    for name in ["/", "/dev/null", "/dev/null/below", LONG, "a\0b"] {
        show_answers(rt, &mut Folder::new(rt), name, &EACH, shown)?;
    }
    for name in ["a", "a/b", "a/b/c", "/a", "./a", "../a"] {
        show_folder(name, shown);
    }
    Ok(())
}

fn show_folder(name: &str, shown: &mut Shown) {
    shown.text("folder of ");
    shown.text(name);
    shown.text(" => ");
    shown.text(folder_of(name).path_text());
    shown.text("\n");
}

// The answers where there was no file but the one before, how many calls failed, and what the file holds then.
fn show_case(
    rt: &HostRuntime,
    files: &mut Folder<'_, HostRuntime>,
    case: &Case<'_>,
    shown: &mut Shown,
) -> io::Result<()> {
    if let Some(before) = case.before {
        fs::write(rt, NAME, before)?;
    }
    show_answers(rt, files, NAME, case.calls, shown)?;
    show_left(rt, files.faults(), shown)?;
    fs::remove_file(rt, NAME)
}

fn show_left(rt: &HostRuntime, faults: u64, shown: &mut Shown) -> io::Result<()> {
    let after = fs::read(rt, NAME)?;
    shown.show_two("files: failed, left", &faults, &text_of(&after));
    Ok(())
}

// The answers to each call on a name.
fn show_answers(
    rt: &HostRuntime,
    files: &mut Folder<'_, HostRuntime>,
    name: &str,
    calls: &[Call<'_>],
    shown: &mut Shown,
) -> io::Result<()> {
    let mut seen = Vec::new(rt.alloc());
    answer_all(&mut seen, files, name, calls)?;
    shown.text("files: ");
    shown.value(&name);
    shown.show("", &text_of(&seen));
    Ok(())
}

// The answers, each behind a bar.
fn answer_all<F: Files>(
    seen: &mut Vec<u8>,
    files: &mut F,
    name: &str,
    calls: &[Call<'_>],
) -> Result<(), AllocError> {
    for call in calls {
        seen.push(b'|')?;
        answer(seen, files, name, call)?;
    }
    Ok(())
}

// The answer to one call, with the bytes that were read.
fn answer<F: Files>(
    seen: &mut Vec<u8>,
    files: &mut F,
    name: &str,
    call: &Call<'_>,
) -> Result<(), AllocError> {
    let mut buf = [0; 8];
    let byte = match call {
        Call::Size => digit(files.size(name)),
        Call::Read(at, count) => {
            let buf = &mut buf[..(*count).min(8)];
            let byte = mark(files.read_at(name, *at, buf));
            seen.extend_from_slice(buf)?;
            byte
        }
        Call::Write(at, bytes) => mark(files.write_at(name, *at, bytes)),
        Call::Sync => mark(files.sync(name)),
        Call::Make => mark(files.make(name)),
    };
    seen.push(byte)?;
    Ok(())
}

// A mark for what was done, or a cross.
fn mark(done: Result<(), Failed>) -> u8 {
    if done.is_ok() { b'.' } else { b'x' }
}

// A size that these files have as a digit, and a dash for no file.
fn digit(size: Result<Option<u64>, Failed>) -> u8 {
    match size {
        Ok(Some(0)) => b'0',
        Ok(Some(4)) => b'4',
        Ok(Some(_)) => b'+',
        Ok(None) => b'-',
        Err(Failed) => b'x',
    }
}
