// Reading from a file, and writing to a file and to a full disk, each through a buffer; and a pipe that nobody reads for a while.
use crate::showing::{Shown, text_of};
use outside_real::{Output, Reading, Writing};
use std::fs::{File, OpenOptions};
use std::io::{BufWriter, PipeReader, PipeWriter, Read};
use std::{fs, io};
use vm_outside::{Failed, Sink, Source};

pub fn show(rt: &HostRuntime, shown: &mut Shown) -> io::Result<()> {
    show_reads(&mut Reading::new(File::open(rt, "read")?), shown);
    let written = written(rt, File::create(rt, "written")?)?;
    shown.show("writing: taken, failed", &written);
    show_written(rt, shown)?;
    fs::remove_file(rt, "written")?;
    show_full(rt, shown)?;
    let (reader, writer) = io::pipe(rt)?;
    show_unread(reader, Output::new(rt, writer), shown)
}

// What each read gives, what the buffer has then, and how many calls have failed.
fn show_reads(source: &mut Reading<File>, shown: &mut Shown) {
    let mut buf = [0; 3];
    for _ in 0..3 {
        let read = source.read(&mut buf);
        shown.show_bytes("reading", &read, &buf, source.faults());
    }
}

fn written<F: io::Write + Drop>(
    rt: &HostRuntime,
    file: F,
) -> io::Result<(Result<usize, Failed>, u64)> {
    let mut sink = Writing::new(BufWriter::new(rt.alloc(), file)?);
    let taken = sink.write(b"abc");
    Ok((taken, sink.faults()))
}

fn show_written(rt: &HostRuntime, shown: &mut Shown) -> io::Result<()> {
    let bytes = fs::read(rt, "written")?;
    shown.show("writing: the file", &text_of(&bytes));
    Ok(())
}

fn show_full(rt: &HostRuntime, shown: &mut Shown) -> io::Result<()> {
    let full = OpenOptions::new().write(true).open(rt, "/dev/full")?;
    let written = written(rt, full)?;
    shown.show("writing to a full disk: taken, failed", &written);
    Ok(())
}

// More texts than a pipe takes, each of 4,096 bytes: Linux gives a pipe 1 MiB at most.
const TEXTS: usize = 300;

type PipeOutput<'a> = Output<'a, PipeWriter, HostRuntime>;

fn show_unread(
    mut reader: PipeReader,
    mut output: PipeOutput<'_>,
    shown: &mut Shown,
) -> io::Result<()> {
    let taken = fill(&mut output);
    shown.show("output: takes until it isn't ready", &(taken > 4_096));
    let read = read_on(&mut reader, &mut output, taken)?;
    shown.show("output: all of it is read", &(read == taken));
    shown.show("output: ready then", &output.ready());
    drop(reader);
    shown.show("output: nobody is left to read: ready", &output.ready());
    let written = output.write(b"a");
    shown.show("output: and taken, failed", &(written, output.faults()));
    Ok(())
}

// How many bytes it takes while it is ready.
fn fill(output: &mut PipeOutput<'_>) -> usize {
    let mut taken = 0_usize;
    for _ in 0..TEXTS {
        if !output.ready() {
            return taken;
        }
        taken = taken.saturating_add(output.write(&[b'a'; 4_096]).unwrap_or(0));
    }
    0
}

// How many bytes come of so many, where what is kept goes on between two reads.
fn read_on(reader: &mut PipeReader, output: &mut PipeOutput<'_>, most: usize) -> io::Result<usize> {
    let mut read = 0_usize;
    for _ in 0..TEXTS {
        if read >= most {
            return Ok(read);
        }
        read = read.saturating_add(reader.read(&mut [0; 4_096])?);
        output.ready();
    }
    Ok(read)
}
