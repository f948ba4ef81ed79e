// What is printed of a table.
use crate::bench::Bench;
use crate::tables::Subject;
use std::alloc::{AllocError, Global};

/// The text of a table, the last answer, how many cases were told, and how many had another answer than the wanted one.
#[derive(Drop)]
pub struct Told {
    text: String,
    answer: String,
    cases: u64,
    differ: u64,
}

impl Told {
    pub fn new(alloc: Global) -> Told {
        Told {
            text: String::new(alloc),
            answer: String::new(alloc),
            cases: 0,
            differ: 0,
        }
    }

    pub fn text(&self) -> &str {
        self.text.as_str()
    }

    /// Whether there are cases, and none of them differs.
    pub fn is_as_wanted(&self) -> bool {
        self.cases > 0 && self.differ == 0
    }

    // Prints a case where its answer isn't the wanted one.
    fn compare(&mut self, given: &str, wanted: &str) -> Result<(), AllocError> {
        self.cases = self.cases.saturating_add(1);
        if self.answer.as_str() == wanted {
            return Ok(());
        }
        self.differ = self.differ.saturating_add(1);
        writeln!(self.text, "{given} = {}, and not {wanted}", self.answer)
    }

    fn print(&mut self, case: &str) -> Result<(), AllocError> {
        self.cases = self.cases.saturating_add(1);
        writeln!(self.text, "{case} => {}", self.answer)
    }
}

/// Tells each line of a table, but comments.
pub fn tell_lines(
    alloc: Global,
    table: &str,
    subject: Subject,
    lines: &str,
    told: &mut Told,
) -> Result<(), AllocError> {
    if !subject.is_compared() {
        writeln!(told.text, "{table}:")?;
    }
    tell_cases(alloc, subject, lines, told)?;
    if subject.is_compared() {
        writeln!(
            told.text,
            "{table}: {} cases, {} differ",
            told.cases, told.differ
        )?;
    }
    Ok(())
}

fn tell_cases(
    alloc: Global,
    subject: Subject,
    lines: &str,
    told: &mut Told,
) -> Result<(), AllocError> {
    let mut bench = Bench::new(alloc)?;
    for line in lines.lines() {
        if !line.starts_with('#') {
            tell_case(alloc, &mut bench, subject, line, told)?;
        }
    }
    Ok(())
}

fn tell_case(
    alloc: Global,
    bench: &mut Bench,
    subject: Subject,
    line: &str,
    told: &mut Told,
) -> Result<(), AllocError> {
    if !subject.is_compared() {
        bench.answer(alloc, subject, line, &mut told.answer)?;
        return told.print(line);
    }
    match line.split_once(" = ") {
        Some((given, wanted)) => {
            bench.answer(alloc, subject, given, &mut told.answer)?;
            told.compare(given, wanted)
        }
        None => bench.answer(alloc, subject, line, &mut told.answer),
    }
}
