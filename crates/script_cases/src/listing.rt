// The cases that there are.
use std::alloc::Global;
use std::rt::Files;
use std::{fs, io};

/// The names of the cases, sorted: `FOLDER/NAME` for each file `FOLDER/NAME.out`.
pub fn case_names<R: Files + AllocGlobal + Clone + Drop>(rt: &R) -> io::Result<Vec<String>> {
    let mut names = Vec::new(rt.alloc());
    for folder in fs::read_dir(rt, ".")? {
        let folder = folder?;
        if folder.file_type()?.is_dir() {
            list_folder(rt, folder.file_name(), ".out", &mut names)?;
        }
    }
    names.sort()?;
    Ok(names)
}

/// The names `FOLDER/NAME` of the files `FOLDER/NAMEENDING`, sorted.
pub fn names_in<R: Files + AllocGlobal + Clone + Drop>(
    rt: &R,
    folder: &str,
    ending: &str,
) -> io::Result<Vec<String>> {
    let mut names = Vec::new(rt.alloc());
    list_folder(rt, folder, ending, &mut names)?;
    names.sort()?;
    Ok(names)
}

fn list_folder<R: Files + AllocGlobal + Clone + Drop>(
    rt: &R,
    folder: &str,
    ending: &str,
    names: &mut Vec<String>,
) -> io::Result<()> {
    let alloc: Global = rt.alloc();
    for file in fs::read_dir(rt, folder)? {
        let file = file?;
        if let Some(name) = file.file_name().strip_suffix(ending) {
            names.push(format!(in alloc; "{folder}/{name}")?)?;
        }
    }
    Ok(())
}
