// Shelves in memory, over the system's files, and over files whose reading is interrupted.
use super::faulty_files::FaultyFiles;
use super::holding::{holds, is_same};
use pl_io::{Bytes, FileShelf, Files, MemShelf, NamedFile, Numbers, Shelf, TakeError, Taken};
use std::alloc::Global;
use std::fs;
use std::process::Abort;

/// How many bytes are taken at most, the answer, and what then stands in a text that was `>` before.
type Row = (usize, Result<Taken, TakeError>, &'static str);

/// A file that is whole, just so, and longer than what is taken.
const FRONTS: [Row; 3] = [
    (9, Ok(Taken::Whole), ">(define)"),
    (8, Ok(Taken::Whole), ">(define)"),
    (7, Ok(Taken::Longer), ">(define"),
];

/// A fault.
const FAULT: [Row; 1] = [(8, Err(TakeError::Failed), ">")];

/// Whether answers are the same.
fn is_answer(answer: Result<Taken, TakeError>, wanted: Result<Taken, TakeError>) -> bool {
    answer == wanted
}

/// A call of a shelf for a file comes to what a row says.
fn comes_to<S: Shelf>(rt: &impl Abort, alloc: Global, shelf: &mut S, name: &str, row: &Row) {
    let (most, wanted, left) = *row;
    let mut into = Vec::from_slice(alloc, b">").expect(rt, "memory");
    let answer = shelf.take(name, most, &mut into);
    holds(rt, is_answer(answer, wanted), name);
    holds(rt, is_same(into.as_slice(), left.as_bytes()), left);
}

/// Makes a call of a shelf for each row, all for one file.
fn takes<S: Shelf>(rt: &impl Abort, alloc: Global, shelf: &mut S, name: &str, rows: &[Row]) {
    for row in rows {
        comes_to(rt, alloc, shelf, name, row);
    }
}

/// The one file of the shelf in memory.
fn domain(rt: &impl Abort, alloc: Global) -> NamedFile {
    let name = Bytes::copied_from(alloc, b"domain").expect(rt, "memory");
    let bytes = Bytes::copied_from(alloc, b"(define)").expect(rt, "memory");
    NamedFile { name, bytes }
}

/// A shelf of one file, whose fifth call fails.
fn shelf_of_one(rt: &impl Abort, alloc: Global) -> MemShelf {
    let mut files = Files::new(alloc);
    files.push(domain(rt, alloc)).ok().expect(rt, "memory");
    let failing = Numbers::copied_from(alloc, &[5]).expect(rt, "memory");
    MemShelf::new(alloc, files, failing)
}

/// Makes the calls of the shelf in memory.
fn take_and_fail(rt: &impl Abort, alloc: Global, shelf: &mut MemShelf) {
    takes(rt, alloc, shelf, "domain", &FRONTS);
    takes(rt, alloc, shelf, "problem", &FAULT);
    takes(rt, alloc, shelf, "domain", &FAULT);
    takes(rt, alloc, shelf, "domain", &[(0, Ok(Taken::Longer), ">")]);
}

/// The calls of the shelf in memory that failed were for these files.
fn have_failed(rt: &impl Abort, failed: &[Bytes]) {
    assert!(rt; failed.len() == 2);
    holds(
        rt,
        is_same(failed[0].as_slice(), b"problem"),
        "no such file",
    );
    holds(rt, is_same(failed[1].as_slice(), b"domain"), "a fault");
}

#[test]
fn takes_files_and_fails_where_told(rt: HostRuntime) {
    let mut shelf = shelf_of_one(&rt, rt.alloc());
    take_and_fail(&rt, rt.alloc(), &mut shelf);
    have_failed(&rt, shelf.failed());
}

#[test]
fn takes_a_real_file(rt: HostRuntime) {
    holds(
        &rt,
        fs::write(&rt, "shelf-file", "(define)").is_ok(),
        "a file",
    );
    let mut shelf = FileShelf::new(&rt, rt.alloc());
    takes(&rt, rt.alloc(), &mut shelf, "shelf-file", &FRONTS);
    for name in &["shelf-none", ".", ""] {
        takes(&rt, rt.alloc(), &mut shelf, name, &FAULT);
    }
    holds(&rt, shelf.failed().len() == 3, "three faults");
    holds(
        &rt,
        fs::remove_file(&rt, "shelf-file").is_ok(),
        "a file is removed",
    );
}

const INTERRUPTED: [Row; 2] = [
    (3, Ok(Taken::Longer), ">aba"),
    (9, Err(TakeError::Failed), ">abab"),
];

#[test]
fn reads_on_after_an_interruption(rt: HostRuntime) {
    let files = FaultyFiles;
    let mut shelf = FileShelf::new(&files, rt.alloc());
    takes(&rt, rt.alloc(), &mut shelf, "file", &INTERRUPTED);
}
