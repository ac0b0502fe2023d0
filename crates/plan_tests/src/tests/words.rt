// The files that words name.
use super::runs::{holds, split};
use requests::laws::laws;
use requests::{Request, read_words};

// Whether a file is named, by this name.
fn is_file(request: &Request<'_>, number: usize, name: &str) -> bool {
    match request.file(number) {
        Some(file) => file == name,
        None => false,
    }
}

// Whether these files are named, and no more.
fn are_files(request: &Request<'_>) -> bool {
    is_file(request, 0, "")
        && is_file(request, 1, "-p")
        && is_file(request, 2, "l")
        && request.file(3).is_none()
}

#[test]
fn lists_files(rt: HostRuntime) {
    laws();
    let text = "check --  -p l";
    let words = split(&rt, rt.alloc(), text);
    let read = read_words(rt.alloc(), words.as_slice())
        .ok()
        .expect(&rt, "memory");
    let request = read.expect(&rt, "words that are taken");
    holds(&rt, are_files(&request), text);
}
