// What a program prints, and what it says on standard error.
use std::fmt::InlineText;
use std::io::{Error, Print};

// Writes a text to standard error. Where that fails there is nobody to tell.
pub fn say(rt: &HostRuntime, text: &[u8]) {
    let _ = Print::write_all(&rt.stderr(), text);
}

// Writes a line to standard error: what failed, as the caller names it, a colon and the system's words for it.
pub fn fail(rt: &HostRuntime, what: &[u8], why: Error) {
    let told = InlineText::<128>::of(why);
    let text = told.as_str();
    // std writes the error's number behind its words
    let words = match text.rsplit_once(" (os error ") {
        Some((words, _)) => words,
        None => text,
    };
    say(rt, what);
    say(rt, b": ");
    say(rt, words.as_bytes());
    say(rt, b"\n");
}

// Writes a text to standard output. One that is cut is said: it would look whole.
pub fn print_text(rt: &HostRuntime, text: &[u8]) {
    if let Err(e) = Print::write_all(&rt.stdout(), text) {
        fail(rt, b"standard output", e);
    }
}
