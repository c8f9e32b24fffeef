// Files by the arguments that a program over traces is started with, standard output and standard error. What fails is said in one line on
// standard error: a program's exit status says nothing of it. What the system hands over is no argument of a function here, so their contracts
// leave it open.
#![tactic(auto)]

mod said;

ghost use Rattle.std.specs.Prelude.{◌≡◌, ◌-◌, ◌≤◌, length, IfOk, IfSome};
ghost use Rattle.io.specs.Counts.{IsPrefixLen};
ghost use Rattle.program_files.specs.Reads.{turn_of, Within};

use octets::equal_bytes::same;
use octets::words::front;
use said::fail;
pub use said::{print_text, say};
use std::env::FillError;
use std::fs;
use std::fs::{File, OpenOptions, Permissions};
use std::io::{Error, Read, Result, Write};
use std::os::unix::fs::{MetadataExt, OpenOptionsExt, PermissionsExt};
use std::random::RandomSource;
use std::rt::Env;
use std::str::from_utf8;

// Linux's numbers of errors.
const NO_FILE: i32 = 2;

const FILE_EXISTS: i32 = 17;

const INVALID: i32 = 22;

const NAME_TOO_LONG: i32 = 36;

const ILLEGAL_BYTES: i32 = 84;

// The kinds of files in a mode.
const KIND: u32 = 0o170000;

const PIPE: u32 = 0o010000;

const DEVICE: u32 = 0o020000;

const REGULAR: u32 = 0o100000;

// How many names are tried for the file beside a path.
const TRIES: u8 = 100;

// How many arguments the program was started with, its own name among them.
pub fn argument_count(rt: &HostRuntime) -> usize {
    let mut nothing = [0u8; 0];
    for i in 0..usize::MAX {
        if let Err(FillError::NotPresent) = rt.arg(i, &mut nothing) {
            return i;
        }
    }
    usize::MAX
}

// Puts argument i at the start of buf, and answers its length; 0 where it is missing or longer than buf. No Option: both callers take it as
// empty then.
pub fn argument(rt: &HostRuntime, i: usize, buf: &mut [u8]) -> usize
    ensures { IsPrefixLen result buf.new }
{
    match rt.arg(i, buf) {
        Ok(n) => io::count(n as isize, buf),
        Err(_) => 0,
    }
}

fn reason(e: FillError) -> Error {
    match e {
        FillError::NotPresent => Error::from_raw_os_error(INVALID),
        FillError::TooLong => Error::from_raw_os_error(NAME_TOO_LONG),
    }
}

// What a read says: how many bytes came, none at the file's end. A read that fails is no end.
#[tactic(auto, unfolding(crate::specs::Reads::turn_of))]
fn judge(answer: Result<usize>, room: &[u8]) -> Result<usize>
    ensures { result ≡ turn_of answer (length room.now) }
{
    match answer {
        Ok(n) => Ok(n.min(room.len())),
        Err(e) => Err(e),
    }
}

// One read behind the bytes up to `at`.
#[tactic(auto, unfolding(crate::specs::Reads::turn_of))]
fn read_on(file: &mut File, room: &mut [u8], at: usize) -> Result<usize>
    requires { at ≤ length room.old }
    ensures { Within (length room.old - at) result }
{
    let rest = &mut room[at..];
    let answer = file.read(rest);
    judge(answer, rest)
}

// Reads until a read says that the file ends, until one fails, or until the slice is full. The answer is how many of the file's bytes stand
// at the slice's start.
fn read_all(file: &mut File, room: &mut [u8]) -> Result<usize>
    ensures { IfOk result (λ n. IsPrefixLen n room.new) }
{
    let mut at = 0;
    while at < room.len() {
        let n = read_on(file, room, at)?;
        if n == 0 {
            return Ok(at);
        }
        at += n;
    }
    Ok(at)
}

fn read_path(rt: &HostRuntime, path: &str, room: &mut [u8]) -> Result<usize>
    ensures { IfOk result (λ n. IsPrefixLen n room.new) }
{
    let mut file = File::open(rt, path)?;
    read_all(&mut file, room)
}

// The path that argument i is, which the usage line calls `name`. None where it is none, which is said.
fn path_at<'a>(rt: &HostRuntime, i: usize, name: &[u8], room: &'a mut [u8]) -> Option<&'a str> {
    let n = match rt.arg(i, room) {
        Ok(n) => n,
        Err(e) => {
            fail(rt, name, reason(e));
            return None;
        }
    };
    match from_utf8(&room[..n]) {
        Ok(path) => Some(path),
        Err(_) => {
            fail(rt, &room[..n], Error::from_raw_os_error(ILLEGAL_BYTES));
            None
        }
    }
}

// Reads the file that argument i names, which the usage line calls `name`, to its end or to the slice's: the answer is how many of its bytes
// stand at the slice's start. None where it cannot be read, which is said.
pub fn read_argument(rt: &HostRuntime, i: usize, name: &[u8], file: &mut [u8]) -> Option<usize>
    ensures { IfSome result (λ n. IsPrefixLen n file.new) }
{
    let mut room = io::buffer();
    let path = path_at(rt, i, name, &mut room)?;
    match read_path(rt, path, file) {
        Ok(n) => Some(n),
        Err(e) => {
            fail(rt, path.as_bytes(), e);
            None
        }
    }
}

// One byte more than the longest trace that a program writes, a rescue of 74,916 bytes: room for every file that could be the same.
fn same_room() -> [u8; 74917]
    ensures { length result ≡ 74917 }
{
    [0; 74917]
}

// Whether a file holds these bytes and no more. What is not known counts as no.
fn holds(rt: &HostRuntime, path: &str, bytes: &[u8]) -> bool {
    let mut old = same_room();
    match read_path(rt, path, &mut old) {
        Ok(n) => n < old.len() && same(front(&old, n), bytes),
        Err(_) => false,
    }
}

fn is_link(rt: &HostRuntime, path: &str) -> bool {
    match fs::symlink_metadata(rt, path) {
        Ok(data) => data.is_symlink(),
        Err(_) => false,
    }
}

// What kind of file is open, and who may do what with it, where the system tells.
fn mode_of(file: &File) -> Option<u32> {
    match file.metadata() {
        Ok(data) => Some(data.mode()),
        Err(_) => None,
    }
}

// Gives a file a mode, or leaves it the one that it has.
fn give_mode(file: &File, mode: Option<u32>) -> Result<()> {
    match mode {
        Some(mode) => file.set_permissions(Permissions::from_mode(mode & 0o7777)),
        None => Ok(()),
    }
}

// Writes all of a file, to the disk, with its mode, and closes it.
fn fill(mut file: File, bytes: &[u8], mode: Option<u32>) -> Result<()> {
    file.write_all(bytes)?;
    give_mode(&file, mode)?;
    file.sync_all()
}

// The path itself may well be written: what fails is to make a file in its folder.
fn fail_beside(rt: &HostRuntime, path: &str, why: Error) {
    say(rt, path.as_bytes());
    fail(rt, b": no new file can be made in its folder", why);
}

fn put(name: &mut [u8], at: usize, byte: u8) {
    if at < name.len() {
        name[at] = byte;
    }
}

// A digit or a letter for each number.
fn letter(x: u8) -> u8 {
    let d = x % 62;
    if d < 10 {
        b'0' + d
    } else if d < 36 {
        b'a' + (d - 10)
    } else {
        b'A' + (d - 36)
    }
}

// Puts a dot and six letters behind the first n bytes of a name, by chance.
fn put_letters(rt: &HostRuntime, name: &mut [u8], n: usize, turn: u8) {
    let mut drawn = [0u8; 6];
    if rt.fill_bytes(&mut drawn).is_err() {
        drawn[5] = turn;
    }
    put(name, n, b'.');
    for (k, x) in drawn.iter().enumerate() {
        put(name, n.saturating_add(1 + k), letter(*x));
    }
}

// The file by one name beside the path, which must be new. Where a mode is to be kept it is for its user alone until it has that.
fn make_named(rt: &HostRuntime, beside: &[u8], mode: Option<u32>) -> Result<File> {
    let name = match from_utf8(beside) {
        Ok(name) => name,
        Err(_) => return Err(Error::from_raw_os_error(ILLEGAL_BYTES)),
    };
    let first = if mode.is_none() { 0o666 } else { 0o600 };
    OpenOptions::new()
        .write(true)
        .create_new(true)
        .mode(first)
        .open(rt, name)
}

// A new file beside the path, by a name that no other has: the first n bytes of `beside`, a dot and six letters.
fn make_beside(rt: &HostRuntime, beside: &mut [u8], n: usize, mode: Option<u32>) -> Result<File> {
    for turn in 0..TRIES {
        put_letters(rt, beside, n, turn);
        match make_named(rt, beside, mode) {
            Ok(file) => return Ok(file),
            Err(e) => {
                if e.raw_os_error() != Some(FILE_EXISTS) {
                    return Err(e);
                }
            }
        }
    }
    Err(Error::from_raw_os_error(FILE_EXISTS))
}

// Gives the file beside the path the path's name, once it is written. `beside` is its own name until then.
fn exchange(
    rt: &HostRuntime,
    file: File,
    beside: &str,
    path: &str,
    bytes: &[u8],
    mode: Option<u32>,
) -> Result<()> {
    let done = fill(file, bytes, mode).and_then(|()| fs::rename(rt, beside, path));
    if done.is_err() {
        let _ = fs::remove_file(rt, beside);
    }
    done
}

// Writes a new file and gives it the path's name, so that at every moment this names the old file or the new one, whole. `beside` has the
// path's n bytes first, and room for what makes of it the name of a file in the same folder. `mode` is the old file's.
fn replace(
    rt: &HostRuntime,
    path: &str,
    beside: &mut [u8],
    n: usize,
    bytes: &[u8],
    mode: Option<u32>,
) -> bool {
    let file = match make_beside(rt, beside, n, mode) {
        Ok(file) => file,
        Err(e) => {
            fail_beside(rt, path, e);
            return false;
        }
    };
    let done = match from_utf8(beside) {
        Ok(name) => exchange(rt, file, name, path, bytes, mode),
        Err(_) => Err(Error::from_raw_os_error(ILLEGAL_BYTES)),
    };
    match done {
        Ok(()) => true,
        Err(e) => {
            fail(rt, path.as_bytes(), e);
            false
        }
    }
}

// Writes to what is no file on a disk, as a pipe or /dev/null: it has no bytes to lose, and must keep its name.
fn write_through(rt: &HostRuntime, mut file: File, path: &str, bytes: &[u8]) -> bool {
    match file.write_all(bytes) {
        Ok(()) => true,
        Err(e) => {
            fail(rt, path.as_bytes(), e);
            false
        }
    }
}

// Refuses what is named, with a reason.
fn refuse(rt: &HostRuntime, path: &str, why: &[u8]) -> bool {
    say(rt, path.as_bytes());
    say(rt, why);
    false
}

// Room for the name of a file beside a path.
fn beside_room() -> [u8; 4096]
    ensures { 4096 ≡ length result }
{
    [0; 4096]
}

// Writes a new file by argument i, which is this path.
fn write_anew(rt: &HostRuntime, i: usize, path: &str, bytes: &[u8], mode: Option<u32>) -> bool {
    if is_link(rt, path) {
        return refuse(rt, path, b": is a link: name the file that it leads to\n");
    }
    let mut beside = beside_room();
    let n = argument(rt, i, &mut beside);
    // never more than there is room for: such a name is too long for the system
    let whole = io::count((n + 7) as isize, &beside);
    replace(rt, path, &mut beside[..whole], n, bytes, mode)
}

// Writes over a file that is there, and open for writing.
fn write_over(rt: &HostRuntime, i: usize, file: File, path: &str, bytes: &[u8]) -> bool {
    let mode = mode_of(&file);
    let kind = mode.unwrap_or(0) & KIND;
    if kind == PIPE || kind == DEVICE {
        return write_through(rt, file, path, bytes);
    }
    drop(file);
    if kind != REGULAR {
        return refuse(rt, path, b": is neither a file nor a pipe\n");
    }
    if holds(rt, path, bytes) {
        return true;
    }
    write_anew(rt, i, path, bytes, mode)
}

fn write_path(rt: &HostRuntime, i: usize, path: &str, bytes: &[u8]) -> bool {
    // open for writing, so that a file that may not be written is refused; nothing is appended to a file on a disk
    match OpenOptions::new().append(true).open(rt, path) {
        Ok(file) => write_over(rt, i, file, path, bytes),
        Err(e) => {
            if e.raw_os_error() != Some(NO_FILE) {
                fail(rt, path.as_bytes(), e);
                return false;
            }
            write_anew(rt, i, path, bytes, None)
        }
    }
}

// Writes the file that argument i names, which the usage line calls `name`, and says whether it now holds these bytes. Where it does not,
// it is as it was. One that holds them already is left alone.
pub fn write_argument(rt: &HostRuntime, i: usize, name: &[u8], bytes: &[u8]) -> bool {
    let mut room = io::buffer();
    match path_at(rt, i, name, &mut room) {
        Some(path) => write_path(rt, i, path, bytes),
        None => false,
    }
}
