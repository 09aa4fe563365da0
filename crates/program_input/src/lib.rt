// What programs read: the bytes that a reader has, as many as there is room for, and those of a file that an argument names.
#![tactic(auto)]

ghost use Rattle.std.specs.Prelude.{◌≡◌, ℕ, ◌≤◌, ◌<◌, length, take, IfOk, OnErr, IfSome};
ghost use Rattle.std.specs.Io.{ReadsAtMost};
ghost use Rattle.std.specs.Io.KnownBytes.{Consumes, IsAtEnd, Keeps};

use std::env::{Env, FillError};
use std::io::{Cursor, Error, ErrorKind, Read, Write};
use std::rt::Files;
use std::{fs, io};

/// The bytes of a file's name, at most: no path is longer.
pub const NAME_ROOM: usize = 4096;

// The bytes of a failure's words, at most: the system's are shorter.
const WORDS_ROOM: usize = 128;

// The system's numbers of an argument that is missing and of one that is too long.
const INVALID_ARGUMENT: i32 = 22;

const NAME_TOO_LONG: i32 = 36;

/// What was read of a file that an argument names: how many bytes its name has, and how many were read of it.
#[derive(Clone, Copy)]
pub struct NamedFile {
    pub name: usize,
    pub bytes: usize,
}

/// Reads until `out` is full or the reader is at its end, however few bytes each read gives; returns how many bytes stand at the start of `out`.
/// Where a read fails, what was read before it stands there.
pub fn read_up_to<R: Read>(reader: &mut R, out: &mut [u8]) -> io::Result<usize>
    ensures within { ReadsAtMost result out.new }
    ensures bytes { IfOk result (λ n. Consumes (R.remaining reader.old) (R.remaining reader.new) (take n out.new)) }
    ensures end { IfOk result (λ n. n < length out.new → IsAtEnd (R.remaining reader.new)) }
    ensures failed { OnErr result ((n : ℕ) × (n < length out.new) × Consumes (R.remaining reader.old) (R.remaining reader.new) (take n out.new)) }
{
    let (done, end) = fill(reader, out);
    end?;
    Ok(done)
}

// The same, where a failure is taken for the reader's end.
fn read_until_failure<R: Read>(reader: &mut R, out: &mut [u8]) -> usize
    ensures { result ≤ length out.new }
{
    let (done, _) = fill(reader, out);
    done
}

// Reads until `out` is full, the reader is at its end or a read fails; returns how many bytes stand at the start of `out`, and the failure.
fn fill<R: Read>(reader: &mut R, out: &mut [u8]) -> (usize, io::Result<()>)
    ensures within { result.0 ≤ length out.new }
    ensures bytes { Consumes (R.remaining reader.old) (R.remaining reader.new) (take result.0 out.new) }
    ensures end { IfOk result.1 (λ _. result.0 < length out.new → IsAtEnd (R.remaining reader.new)) }
    ensures failed { OnErr result.1 (result.0 < length out.new) }
{
    let mut done = 0;
    // Kept: no plainer; done moves by as many bytes as a read gave.
    while done < out.len() {
        match read_some(reader, &mut out[done..]) {
            Ok(0) => return (done, Ok(())),
            Ok(n) => done += n,
            Err(e) => return (done, Err(e)),
        }
    }
    (done, Ok(()))
}

// One read, tried again where a signal interrupts it.
fn read_some<R: Read>(reader: &mut R, out: &mut [u8]) -> io::Result<usize>
    ensures within { ReadsAtMost result out.new }
    ensures bytes { IfOk result (λ n. Consumes (R.remaining reader.old) (R.remaining reader.new) (take n out.new)) }
    ensures end { IfOk result (λ n. n ≡ 0 → 0 < length out.new → IsAtEnd (R.remaining reader.new)) }
    ensures failed { OnErr result (Keeps (R.remaining reader.old) (R.remaining reader.new)) }
{
    for _ in 0..u64::MAX {
        match reader.read(out) {
            Ok(n) => return Ok(n),
            Err(e) => {
                if e.kind() != ErrorKind::Interrupted {
                    return Err(e);
                }
            }
        }
    }
    Err(Error::from(ErrorKind::Interrupted))
}

/// Whether the program has an argument of this number: its own name is number 0.
pub fn has_argument(env: &impl Env, number: usize) -> bool {
    !matches!(env.arg(number, &mut []), Err(FillError::NotPresent))
}

/// Reads the file that an argument names: puts its name at the start of `name`, and its bytes, as many as there is room for, at the start of
/// `out`. Where it cannot be opened there is none, and `errors` is told why, by its name, as far as it can be told. A name that is not UTF-8
/// cannot be opened. A read that fails is taken for the file's end.
pub fn read_named<R: Env + Files>(
    rt: &R,
    errors: &impl Print,
    number: usize,
    name: &mut [u8],
    out: &mut [u8],
) -> Option<NamedFile>
    ensures { IfSome result (λ f. (f.name ≤ length name.new) × (f.bytes ≤ length out.new)) }
{
    let n = match rt.arg(number, name) {
        Ok(n) => n,
        Err(e) => {
            let _ = complain(errors, b"name", no_argument(e));
            return None;
        }
    };
    match read_file(rt, &name[..n], out) {
        Ok(bytes) => Some(NamedFile { name: n, bytes }),
        Err(e) => {
            let _ = complain(errors, &name[..n], e);
            None
        }
    }
}

// Why an argument was not given whole.
fn no_argument(e: FillError) -> Error {
    match e {
        FillError::NotPresent => Error::from_raw_os_error(INVALID_ARGUMENT),
        FillError::TooLong => Error::from_raw_os_error(NAME_TOO_LONG),
    }
}

// Reads the file of a name, and returns how many bytes stand at the start of `out`.
fn read_file<R: Files>(files: &R, name: &[u8], out: &mut [u8]) -> io::Result<usize>
    ensures { IfOk result (λ n. n ≤ length out.new) }
{
    match std::str::from_utf8(name) {
        Ok(path) => Ok(read_until_failure(&mut fs::open(files, path)?, out)),
        Err(_) => Err(Error::from(ErrorKind::InvalidFilename)),
    }
}

// Writes a line: what failed, a colon and why, in the system's words.
fn complain(errors: &impl Print, what: &[u8], why: Error) -> io::Result<()> {
    let mut text = Cursor::new([0u8; WORDS_ROOM]);
    let _ = write!(text, "{why}");
    let bytes = text.into_inner();
    errors.write_all(what)?;
    errors.write_all(b": ")?;
    errors.write_all(words(&bytes).as_bytes())?;
    errors.write_all(b"\n")
}

// A failure's words without what std adds to the system's, its number, and without the zeros after them.
fn words(text: &[u8]) -> &str {
    let text = std::str::from_utf8(text).unwrap_or("");
    match text.split_once(" (os error ") {
        Some((front, _)) => front,
        None => text.trim_end_matches('\0'),
    }
}

#[cfg(test)]
mod tests {
    use super::*;

    // Bytes that come one a read, after a read that a signal interrupts; then a failure, or the end.
    #[derive(Drop)]
    struct Slow {
        given: u8,
        is_interrupted: bool,
        fails: bool,
    }

    impl Read for Slow {
        fn read(&mut self, out: &mut [u8]) -> io::Result<usize> {
            if !self.is_interrupted {
                self.is_interrupted = true;
                return Err(Error::from(ErrorKind::Interrupted));
            }
            self.is_interrupted = false;
            if self.given < 3 && 0 < out.len() {
                self.given += 1;
                out[0] = self.given;
                return Ok(1);
            }
            if self.fails {
                return Err(Error::from(ErrorKind::BrokenPipe));
            }
            Ok(0)
        }
    }

    fn reader(fails: bool) -> Slow {
        Slow {
            given: 0,
            is_interrupted: false,
            fails,
        }
    }

    #[test]
    fn reads_whatever_the_short_reads(rt: HostRuntime) {
        let mut out = [9u8; 5];
        assert_eq!(rt; read_up_to(&mut reader(false), &mut out[..2]).ok(), Some(2));
        assert_eq!(rt; out, [1, 2, 9, 9, 9]);
        assert_eq!(rt; read_up_to(&mut reader(false), &mut out).ok(), Some(3));
        assert_eq!(rt; out, [1, 2, 3, 9, 9]);
    }

    #[test]
    fn fails_where_a_read_fails(rt: HostRuntime) {
        let mut out = [0u8; 4];
        match read_up_to(&mut reader(true), &mut out) {
            Ok(_) => assert!(rt; false),
            Err(e) => assert!(rt; e.kind() == ErrorKind::BrokenPipe),
        }
        assert_eq!(rt; read_up_to(&mut reader(true), &mut out[..3]).ok(), Some(3));
    }

    #[test]
    fn takes_a_failure_for_the_end(rt: HostRuntime) {
        let mut out = [9u8; 5];
        assert_eq!(rt; read_until_failure(&mut reader(true), &mut out), 3);
        assert_eq!(rt; out, [1, 2, 3, 9, 9]);
    }

    #[test]
    fn words_are_the_systems(rt: HostRuntime) {
        assert_eq!(rt;
            words(b"Not a directory (os error 20)\0\0"),
            "Not a directory"
        );
        assert_eq!(rt; words(b"invalid filename\0"), "invalid filename");
    }
}
