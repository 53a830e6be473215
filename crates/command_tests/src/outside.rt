// What no clause says: that calls succeed with ample memory, and what the system's words, files and
// writers do.
ghost use Rattle.std.specs.Prelude.{◌≡◌, IsOk};
ghost use Rattle.vpc_io.specs.Rose.{Rose};

use std::alloc::{AllocError, Global};
use std::env::{Env, FillError};
use std::io::Read;
use std::test::Fail;
use std::{fs, io};
use vpc_io::{
    CountSink, FileShelf, MemoryShelf, MemorySink, SafeShelf, Shelf, ShelfFault, WriteFailed,
    WriteSink, put_all, read_up_to, words_of,
};

const FAILED: Result<&str, ShelfFault> = Err(ShelfFault::Failed);

const TOO_LONG: Result<&str, ShelfFault> = Err(ShelfFault::TooLong);

// Two files, and one more under the first name.
fn files(alloc: Global) -> Result<Vec<(Vec<u8>, Vec<u8>)>, AllocError> {
    let mut files = Vec::new(alloc);
    for (name, bytes) in [("a", "first"), ("b", ""), ("a", "second")] {
        files.push((
            name.as_bytes().to_vec(alloc)?,
            bytes.as_bytes().to_vec(alloc)?,
        ))?;
    }
    Ok(files)
}

fn is_taken(taken: Result<Vec<u8>, ShelfFault>, expected: Result<&str, ShelfFault>) -> bool {
    match taken {
        Ok(bytes) => expected.map(|text| text.as_bytes()) == Ok(bytes.as_slice()),
        Err(fault) => expected == Err(fault),
    }
}

// What a generic caller knows of its shelf.
fn take_from<S: Shelf>(alloc: Global, shelf: &mut S, name: &str) -> Result<Vec<u8>, ShelfFault>
    ensures { result ≡ Err ShelfFault.Failed
        → Rose (S.faults shelf.old name.now) (S.faults shelf.new name.now) }
{
    shelf.take(alloc, name, 9)
}

// A shelf whose count is the constant 0 never fails, which follows from the trait alone.
fn take_safely(alloc: Global, shelf: &mut SafeShelf, name: &str) -> Result<Vec<u8>, ShelfFault>
    ensures { result ≡ Err ShelfFault.Failed → ⊥ }
{
    take_from(alloc, shelf, name)
}

// Nor does a sink whose count is the constant 0.
fn count_text(text: &[u8]) -> Result<(), WriteFailed>
    ensures { IsOk result }
{
    put_all(&mut CountSink::new(), text)
}

#[test]
fn takes_files_in_memory(rt: HostRuntime) -> Result<(), Fail> {
    let alloc = rt.alloc();
    let mut shelf = MemoryShelf::of(files(alloc)?, [2, 4].to_vec(alloc)?);
    for (name, max, expected) in [
        ("a", 5, Ok("first")),
        ("a", 5, FAILED),
        ("a", 4, TOO_LONG),
        ("b", 0, FAILED),
        ("b", 0, Ok("")),
        ("c", 9, FAILED),
        ("a", 9, Ok("first")),
    ] {
        assert!(rt;
            is_taken(shelf.take(alloc, name, max), expected),
            "{name} {max}"
        );
    }
    let mut safe = SafeShelf::of(files(alloc)?);
    for (name, expected) in [("a", Ok("first")), ("b", Ok("")), ("c", Ok(""))] {
        assert!(rt;
            is_taken(take_safely(alloc, &mut safe, name), expected),
            "{name}"
        );
    }
    assert!(rt; is_taken(safe.take(alloc, "a", 4), TOO_LONG));
    Ok(())
}

#[test]
fn writes_to_memory(rt: HostRuntime) -> Result<(), Fail> {
    let alloc = rt.alloc();
    // The failing call (0: none), the piece, the room, and what is held at the end.
    for (failing, piece, room, held) in [
        (0, 3, 20, "0123456789"),
        (0, 99, 10, "0123456789"),
        (3, 3, 20, "012345"),
        (1, 3, 20, ""),
        (0, 3, 4, "0123"),
        (0, 1, 0, ""),
    ] {
        let mut sink = MemorySink::of(alloc, [failing].to_vec(alloc)?, piece, room)?;
        let put = put_all(&mut sink, b"0123456789");
        assert_eq!(rt; put.is_ok(), held.len() == 10, "{failing} {piece} {room}");
        assert_eq!(rt; sink.bytes(), held.as_bytes(), "{failing} {piece} {room}");
    }
    assert_eq!(rt; count_text(b"0123456789"), Ok(()));
    Ok(())
}

// The arguments of a process, the first of which is its name.
#[derive(Drop)]
struct Arguments(&'static [&'static [u8]]);

impl Env for Arguments {
    fn arg(&self, i: usize, buf: &mut [u8]) -> Result<usize, FillError> {
        let Some(word) = self.0.get(i) else {
            return Err(FillError::NotPresent);
        };
        if word.len() > buf.len() {
            return Err(FillError::TooLong);
        }
        buf[..word.len()].copy_from_slice(word);
        Ok(word.len())
    }

    fn var(&self, _name: &str, _buf: &mut [u8]) -> Result<usize, FillError> {
        Err(FillError::NotPresent)
    }

    fn var_at(&self, _i: usize, _buf: &mut [u8]) -> Result<usize, FillError> {
        Err(FillError::NotPresent)
    }
}

// The words of a command line, each with a blank after it.
fn read_words(alloc: Global, arguments: &'static [&'static [u8]]) -> io::Result<String> {
    let mut all = String::new(alloc);
    for word in words_of(alloc, &Arguments(arguments))? {
        write!(all, "{word} ")?;
    }
    Ok(all)
}

const MANY: [&[u8]; 50] = [b"vpc"; 50];

#[test]
fn reads_words_after_the_name(rt: HostRuntime) -> Result<(), Fail> {
    let alloc = rt.alloc();
    assert_eq!(rt; read_words(alloc, &[])?.as_str(), "");
    assert_eq!(rt; read_words(alloc, &[b"\xff"])?.as_str(), "");
    assert_eq!(rt;
        read_words(alloc, &[b"vpc", b"make", b"3"])?.as_str(),
        "make 3 "
    );
    // Bytes that aren't UTF-8, the first half of a letter, and the letter.
    assert_eq!(rt;
        read_words(alloc, &[b"vpc", b"a\xff", b"\xc3", b"\xc3\xa4"])?.as_str(),
        "  \u{e4} "
    );
    assert_eq!(rt; read_words(alloc, &MANY)?.len(), 49 * 4);
    // Longer than a buffer that is tried first.
    assert_eq!(rt; read_words(alloc, &[b"vpc", &[b'x'; 3000]])?.len(), 3001);
    Ok(())
}

// Gives these pieces, one a read, and then fails, or is at its end.
#[derive(Drop)]
struct Pieces {
    pieces: &'static [&'static str],
    fails: bool,
}

impl Read for Pieces {
    fn read(&mut self, buf: &mut [u8]) -> io::Result<usize> {
        let [piece, rest @ ..] = self.pieces else {
            return if self.fails {
                Err(io::ErrorKind::Other.into())
            } else {
                Ok(0)
            };
        };
        self.pieces = rest;
        let n = piece.len().min(buf.len());
        buf[..n].copy_from_slice(&piece.as_bytes()[..n]);
        Ok(n)
    }
}

#[test]
fn reads_piece_by_piece(rt: HostRuntime) {
    for (max, fails, expected) in [
        (5, false, Ok("abcde")),
        (4, false, TOO_LONG),
        (5, true, FAILED),
        // The limit is passed before the read that would fail.
        (4, true, TOO_LONG),
    ] {
        let mut pieces = Pieces {
            pieces: &["ab", "c", "de"],
            fails,
        };
        assert!(rt;
            is_taken(read_up_to(rt.alloc(), &mut pieces, max), expected),
            "{max} {fails}"
        );
    }
}

const PATH: &str = "vpc_io_test";

// A text of 2 MiB, no two lines alike.
fn long_text(alloc: Global) -> Result<String, AllocError> {
    let mut text = String::new(alloc);
    for line in 1_000_000..1_262_144u32 {
        write!(text, "{line}\n")?;
    }
    Ok(text)
}

#[test]
fn takes_and_writes_files(rt: HostRuntime) -> Result<(), Fail> {
    let long = long_text(rt.alloc())?;
    for (text, length) in [("01234567", 8), (long.as_str(), 2_097_152)] {
        let mut sink = WriteSink::of(fs::create(&rt, PATH)?);
        assert_eq!(rt; put_all(&mut sink, text.as_bytes()), Ok(()));
        let mut shelf = FileShelf::of(&rt);
        for (name, max, expected) in [
            (PATH, length, Ok(text)),
            (PATH, length - 1, TOO_LONG),
            ("vpc_io_no_such_file", length, FAILED),
            // A directory can be opened, and not read.
            (".", length, FAILED),
        ] {
            assert!(rt;
                is_taken(shelf.take(rt.alloc(), name, max), expected),
                "{name} {max}"
            );
        }
    }
    fs::remove_file(&rt, PATH)?;
    let mut full = WriteSink::of(fs::create(&rt, "/dev/full")?);
    assert_eq!(rt; put_all(&mut full, b"01234567"), Err(WriteFailed));
    Ok(())
}
