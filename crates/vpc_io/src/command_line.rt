// The words of the command line.
use std::alloc::Global;
use std::env::{self, Env, FillError};
use std::{io, str};

// An environment in which each argument that isn't UTF-8 is empty.
#[derive(Drop)]
struct Texts<'a, E: Env>(&'a E);

impl<'a, E: Env> Env for Texts<'a, E> {
    fn arg(&self, i: usize, buf: &mut [u8]) -> Result<usize, FillError> {
        let n = self.0.arg(i, buf)?;
        Ok(match str::from_utf8(&buf[..n]) {
            Ok(_) => n,
            Err(_) => 0,
        })
    }

    fn var(&self, name: &str, buf: &mut [u8]) -> Result<usize, FillError> {
        self.0.var(name, buf)
    }

    fn var_at(&self, i: usize, buf: &mut [u8]) -> Result<usize, FillError> {
        self.0.var_at(i, buf)
    }
}

/// The arguments after the program's name. One that isn't UTF-8 stands as an empty word.
///
/// # Errors
///
/// Only where memory is refused.
pub fn words_of<E: Env>(alloc: Global, environment: &E) -> io::Result<Vec<String>> {
    let mut words = Vec::new(alloc);
    for word in env::args(&(Texts(environment), alloc))?.skip(1) {
        words.push(word)?;
    }
    Ok(words)
}
