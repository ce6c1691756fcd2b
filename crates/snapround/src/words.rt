//! The words that the program is called with.

use crate::play::Status;
use std::env;
use std::env::FillError;
use std::io::ErrorKind;
use std::rt::Env;

/// What the program is called with, but for its own name: argument 0 is the first word.
#[derive(Drop)]
struct AfterName<'a, R> {
    whole: &'a R,
}

impl<R: Env> Env for AfterName<'_, R> {
    fn arg(&self, i: usize, buf: &mut [u8]) -> Result<usize, FillError> {
        match i.checked_add(1) {
            Some(place) => self.whole.arg(place, buf),
            None => Err(FillError::NotPresent),
        }
    }

    fn var(&self, name: &str, buf: &mut [u8]) -> Result<usize, FillError> {
        self.whole.var(name, buf)
    }

    fn var_at(&self, i: usize, buf: &mut [u8]) -> Result<usize, FillError> {
        self.whole.var_at(i, buf)
    }
}

/// The words after the program's name, which need not be UTF-8. A word that isn't UTF-8 is one that
/// the program doesn't take.
pub(crate) fn words(rt: &(impl Env + AllocGlobal)) -> Result<Vec<String>, Status> {
    let after_name = AfterName { whole: rt };
    match env::args(&(after_name, rt.alloc())) {
        Ok(args) => args.collect(rt.alloc()).map_err(|_| Status::Memory),
        Err(error) if error.kind() == ErrorKind::OutOfMemory => Err(Status::Memory),
        Err(_) => Err(Status::BadWords),
    }
}
