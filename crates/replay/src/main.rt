// Runs the books whose files its arguments name, one after the other: for each a line with the name, then what `dispatch` prints for it.
#![tactic(auto)]

use session::Failure;
use std::env::FillError;
use std::fs::File;
use std::io::{Error, ErrorKind};
use std::rt::{Env, Files};
use std::{io, str};

fn replay_book(rt: &(impl Files + Print), name: &str) -> Result<(), Failure> {
    let mut file = File::open(rt, name).map_err(Failure::Input)?;
    session::serve(&mut file, &mut io::writer(rt))
}

fn replay_file(rt: &(impl Files + Print + Eprint), name: &str) {
    let _ = rt.println(name);
    if let Err(failure) = replay_book(rt, name) {
        session::complain(rt, name, failure);
    }
}

fn complain(rt: &impl Eprint, kind: ErrorKind) {
    session::complain(rt, "argument", Failure::Input(Error::from(kind)));
}

fn main(rt: HostRuntime) {
    let mut name = [0u8; 4096];
    // by their numbers, since the library's iterator of arguments allocates
    for i in 1..usize::MAX {
        match rt.arg(i, &mut name) {
            Ok(n) => match str::from_utf8(&name[..n]) {
                Ok(name) => replay_file(&rt, name),
                Err(_) => complain(&rt, ErrorKind::InvalidData),
            },
            Err(FillError::TooLong) => complain(&rt, ErrorKind::InvalidFilename),
            Err(FillError::NotPresent) => break,
        }
    }
}
