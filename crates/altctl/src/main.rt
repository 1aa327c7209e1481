//! The program `altctl`: a version managed map store with alternatives, in a file.
#![tactic(auto)]

use std::io::ErrorKind;
use std::marker::Brand;
use std::process::ExitCode;
use std::rt::Env;
use std::{env, io};
use vm_cli::{
    Cleared, Console, Progress, RealFiles, lock, refuse_lock, refuse_words, run_words, stop,
};

fn main(rt: HostRuntime) -> ExitCode {
    let progress = Progress::new(&rt);
    let mut errors = Cleared::new(rt.stderr(), &progress);
    // Before anything is opened.
    let mut files = RealFiles::<_, Brand>::new(&rt, &progress);
    let status = match words(&rt) {
        Ok(words) => match lock(&rt, words.as_slice()) {
            // The lock lasts until the answers are given.
            Ok(_lock) => run_words(
                rt.alloc(),
                words.as_slice(),
                &mut files,
                &mut Console::new(&rt, Cleared::new(rt.stdin(), &progress)),
                &mut Cleared::new(rt.stdout(), &progress),
                &mut errors,
            ),
            Err(why) => refuse_lock(why, &mut errors),
        },
        Err(error) if error.kind() == ErrorKind::OutOfMemory => stop(&mut errors),
        Err(_) => refuse_words(&mut errors),
    };
    ExitCode::from(status)
}

/// The words that the program was started with.
fn words<R: Env + AllocGlobal>(rt: &R) -> io::Result<Vec<String>> {
    Ok(env::args(rt)?.collect(rt.alloc())?)
}
