// The reports on the days in the folders that it is started with, each behind its folder's name.
#![tactic(auto)]

use std::env::FillError;
use std::rt::{Env, Files};

// The folder's name, and the report on its files. A name that cannot be written is missing in the output; the report's own message
// says why.
fn print_folder(rt: &(impl Files + Print + Eprint), name: &[u8]) {
    let _ = rt.write_all(name);
    let _ = rt.write_all(b"\n");
    files::print_report(rt, name);
}

fn main(rt: HostRuntime) {
    let mut name = [0u8; 4096];
    for i in 1..usize::MAX {
        match rt.arg(i, &mut name) {
            Ok(n) => print_folder(&rt, &name[..n]),
            Err(FillError::TooLong) => {
                let _ = rt.eprintln("folder: File name too long");
            }
            Err(FillError::NotPresent) => break,
        }
    }
}
