//! The program `rsp`: the work of `rsp_cli`, with the system's arguments, files and standard streams.
#![tactic(auto)]

use rsp_bench::MachineRunner;
use rsp_cli::{SystemFiles, Terminals, refuse_arguments, work};
use std::io::IsTerminal;
use std::process::ExitCode;
use std::{env, io};

fn words(rt: &HostRuntime) -> io::Result<Vec<String>> {
    Ok(env::args(rt)?.collect(rt.alloc())?)
}

fn terminals(rt: &HostRuntime) -> Terminals {
    Terminals {
        input: rt.stdin().is_terminal(),
        output: rt.stdout().is_terminal(),
        errors: rt.stderr().is_terminal(),
    }
}

fn main(rt: HostRuntime) -> ExitCode {
    let mut errors = rt.stderr();
    let status = match words(&rt) {
        Ok(words) => work(
            rt.alloc(),
            words.as_slice(),
            &MachineRunner,
            &mut SystemFiles::new(&rt, terminals(&rt)),
            rt.reader(),
            io::writer(&rt),
            &mut errors,
        ),
        Err(error) => refuse_arguments(&error, &mut errors),
    };
    ExitCode::from(status.code())
}
