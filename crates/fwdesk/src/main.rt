//! `fwdesk`, a staged firmware rollout server: reads the command line and carries its order out.
#![tactic(auto)]

mod machine;

use crate::machine::Machine;
use desk_server::{carry_out, read_order};
use http_wire::Watched;
use sqlite::Unknown;
use std::alloc::Global;
use std::env;
use std::process::ExitCode;

/// The exit status of a command line that is refused.
const REFUSED: u8 = 2;

/// The words of the command line, the program's own name first. None where one of them isn't UTF-8 or memory is wanting.
fn words(rt: &HostRuntime, alloc: Global) -> Option<Vec<String>> {
    let mut words = Vec::new(alloc);
    for word in env::args(rt).ok()? {
        words.push(word).ok()?;
    }
    Some(words)
}

fn main(rt: HostRuntime) -> ExitCode {
    let alloc = rt.alloc();
    let Some(words) = words(&rt, alloc) else {
        let _told = rt.eprintln("error: the command line can't be read");
        return ExitCode::from(REFUSED);
    };
    match read_order(alloc, words.as_slice()) {
        Ok(order) => {
            let carried_out = carry_out(
                alloc,
                &order,
                &mut Machine::new(&rt),
                Unknown,
                &mut Watched::new(rt.stdin()),
                &mut Watched::new(rt.stdout()),
                &mut Watched::new(rt.stderr()),
            );
            ExitCode::from(carried_out.status)
        }
        Err(error) => {
            let _told = rt.eprint(&error);
            ExitCode::from(REFUSED)
        }
    }
}
