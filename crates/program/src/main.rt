//! The program binlogfeed: what its words ask for is done by the library of that name.
#![tactic(auto)]

use binlogfeed::audience::Audience;
use binlogfeed::program::answer;
use std::io::IsTerminal;
use std::process::ExitCode;

fn main(rt: HostRuntime) -> ExitCode {
    let audience = Audience::of(&rt, rt.stderr().is_terminal());
    ExitCode::from(answer(&rt, audience))
}
