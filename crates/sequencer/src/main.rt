// The program: it reads a job from standard input, and writes what the command asks for.
#![tactic(auto)]

use std::env;
use std::io::Read;

// How much of standard input is taken as a job; any rest is left unread.
const JOB: u64 = 32768;

const HELP: &str = "\
sequencer COMMAND < JOB

  check   tell for each line of the job what it says, or what is wrong with it
  help    print this text
";

fn check(rt: &HostRuntime) -> anyhow::Result<()> {
    let mut job = Vec::new(rt.alloc());
    rt.stdin().take(JOB).read_to_end(&mut job)?;
    rt.print(report::check(rt.alloc(), job.as_slice())?)?;
    Ok(())
}

fn run(rt: &HostRuntime) -> anyhow::Result<()> {
    let Some(command) = env::args(rt)?.nth(1) else {
        rt.print(HELP)?;
        return Ok(());
    };
    // one command and the text of help need no table
    match command.as_str() {
        "check" => check(rt),
        _ => {
            rt.print(HELP)?;
            Ok(())
        }
    }
}

fn main(rt: HostRuntime) -> anyhow::Result<()> {
    run(&rt)
}
