// The program: arguments, files and printing.
#![tactic(auto)]

mod files;
mod replay;

use anyhow::bail;
use base::LoadError;
use console::{Command, HELP, Outcome, SourceKind, UnknownCommand, judge_files, settle_file};
use files::{read_file, read_named};
use replay::replay_lines;
use std::env;
use std::env::Args;
use std::io::Write;
use std::process::ExitCode;

// A refusal ends with status 1 and no word on standard error, so no error is returned here.
fn main(rt: HostRuntime) -> ExitCode {
    match run(&rt) {
        Ok(status) => status,
        Err(e) => {
            let _ = eprintln!(rt; "dumixagorl: {e}");
            ExitCode::FAILURE
        }
    }
}

fn run(rt: &HostRuntime) -> anyhow::Result<ExitCode> {
    let mut args = env::args(rt)?;
    let _ = args.next();
    let Some(word) = args.next() else {
        return judge(rt);
    };
    match word.parse::<Command>() {
        Ok(Command::Help) => {
            no_more(&mut args)?;
            rt.print(HELP)?;
            Ok(ExitCode::SUCCESS)
        }
        Ok(Command::Replay) => {
            let (kind, file) = source(rt, &mut args)?;
            replay_lines(rt, kind, &file)
        }
        Ok(Command::Settled) => {
            let (kind, file) = source(rt, &mut args)?;
            tell(
                rt,
                settle_file(rt.alloc(), kind, &file).map(String::into_bytes),
            )
        }
        Err(UnknownCommand) => {
            no_more(&mut args)?;
            bail!("unknown argument '{word}'; try --help")
        }
    }
}

fn judge(rt: &HostRuntime) -> anyhow::Result<ExitCode> {
    let book = read_file(rt, "book")?;
    let plan = read_file(rt, "plan")?;
    let outcome = Outcome::of(rt.alloc(), judge_files(rt.alloc(), &book, &plan))?;
    rt.print(outcome.text.as_str())?;
    Ok(status_of(outcome.passed))
}

// Prints what was told, in one write, and answers with what status to end.
pub(crate) fn tell(rt: &HostRuntime, told: Result<Vec<u8>, LoadError>) -> anyhow::Result<ExitCode> {
    let outcome = Outcome::of(rt.alloc(), told)?;
    rt.stdout().write_all(&outcome.text)?;
    Ok(status_of(outcome.passed))
}

fn status_of(passed: bool) -> ExitCode {
    if passed {
        ExitCode::SUCCESS
    } else {
        ExitCode::FAILURE
    }
}

// The arguments SOURCE and FILE, and what the file has.
fn source(rt: &HostRuntime, args: &mut Args) -> anyhow::Result<(SourceKind, Vec<u8>)> {
    let Some(kind) = args.next() else {
        bail!("SOURCE is missing; try --help");
    };
    let Some(path) = args.next() else {
        bail!("FILE is missing; try --help");
    };
    no_more(args)?;
    let Ok(kind) = kind.parse::<SourceKind>() else {
        bail!("SOURCE is 'book' or 'sharing'; try --help");
    };
    Ok((kind, read_named(rt, path.as_str())?))
}

fn no_more(args: &mut Args) -> anyhow::Result<()> {
    if args.next().is_some() {
        bail!("too many arguments; try --help");
    }
    Ok(())
}
