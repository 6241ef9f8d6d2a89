// Calls from standard input, and their answers.
use crate::tell;
use console::{SourceKind, replay_file};
use lines::{LineError, answer_line, read_line};
use runs::{Answer, Call};
use std::process::ExitCode;

// The calls up to the first line that is none.
#[derive(Drop)]
struct Script {
    calls: Vec<Call>,
    // The number of that line, from 1 on.
    stopped: Option<usize>,
}

// Makes the calls, and prints an answer to each.
pub(crate) fn replay_lines(
    rt: &HostRuntime,
    kind: SourceKind,
    file: &[u8],
) -> anyhow::Result<ExitCode> {
    let script = read_script(rt)?;
    let answers = match replay_file(rt.alloc(), kind, file, &script.calls) {
        Ok(answers) => answers,
        Err(e) => return tell(rt, Err(e)),
    };
    print_answers(rt, &answers)?;
    if let Some(number) = script.stopped {
        eprintln!(rt; "line {number}: not a call")?;
        return Ok(ExitCode::FAILURE);
    }
    Ok(ExitCode::SUCCESS)
}

fn print_answers(rt: &HostRuntime, answers: &[Answer]) -> anyhow::Result<()> {
    for answer in answers {
        rt.print(answer_line(rt.alloc(), answer)?)?;
    }
    Ok(())
}

fn read_script(rt: &HostRuntime) -> anyhow::Result<Script> {
    let heap = rt.alloc();
    let mut calls = Vec::new(heap);
    for (index, text) in rt.lines(heap).enumerate() {
        match read_line(heap, text?.as_bytes()) {
            Ok(Some(call)) => calls.push(call)?,
            Ok(None) => {}
            Err(LineError::NotACall) => {
                return Ok(Script {
                    calls,
                    stopped: Some(index.saturating_add(1)),
                });
            }
            Err(e) => return Err(e.into()),
        }
    }
    Ok(Script {
        calls,
        stopped: None,
    })
}
