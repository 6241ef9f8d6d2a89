// Reads rules, plans, hold lists and questions, one to a line, and prints an answer to each.
#![tactic(auto)]

mod line;
mod reply;
mod trial;

use base::LoadError;
use line::{is_passed_over, read_line};
use std::alloc::AllocError;
use std::io;
use trial::Trial;

fn main(rt: HostRuntime) -> io::Result<()> {
    let heap = rt.alloc();
    let mut trial = Trial::new(heap)?;
    for text in rt.lines(heap) {
        let text = text?;
        let text = text.as_str().trim();
        if !is_passed_over(text) {
            answer(&rt, &mut trial, text)?;
        }
    }
    Ok(())
}

fn answer(rt: &HostRuntime, trial: &mut Trial, text: &str) -> io::Result<()> {
    let Some(line) = read_line(rt.alloc(), text)? else {
        return rt.println("not a line");
    };
    match trial.answer(rt.alloc(), line) {
        Ok(reply) => print!(rt; "{reply}"),
        Err(LoadError::Refused(refusal)) => println!(rt; "{refusal}"),
        Err(LoadError::OutOfMemory) => Err(AllocError.into()),
    }
}
