// What the program is asked to do.
ghost use Rattle.console.specs.Commands.{Asks};

use std::str::FromStr;

pub const HELP: &str = "dumixagorl judges plans over ground normal rules.

usage:
  dumixagorl            judge the file `plan` by the rules of the file `book`, both in this folder
  dumixagorl --help     print this text (also -h)

A file is a list of 32-bit words, four bytes each, the least significant first; a missing file is empty.
A plan that is an answer set of the rules is reported: how many atoms are in it, then a line for each atom
with + (in) or - (out). Anything else is refused by a line such as `refused 5 at 3`, and the exit status is 1.
docs/FORMATS.md has the formats, and what each number and value means.

commands on the rules of a file:
  dumixagorl replay SOURCE FILE     make the calls that standard input has, one a line, on a new case over the rules
                                    of FILE, and print their answers
  dumixagorl settled SOURCE FILE    print what the rules of FILE settle without any plan

SOURCE is `book` or `sharing`. The lines of `replay`, with words of eight hexadecimal digits and decimal numbers:
  offer WORD...      the plan of these words        passed
  propose ROOM       in a buffer of ROOM words      COUNT WORD...
  hold WORD...       the hold list of these words   passed
  status ATOM        whether it is in the plan      in, or out
A refused call prints its refusal. Empty lines and lines that begin with # are passed over.
";

#[derive(Clone, Copy, PartialEq, Eq, Debug)]
pub enum Command {
    Help,
    Replay,
    Settled,
}

// A first argument that names no command.
#[derive(Clone, Copy, PartialEq, Eq, Debug)]
pub struct UnknownCommand;

impl FromStr for Command {
    type Err = UnknownCommand;

    ghost from_str_gives = { Asks };

    fn from_str(word: &str) -> Result<Command, UnknownCommand> {
        match word {
            "--help" | "-h" => Ok(Command::Help),
            "replay" => Ok(Command::Replay),
            "settled" => Ok(Command::Settled),
            _ => Err(UnknownCommand),
        }
    }
}
