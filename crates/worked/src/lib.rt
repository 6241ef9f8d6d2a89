// Worked examples of books, sheets, plans, hold lists, reports, runs and files, as tests.
#![tactic(auto)]

#[cfg(test)]
mod asked;
#[cfg(test)]
mod atoms;
#[cfg(test)]
mod encoding;
#[cfg(test)]
mod file_commands;
#[cfg(test)]
mod files;
#[cfg(test)]
mod fixtures;
#[cfg(test)]
mod hold_files;
#[cfg(test)]
mod holds;
#[cfg(test)]
mod limits;
#[cfg(test)]
mod piles;
#[cfg(test)]
mod refusals;
#[cfg(test)]
mod reports;
#[cfg(test)]
mod run_answers;
#[cfg(test)]
mod settled;
#[cfg(test)]
mod sheet_limits;
#[cfg(test)]
mod sheets;
#[cfg(test)]
mod stacks;
#[cfg(test)]
mod subsets;
#[cfg(test)]
mod words;
#[cfg(test)]
mod worked_book;
