// A rule book, and what it answers as a rule source.
ghost use Rattle.std.specs.Prelude.{◌≡◌, []};
ghost use Rattle.base.specs.Loading.{Loaded};
ghost use Rattle.rules.specs.Tables.{program, program_within};
ghost use Rattle.books.specs.Books.{book_of_words};
ghost use Rattle.books.specs.Laws.{TakenExactlyIfEncoded, RefusedWhereNoBookGoesOn};

use crate::reading::read_book;
use base::LoadError;
use rules::{Literal, RuleSource, RuleTable};
use std::alloc::Global;

#[derive(Drop)]
pub struct Book {
    table: RuleTable,
}

impl Book {
    // A book with no atoms and no rules.
    pub fn new(heap: Global) -> Book
        ensures { program result.table ≡ record { atoms = 0; rules = [] } }
    {
        Book {
            table: RuleTable::new(heap),
        }
    }

    // Replaces all rules by those of the words; a refusal leaves the book as it was.
    pub fn load(&mut self, heap: Global, words: &[u32]) -> Result<(), LoadError>
        ensures answer { Loaded (book_of_words words.now) (program self.old.table) result (program self.new.table) }
        ensures law { TakenExactlyIfEncoded × RefusedWhereNoBookGoesOn }
    {
        self.table = read_book(heap, words)?;
        Ok(())
    }
}

// Each question goes on to the table: there is no shorter form for that.
impl RuleSource for Book {
    ghost meaning = { λ b. program b.table };

    ghost within = { λ b. program_within b.table };

    fn atom_count(&self) -> u32 {
        self.table.atom_count()
    }

    fn rule_count(&self) -> usize {
        self.table.rule_count()
    }

    fn head(&self, rule: usize) -> u32 {
        self.table.head(rule)
    }

    fn body_len(&self, rule: usize) -> usize {
        self.table.body_len(rule)
    }

    fn literal(&self, rule: usize, place: usize) -> Literal {
        self.table.literal(rule, place)
    }
}
