// Writes words for the atoms that are marked.
ghost use Rattle.std.specs.Prelude.{◌≡◌, ℕ, min};
ghost use Rattle.base.specs.Buffers.{WroteInRoom};
ghost use Rattle.base.specs.Words as words;
ghost use Rattle.base.specs.declared.words.Kind.TheVariants.{Member};
ghost use Rattle.sets.specs.Limits.{max_atoms};
ghost use Rattle.sets.specs.Sets.{Atoms, has};
ghost use Rattle.lists.specs.Writing.{list_room, words_for, word_if};

use base::{Kind, Refusal, Word};
use sets::{AtomSet, MAX_ATOMS};

// Words that a buffer for a list must have.
pub const LIST_ROOM: usize = MAX_ATOMS as usize;

// Marks on atoms, each with a word for its atom; a trait, since a closure would ask `write_words` for a `requires`.
pub trait AtomMarks {
    ghost marked: { Self → Atoms };

    ghost word: { Self → ℕ → ℕ };

    // The word for an atom, if the atom is marked.
    fn word_for(&self, atom: u32) -> Option<u32>
        ensures { result ≡ word_if (marked self.now) (word self.now) atom };
}

// Writes the words for the marked atoms from 1 to `atoms`, at most 1,024, and answers how many.
pub fn write_words<M: AtomMarks>(marks: &M, atoms: u32, out: &mut [u32]) -> Result<usize, Refusal>
    ensures { WroteInRoom list_room (words_for (M.AtomMarks.marked marks.now) (M.AtomMarks.word marks.now) (min atoms max_atoms)) out.old result out.new }
{
    // Tested here as in the other calls with a buffer: a function for it would take as many lines at each.
    if out.len() < LIST_ROOM {
        return Err(Refusal::BufferTooShort {
            needed: LIST_ROOM as u32,
        });
    }
    // Not a chain of `filter_map`: the checker's own part of the proof of a `for` over one fails in a generic function.
    // `out` has the count beside it, as the caller lent it; half-open, since a loop over `..=` is left in two ways.
    let mut count = 0;
    for atom in 1..atoms.min(MAX_ATOMS) + 1 {
        let Some(word) = marks.word_for(atom) else {
            continue;
        };
        out[count] = word;
        count += 1;
    }
    Ok(count)
}

// The members of a set as they stand in a plan or a hold list.
impl AtomMarks for AtomSet {
    ghost marked = { has };

    ghost word = { λ _. words.word Member };

    #[tactic(auto, using(base::proofs::WordForms::payload_small, sets::proofs::Sets::has_high))]
    fn word_for(&self, atom: u32) -> Option<u32> {
        self.contains(atom).then(|| {
            u32::from(Word {
                kind: Kind::Member,
                payload: atom,
            })
        })
    }
}
