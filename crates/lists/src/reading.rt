// Reads a plan or a hold list word by word.
ghost use Rattle.std.specs.Prelude.{◌≡◌, min};
ghost use Rattle.sets.specs.Limits.{max_atoms};
ghost use Rattle.base.specs.Words.{kind, payload};
ghost use Rattle.base.specs.Loading.{Fitted};
ghost use Rattle.lists.specs.Lists.{member_misfit, list_of_words, ListRead};
ghost use Rattle.lists.specs.Laws.{TakenExactlyIfRising, RefusedWhereNoListGoesOn};

use base::{Kind, Misfit, Refusal, Word};
use sets::{AtomSet, MAX_ATOMS};

// The set of the atoms on a list over the atoms 1 to `atoms`, of which a set holds the first 1,024.
pub fn read_list(words: &[u32], atoms: u32) -> Result<AtomSet, Refusal>
    ensures answer { ListRead (list_of_words (min atoms max_atoms) words.now) result }
    ensures law { TakenExactlyIfRising × RefusedWhereNoListGoesOn }
{
    let most = atoms.min(MAX_ATOMS);
    let mut set = AtomSet::new();
    let mut last = 0;
    for (place, word) in words.iter().enumerate() {
        last = member(*word, last, most).map_err(|misfit| misfit.at(place as u32))?;
        let _ = set.insert(last);
    }
    Ok(set)
}

// The atom of a word that fits behind the atom `last`.
fn member(word: u32, last: u32, most: u32) -> Result<u32, Misfit>
    ensures { Fitted (member_misfit most last (kind word) (payload word)) (payload word) result }
{
    let Word {
        kind: Kind::Member,
        payload: atom,
    } = Word::from(word)
    else {
        return Err(Misfit::NoForm);
    };
    if atom == 0 || atom > most {
        return Err(Misfit::OutOfRange);
    }
    if atom <= last {
        return Err(Misfit::NotRising);
    }
    Ok(atom)
}
