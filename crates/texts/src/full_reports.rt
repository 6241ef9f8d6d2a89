// The report on a plan and a hold list.
ghost use Rattle.std.specs.Prelude.{◌≡◌, ◌≤◌, min};
ghost use Rattle.sets.specs.Limits.{max_atoms};
ghost use Rattle.sets.specs.Sets.{has};
ghost use Rattle.base.specs.Buffers.{WroteInRoom};
ghost use Rattle.texts.specs.Texts.{headline};
ghost use Rattle.texts.specs.Buffered as texts;
ghost use Rattle.texts.specs.Writing.{HasRoom, Wrote};

use crate::marks::{percent, sign_of};
use crate::writing::Writer;
use base::Refusal;
use sets::{AtomSet, MAX_ATOMS};

// A first line of 23 bytes, and 9 bytes for each of 1,024 atoms.
pub const REPORT_ROOM: usize = 9239;

// How many atoms are in a plan over the atoms 1 to `atoms`, of which a set holds the first 1,024, and a line for each of these.
// It differs from `report_plan` in more than where it writes: it has a letter for each atom, ends at the 1,024th, and never allocates.
pub fn write_report(
    out: &mut [u8],
    atoms: u32,
    plan: &AtomSet,
    held: &AtomSet,
    unsettled: &AtomSet,
) -> Result<usize, Refusal>
    ensures { WroteInRoom texts.report_room (texts.report (min atoms max_atoms) (has plan.now) (has held.now) (has unsettled.now)) out.old result out.new }
{
    if out.len() < REPORT_ROOM {
        return Err(Refusal::BufferTooShort {
            needed: REPORT_ROOM as u32,
        });
    }
    let marks = Marks {
        plan,
        held,
        unsettled,
    };
    let most = atoms.min(MAX_ATOMS);
    let mut report = Writer::new(out);
    write_headline(&mut report, plan.count(), most);
    for atom in 1..=most {
        marks.write_line(&mut report, atom);
    }
    Ok(report.written())
}

fn write_headline(out: &mut Writer<'_>, count: u32, atoms: u32)
    requires { HasRoom out.old (headline count atoms) }
    ensures { Wrote out.old (headline count atoms) out.new }
{
    out.labelled("plan ", u64::from(count));
    out.labelled(" of ", u64::from(atoms));
    out.labelled(" ", percent(count, atoms));
    out.text("%\n");
}

// What a line says of an atom: whether it is in the plan, held, or not settled.
#[derive(Drop)]
struct Marks<'a> {
    plan: &'a AtomSet,
    held: &'a AtomSet,
    unsettled: &'a AtomSet,
}

impl Marks<'_> {
    fn write_line(&self, out: &mut Writer<'_>, atom: u32)
        requires { HasRoom out.old (texts.report_line (has self.now.plan.now) (has self.now.held.now) (has self.now.unsettled.now) atom) }
        ensures { Wrote out.old (texts.report_line (has self.now.plan.now) (has self.now.held.now) (has self.now.unsettled.now) atom) out.new }
    {
        out.number(u64::from(atom));
        out.text(" ");
        out.text(sign_of(self.plan.contains(atom)));
        out.text(" ");
        out.text(self.letter_of(atom));
        out.text("\n");
    }

    fn letter_of(&self, atom: u32) -> &'static str
        ensures { result.now ≡ texts.letter (has self.now.held.now atom) (has self.now.unsettled.now atom) }
    {
        if self.held.contains(atom) {
            "a"
        } else if self.unsettled.contains(atom) {
            "h"
        } else {
            "w"
        }
    }
}
