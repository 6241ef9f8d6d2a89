// The report on a plan, and the line of a refusal.
ghost use Rattle.std.specs.Prelude.{◌≡◌, IfOk, string_bytes};
ghost use Rattle.texts.specs.Texts as texts;

use crate::marks::{percent, sign_of};
use base::Refusal;
use sets::AtomSet;
use std::alloc::{AllocError, Global};
use std::fmt::Write;

// How many atoms are in a plan over the atoms 1 to `atoms`, and a line for each of these.
pub fn report_plan(heap: Global, atoms: u32, plan: &AtomSet) -> Result<String, AllocError>
    ensures { IfOk result (λ text. string_bytes text ≡ texts.plan_report atoms plan.now) }
{
    let count = plan.count();
    let percent = percent(count, atoms);
    let mut text = format!(in heap; "plan {count} of {atoms} {percent}%\n")?;
    for atom in 1..=atoms {
        let sign = sign_of(plan.contains(atom));
        write!(text, "{atom} {sign}\n")?;
    }
    Ok(text)
}

// The number of a refusal and what it returns.
#[tactic(auto, using(crate::proofs::Reporting::line_of_refusal))]
pub fn refusal_line(heap: Global, refusal: &Refusal) -> Result<String, AllocError>
    ensures { IfOk result (λ text. string_bytes text ≡ texts.refusal_line refusal.now) }
{
    format!(in heap; "{refusal}\n")
}
