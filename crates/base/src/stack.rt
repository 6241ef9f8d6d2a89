// The waiting list: a stack over a lent slice, a form that the project asks for (docs/DECISIONS.md).
mod calls;

ghost use Rattle.std.specs.Prelude.{◌≤◌, length};

#[derive(Drop)]
pub struct Stack<'a, T> {
    slots: &'a mut [T],
    len: usize,
    ghost within: { len ≤ length slots.now },
}
