// What a stack does; its contents are a list, the top last.
ghost use Rattle.std.specs.Prelude.{◌≡◌, [], ◌∷◌, ◌++◌, length, is_some, if◌then◌else◌, nat_lt};
ghost use Rattle.std.specs.Option.{option_to_list};
ghost use Rattle.base.specs.Stacks.{items, room};

use super::Stack;

impl<'a, T: Copy> Stack<'a, T> {
    // An empty stack with as much room as the slice has.
    pub fn over(slots: &'a mut [T]) -> Stack<'a, T>
        ensures items { items result ≡ [] }
        ensures room { room result ≡ length slots.old }
    {
        Stack { slots, len: 0 }
    }

    // Puts a value on top, and answers whether there was room for it.
    pub fn push(&mut self, value: T) -> bool
        ensures answer { result ≡ nat_lt (length (items self.old)) (room self.old) }
        ensures items { items self.new ≡ items self.old ++ (if result then value ∷ [] else []) }
        ensures room { room self.new ≡ room self.old }
    {
        if self.len >= self.slots.len() {
            return false;
        }
        self.slots[self.len] = value;
        self.len += 1;
        true
    }

    // Takes the value on top.
    pub fn pop(&mut self) -> Option<T>
        ensures answer { is_some result ≡ nat_lt 0 (length (items self.old)) }
        ensures items { items self.old ≡ items self.new ++ option_to_list result }
        ensures room { room self.new ≡ room self.old }
    {
        if self.len == 0 {
            return None;
        }
        self.len -= 1;
        Some(self.slots[self.len])
    }
}
