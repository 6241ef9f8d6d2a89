// The waiting list.
use base::Stack;

#[test]
fn a_stack_takes_as_much_as_it_has_room_for(rt: HostRuntime) {
    let mut slots = [0u32; 3];
    let mut stack = Stack::over(&mut slots);
    assert_eq!(rt; [stack.push(7), stack.push(8), stack.push(7)], [true; 3]);
    assert_eq!(rt; [stack.push(9), stack.push(9)], [false; 2]);
    assert_eq!(rt; [stack.pop(), stack.pop()], [Some(7), Some(8)]);
    assert_eq!(rt; [stack.pop(), stack.pop()], [Some(7), None]);
}
