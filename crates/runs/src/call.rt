// A call of a case, with its arguments.
#[derive(Drop)]
pub enum Call {
    // The words of a plan.
    Offer(Vec<u32>),
    // How many words the buffer has.
    Propose { room: u32 },
    // The words of a hold list.
    Hold(Vec<u32>),
    Status { atom: u32 },
}
