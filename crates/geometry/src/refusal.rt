// Why a call refuses its arguments. Each reason has a fixed number.
ghost use Rattle.std.specs.Prelude.{◌≡◌};
ghost use Rattle.geometry.specs.Refusal.{refusal_number};

#[derive(Clone, Copy, PartialEq, Eq, Debug)]
pub enum Refusal {
    // no line feed among the first 80 bytes
    LineFeed = 1,
    // the first field is unknown, or the number of fields is wrong
    Fields = 2,
    // a field is not well formed
    Malformed = 3,
    // the line does not belong in this part of the job
    Part = 4,
    // the table has no line, or more than 64
    TableSize = 5,
    // no policy has the letter
    Letter = 6,
    // the number of sets is not allowed
    Sets = 7,
    // the block size is not allowed
    Block = 8,
    // the policy does not take the number of ways
    Ways = 9,
    // the table lines are not in order
    Order = 10,
    // the memory is too short
    Memory = 11,
    // the kind of access is unknown
    Kind = 12,
    // the address has more than 32 bits
    Address = 13,
    // there are more accesses than can be counted
    Accesses = 14,
    // there is no window of the number
    WindowNumber = 15,
    // the window is empty, or ends beyond 2^32
    WindowBounds = 16,
    // there are more frames than can be counted
    Frames = 17,
    // the list has not a record for each line
    Records = 18,
    // the buffer is too short
    Buffer = 19,
}

impl Refusal {
    // The number that stands for the reason.
    pub fn number(self) -> u8
        ensures { result ≡ refusal_number self }
    {
        self as u8
    }
}
