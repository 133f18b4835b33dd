// What a bench can be told to do.
use geometry::line::Line;
use standalone::access::Access;

// A call of a bench, and its arguments.
#[derive(Clone, Copy)]
pub enum Call<'a> {
    Flush,
    Zero,
    Frame,
    Open(&'a [Line]),
    Access(Access),
    Window { number: u64, first: u64, end: u64 },
    Off(u64),
}
