// The windows: which addresses are cached.
ghost use Rattle.std.specs.Prelude.{◌≡◌, length};

// The addresses from `first` to the one before `end`.
#[derive(Clone, Copy)]
pub(crate) struct Window {
    pub(crate) first: u64,
    pub(crate) end: u64,
}

// The eight windows of a bench, of which some are off.
#[derive(Clone, Copy)]
pub(crate) struct Windows {
    pub(crate) table: [Option<Window>; 8],
    ghost eight: { length table ≡ 8 },
}
