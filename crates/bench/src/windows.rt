// What the windows hold, and how one of them is set.
ghost use Rattle.std.specs.Prelude.{◌≡◌, ◌<◌, slice_set};
ghost use Rattle.bench.specs.Window.{cached, holds, new_windows, off_window, on_and_holds, on_window};

use crate::window::{Window, Windows};

impl Window {
    // Whether the window holds the address.
    fn holds(&self, address: u64) -> bool
        ensures { result ≡ holds self.now address }
    {
        (self.first..self.end).contains(&address)
    }
}

// Whether a window is on and holds the address.
fn on_and_holds(window: &Option<Window>, address: u64) -> bool
    ensures { result ≡ on_and_holds window.now address }
{
    match window {
        Some(window) => window.holds(address),
        None => false,
    }
}

impl Windows {
    // Window 0 holds every address, and the others are off.
    pub(crate) fn new() -> Windows
        ensures { result.table ≡ new_windows }
    {
        let mut table = [None; 8];
        table[0] = Some(Window {
            first: 0,
            end: 1 << 32,
        });
        Windows { table }
    }

    // Whether a window that is on holds the address.
    pub(crate) fn cached(&self, address: u64) -> bool
        ensures { result ≡ cached self.now.table address }
    {
        self.table
            .iter()
            .any(|window| on_and_holds(window, address))
    }

    // Sets a window, which is then on.
    pub(crate) fn put(&mut self, number: usize, first: u64, end: u64)
        requires { number < 8 }
        ensures { self.new.table ≡ slice_set self.old.table number (on_window first end) }
    {
        self.table[number] = Some(Window { first, end });
    }

    // Puts a window off.
    pub(crate) fn off(&mut self, number: usize)
        requires { number < 8 }
        ensures { self.new.table ≡ slice_set self.old.table number off_window }
    {
        self.table[number] = None;
    }
}
