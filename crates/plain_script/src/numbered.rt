//! Events with the numbers of their lines.

use crate::event::Event;

/// An event and the number of its line, from 1.
#[derive(Clone, Copy)]
pub struct Numbered {
    pub line: u32,
    pub event: Event,
}
