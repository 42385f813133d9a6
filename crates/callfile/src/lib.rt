// The call file: its settings, its texts and its calls. What it says is in specs/; the code that reads it is in `callreader`.
#![tactic(auto)]

mod ask;
mod spans;

pub use ask::Ask;
use cursor::Cursor;
use flow::Settings;
pub use spans::Texts;

// The three sections. `calls` calls stand from `at` on.
#[derive(Clone, Copy)]
pub struct CallFile {
    pub settings: Settings,
    pub texts: Texts,
    pub calls: u64,
    pub at: Cursor,
}
