//! The lines of a session of two ends: which step or config a line means, and the line that answers it.
#![tactic(auto)]

mod hexadecimal;
mod lines;
mod printing;
mod replies;
mod steps;

pub use hexadecimal::{hex_bytes, hex_field};
pub use lines::{LineError, parse_config, parse_early};
pub use printing::step_line;
pub use replies::{refusal_line, reply_line, whole_line};
pub use steps::{is_settle, parse_step, parse_whole};
