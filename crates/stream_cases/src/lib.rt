//! Measured work on streams and on the ends of a connection: one function for each case, whose answer is a number that
//! tells whether the work was done. `docs/PERFORMANCE.md` says what each case does.
//!
//! All take `size`, how much is to be done; `src`, the content: 2^20 bytes, of which the first 65,536 come once more
//! at the end; and `perm`, an order of the pieces: the numbers below 1024, each once. An answer of [`REFUSED`] says
//! that memory was refused, that there is less content, or that `size` is 2^60 or more. Numbers of `perm` that are out
//! of range are passed over.
#![tactic(auto)]

mod connection;
mod content;
mod end;
mod link;
mod reassembly;
mod refused;
mod sending;
mod yardstick;

pub use connection::{case_g, case_h, case_i};
pub use reassembly::{case_a, case_b, case_c, case_c2, case_d, case_k, case_l, case_m};
pub use refused::REFUSED;
pub use sending::{case_e, case_e2, case_f, case_j};
pub use yardstick::case_z;
