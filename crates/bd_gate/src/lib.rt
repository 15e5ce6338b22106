//! The two halves of a disk, of which one is the newest, and the gates by which a stop finds the old half or the new.
#![tactic(auto)]

mod commit;
mod half;
mod log;

pub use commit::{close_half, commit_frame, fill_half, open_half, store};
pub use half::{CLOSED_GATE, GateFault, Half, OPEN_GATE, newest_half, read_payload};
pub use log::{Gated, append_gated, first_record, read_log};
