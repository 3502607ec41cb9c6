//! A node that was killed goes on. The parts of its record are read in order, in pieces, and each entry happens again at a node that
//! begins anew. So the node comes to where it was when its last line was written. Nothing is written here. Read `all_parts::resume`
//! first, then `parts` and `reading`; specs/Resumed.antt says what was read.
#![tactic(auto)]

pub mod all_parts;
pub mod boot;
pub mod fault;
pub mod files;
pub mod parts;
pub mod piece;
pub mod reading;
pub mod wanted;

pub use all_parts::{Resumed, resume};
pub use fault::{Place, ResumeFault};
pub use files::RecordFiles;
pub use parts::{Parts, Unopened};
pub use wanted::Wanted;
