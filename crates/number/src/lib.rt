//! Numbers: which values are the decimal text of a signed 64-bit number, that text, and the bytes of the first kind that
//! holds the number. Each contract is an equation with definitions: layout's, or those of specs/.
#![tactic(auto)]

mod kinds;
mod text;
mod widths;

pub use kinds::{Encoded, Kind, encode, kind_of};
pub use text::{parse, text_of};
pub use widths::{Small, Width};
