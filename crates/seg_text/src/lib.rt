//! Numbers and names as text, from bytes and to bytes.
//!
//! A line of text has fields: the longest runs of bytes other than space and tab. A field is read as
//! a whole number, an editor or a name, or it is refused; numbers and names are written in one way
//! alone.
//!
//! ```text
//!    line            __1_delete__12.0007     _ is a space or a tab
//!    fields            1 delete  12.0007
//!    as a number       1         none of the two
//!    as a name                   editor 12, serial 7, written as 12.7
//! ```

#![tactic(auto)]

mod fields;
mod numbers;
#[cfg(test)]
mod tests;
mod text;

pub use fields::next_field;
pub use numbers::{editor, name, whole};
pub use text::{
    push_count, push_name, push_names, push_point, push_points, push_spaced_point, push_text,
    push_whole,
};
