// The listing of a program: its bytes in groups, and a line of text for each group.
//
// `code` and `groups` part the bytes into groups, `line` and `text` write the line of one, `lines` puts it into a caller's
// buffer, and `program` lists a whole program. `c` has what the crate `listing_c` hands to the terminal's C firmware.
#![tactic(auto)]

pub mod c;
pub mod code;
pub mod groups;
pub mod line;
pub mod lines;
pub mod program;
#[cfg(test)]
mod tests;
pub mod text;
