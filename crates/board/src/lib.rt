// Boards: what the processor is wired to.
//
// `signals` has what passes between station and board in a cycle, `meaning` the trait that says what a board is, `script`
// a board with a list of shows, `canteen` the board with keypad, lamp and
// card writer, and `panel` what that board answers.
#![tactic(auto)]

pub mod canteen;
pub mod meaning;
pub mod panel;
pub mod script;
pub mod signals;
