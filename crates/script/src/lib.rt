// The script language of paired runs: a line of bytes becomes a command, plain data that a program serves; numbers of insertions
// stand for handles. A reader may rely on the models in specs/ and those of crate `input`: fields, numbers and their ranges, exactly, for
// any bytes.
#![tactic(auto)]

pub mod command;
pub mod sides;
pub mod table;
