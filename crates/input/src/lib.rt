// What programs read: standard input by lines (`lines`), a line's fields (`fields`) and the numbers in them (`numbers`).
// A reader may rely on the models in specs/ for fields and numbers, exactly and for any bytes; of what is read no contract speaks.
#![tactic(auto)]

pub mod fields;
pub mod lines;
pub mod numbers;
