//! Lemmas for tokens at one shared word, of which each knows a list of parts: how a rule over all parts is kept.
//!
//! Stands for   a table of one word of the kit's `atomic_table`, at which each seat knows a list of parts, and a rule
//!              over the word and the parts of all seats (`specs/Seats.antt`, `Holds`)
//! Promises     a step, a split or a join keeps the rule where one fact on plain lists holds: these parts may become
//!              those, whatever the parts of the other seats are (`Goes`, `Becomes`)
//! Goes in      a rule, and the proof that it does not see in which order the parts come (`Alike`)
//! Comes out    what the table asks of a step, of a split and of a join (`Allows`, `Splits`, `Joins`)
//! Stands on    atomic_table
//! Begin at     specs/Seats.antt, then proofs/StepLemmas.antt, `Allows-goes`
//! Leaves open  what the parts are and what the rule says: `front_rule` has one
//!
//! A word is a number that threads share and change in single steps. A seat is a token of one thread, which a step
//! needs; what it knows is there in proofs alone. A step may change the word and what its seat knows. A split gives some
//! of a seat's parts to a new seat, and a join puts the parts of two seats together. The crate has no code.
#![tactic(auto)]
