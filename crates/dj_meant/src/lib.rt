//! Which field or method an instruction names, as source names members, and where none is meant so: definitions.
//! It stands on `dj_meaning` for what a name means, on `dj_bytecode` for where the machine's search begins, and on `dj_typing` for which classes are abstract.
//! The layers above use `HasMember`: of the causes for which a method isn't printed, and of the laws on what instructions on members show.
#![tactic(auto)]
