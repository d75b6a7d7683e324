//! What a frame says of the state of a running method: of which kinds its values are, and of which classes; and that what each family of instructions does keeps it.
//! It stands on `dj_tags` and `dj_effects` for frames and what is known of instructions by types, and on `dj_bytecode` for what they do.
//! The layer above uses `Describes` of its definitions, and the lemmas of families, `proofs/Stepping`; the laws are `facts_are_kept` and `described_where_it_goes`.
#![tactic(auto)]

mod laws;

pub use laws::{described_where_it_goes, facts_are_kept};
