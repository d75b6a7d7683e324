//! The rules by which Java accepts expressions, as definitions (JLS 15).
//! It stands on `dj_meaning` for types of expressions and for what names in them mean, and on `dj_places` for rules and places.
//! The layers above check these rules.
#![tactic(auto)]
