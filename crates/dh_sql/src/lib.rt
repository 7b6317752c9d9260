//! What SQL texts do to a table of records, for any schema and any kind of record: definitions in specs/, lemmas in proofs/.
#![tactic(auto)]
