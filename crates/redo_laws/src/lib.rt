//! What the log and the pages of a site hold together: definitions, and lemmas on them.
#![tactic(auto)]
