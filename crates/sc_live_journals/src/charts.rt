//! The chart by which what is owed in the journals of a calm scenario is reckoned: one for each
//! journal, by its last quiet prefix, its replicas and their groups. Definitions and laws; no
//! function.
