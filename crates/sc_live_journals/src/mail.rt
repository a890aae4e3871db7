//! What holds of each replica and of each mail in any journal whose rows come in time, whatever
//! orders are given. Definitions and laws; no function.
