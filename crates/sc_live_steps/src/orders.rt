//! What holds between the groups of one order that is under way alone. Its stages are stated apart
//! from tables; each kind of row keeps them, and the rows of a replica's table are of these kinds.
//! Definitions and laws; no function.
