//! What the stages of an order give of what rows of calm journals have to find: that a vote for
//! the order's entry may be counted. Definitions and laws; no function.
