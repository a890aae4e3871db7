//! The scene of an order after some rows of players (which part each group has in it), and which
//! rows of the scene the rows of a journal are. Definitions and laws; no function.
