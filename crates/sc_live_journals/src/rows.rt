//! From the tables of players, row by row, to what holds between a group's leader and its nodes:
//! the marks of the mail under way, and how far each node of the group has come. Definitions and
//! laws; no function.
