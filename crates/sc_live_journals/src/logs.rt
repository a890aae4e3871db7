//! What the log of a group says, in a lawful journal of a valid scenario, of the members of its
//! slots, and of its replicas and its mail after each row. Definitions and laws; no function.
