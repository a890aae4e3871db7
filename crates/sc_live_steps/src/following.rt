//! What holds between a group's leader and its nodes while members come and go. It is stated of
//! marks (`Mark`: a mail of Paxos without its contents), apart from tables; each kind of row keeps
//! it, and the rows of a replica's table are of these kinds. Definitions and laws; no function.
