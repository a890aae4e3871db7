//! What is owed while an order runs in a calm journal: at most how many deliveries are still to
//! come. The rows of a node's and a client's table lower it. In a calm journal clients go, orders
//! are given one after another, and mail is only delivered. Definitions and laws; no function.
