//! The law that the pump of a settled leader with nothing in flight leaves no command of a
//! transaction queued. Definitions and laws; no code that runs.
