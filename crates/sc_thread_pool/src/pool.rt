//! A pool: workers take the shells of many actors from one ruled queue.
mod holders;
mod pool;

pub use holders::shells_have_one_holder;
pub use pool::pool_rounds;
