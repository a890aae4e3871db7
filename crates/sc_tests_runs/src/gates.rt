//! The gate that holds nobody.
use sc_actor::Gate;

pub struct Open;

impl Gate for Open {
    fn pass(&self, _who: u32) {}
}
