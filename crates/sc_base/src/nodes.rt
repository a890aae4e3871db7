//! A list of at most nine nodes in a fixed array.
ghost use Rattle.std.specs.Prelude.{◌≡◌, ◌<◌, ◌≤◌, [], ◌∷◌, ◌++◌, length};

use std::marker::Model;

/// At most nine nodes, in an array whose other places hold 0.
#[derive(Clone, Copy, Debug)]
pub(crate) struct Nodes {
    places: [u16; 9],
    count: u16,
}

impl Model for Nodes {
    ghost use Rattle.std.specs.Prelude.{List, ℕ, length, take, ◌-◌, ◌++◌, replicate};
    ghost use Rattle.sc_base.specs.Nodes.{IsFilled, inverse_of};

    ghost Value = { List ℕ };

    ghost view = { λ n. take n.count n.places };

    ghost invariant = { λ n. IsFilled n.places n.count };

    ghost inverse = { λ l. record { places = l ++ replicate (9 - length l) 0; count = length l } };

    ghost inverse_ok = { λ n h.
        inverse_of n.places n.count h (λ places count. record { places = places; count = count }) };
}

impl Nodes {
    pub(crate) fn new() -> Nodes
        ensures { result ≡ [] }
    {
        Nodes {
            places: [0; 9],
            count: 0,
        }
    }

    pub(crate) fn as_slice(&self) -> &[u16]
        ensures same { result.now ≡ self.now }
        ensures most { length self.now ≤ 9 }
    {
        &self.places[..self.count as usize]
    }

    pub(crate) fn push(&mut self, node: u16)
        requires { length self.old < 9 }
        ensures { self.new ≡ self.old ++ node ∷ [] }
    {
        self.places[self.count as usize] = node;
        self.count += 1;
    }
}
